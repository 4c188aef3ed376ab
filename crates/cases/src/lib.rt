// 01's table under "Cases", with rows of ours and of dates, as a table of the definitions. No function stands here.
#![tactic(auto)]
