// A format as 01 describes it, over its bytes. Definitions and laws; there is no code here.
#![tactic(auto)]
