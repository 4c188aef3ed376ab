// The causes of refusals, over what calls are lent. Definitions and laws; there is no code here.
#![tactic(auto)]
