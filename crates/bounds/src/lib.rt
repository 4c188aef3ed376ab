// The text of every piece is shorter than 2 to the 32nd bytes: laws, no code.
#![tactic(auto)]
