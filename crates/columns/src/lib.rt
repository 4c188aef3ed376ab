// Definitions and laws alone: what demand 3 says of a printed column. No function stands here.
#![tactic(auto)]
