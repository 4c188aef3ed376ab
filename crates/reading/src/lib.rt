// Reading a printed piece back: definitions and laws, no code.
#![tactic(auto)]
