// Every cell that calls can make: definitions and laws only, no code.
#![tactic(auto)]
