// Bytes that don't count: definitions and laws only, no code.
#![tactic(auto)]
