// Demand 3 over the calls.
#![tactic(auto)]

pub mod again;
