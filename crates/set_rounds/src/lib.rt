// Rounds followed across a set of cells (T-11).
#![tactic(auto)]

pub mod follow;
