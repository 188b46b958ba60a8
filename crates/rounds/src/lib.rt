// Round files, and rounds followed in a cell (T-03).
#![tactic(auto)]

pub mod file;
pub mod follow;
