// Walks and rounds in which a node is found by a lent index of the numbers.
#![tactic(auto)]

pub mod follow;
pub mod walk;
