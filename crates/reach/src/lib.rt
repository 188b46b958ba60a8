// Nodes within reach of a point, the nearest first, and the nearest (T-01, T-08).
#![tactic(auto)]

pub mod distance;
pub mod reach;
pub mod sort;
