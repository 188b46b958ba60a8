// Numbers of path node cells: stored steps and positions, the grid, file names, lengths.
// The definitions that the contracts cite are in `specs/`.
#![tactic(auto)]

pub mod bits;
pub mod grid;
pub mod lane;
pub mod length;
pub mod math;
pub mod names;
pub mod position;
pub mod refusal;
pub mod starts;
pub mod steps;
pub mod threshold_search;
pub mod thresholds;
