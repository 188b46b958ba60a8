// Shortest paths between two places of a cell (T-06).
#![tactic(auto)]

pub mod index;
pub mod path;
pub mod queue;
pub mod scratch;
pub mod search;
