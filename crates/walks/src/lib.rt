// Sound cells and walks.
#![tactic(auto)]

pub mod part;
pub mod place;
pub mod shown;
pub mod sound;
pub mod walk;
