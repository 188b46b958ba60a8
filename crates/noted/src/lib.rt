// Standard input and output whose errors are noted, so that a program's contract can say that it ends early only where
// reading or writing gave an error.
#![tactic(auto)]

pub mod noted;
pub mod sink;
pub mod source;
