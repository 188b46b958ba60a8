// The file's sections, root and records, and where the blocks of a written file lie.
#![tactic(auto)]

pub mod bytes;
mod cursor;
pub mod junction;
pub mod junction_ref;
pub mod layout;
pub mod link;
pub mod node;
pub mod root;
pub mod section;
mod stored;
