// The library for programs in C or Rust. Every name begins with `ynd_`. Numbers pass as themselves, a slice as pointer
// and length, an array as a pointer. A call that can be refused answers with document 01's number, 0 where it was
// accepted, and leaves the place in the lent `place`; a refusal leaves the other lent cells as they were.
// A cell is an `Ynd` beside five lists, of nodes, links, junctions, heightmap values and refs; each struct has the
// layout of include/bofrashem.h.
#![tactic(auto)]

mod answers;
pub mod edits;
pub mod entries;
pub mod finding;
pub mod grid;
pub mod handing_back;
pub mod link_access;
pub mod lookups;
pub mod member_counts;
pub mod member_entries;
pub mod member_junctions;
pub mod member_links;
pub mod member_lookups;
pub mod member_nodes;
pub mod member_refs;
pub mod member_showing;
pub mod member_writing;
pub mod names;
pub mod node_access;
pub mod reaching;
pub mod reading;
pub mod renumbering;
pub mod round_files;
pub mod round_versions;
pub mod sections;
pub mod set_calls;
pub mod set_following;
pub mod set_members;
pub mod showing;
pub mod steps;
pub mod storing;
pub mod texts;
pub mod walking;
pub mod walking_indexed;
pub mod writing;
