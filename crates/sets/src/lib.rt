// Sets of cells (T-09): a set in six lent lists, cells that join and leave it, walks that cross its members; of one
// member renumbering, writing, edits, lookups and what a walk shows.
#![tactic(auto)]

mod areas;
mod arrivals;
mod correct;
mod cross;
pub mod crossing;
pub mod edit_counts;
pub mod edit_junctions;
pub mod edit_links;
pub mod edit_nodes;
pub mod edit_refs;
pub mod entry;
pub mod get_member;
pub mod hand_back;
pub mod join;
pub mod leave;
mod lists;
pub mod lookup_member;
mod member;
mod moves;
pub mod named;
mod parts;
pub mod renumber;
mod room;
pub mod shown_member;
pub mod soundness;
mod world;
pub mod write_member;
