// A round followed in a cell by a lent index of the numbers (docs/FORMAT.md, Following a round).
ghost use Rattle.std.specs.Prelude.{◌≡◌, List, ℕ, length};
ghost use Rattle.cells.specs.Memory.{memory};
ghost use Rattle.walks.specs.WalkCall.{walk_left};
ghost use Rattle.indexed.specs.FollowIndexed.{follow_round_indexed, follow_version_indexed};
ghost use Rattle.indexed.specs.WalkIndexed.{index_left};
ghost use Rattle.cells.specs.declared.junction_entry.JunctionEntry.{JunctionEntry};
ghost use Rattle.records.specs.declared.junction_ref.NodeJunctionRef.{NodeJunctionRef};

use crate::walk::walk_indexed;
use cells::link::PathLink;
use cells::lookup::node;
use cells::node_entry::NodeEntry;
use cells::ynd::Ynd;
use numbers::refusal::Refusal;
use rounds::file::Version;
use rounds::follow::area_check;
use walks::walk::Walked;

// As `follow_round`, with a scratch by which the node with a number is found at once. The scratch then holds each
// number's first place; a refusal changes nothing.
#[tactic(auto, unfolding(crate::specs::FollowIndexed::follow_round_indexed))]
pub fn follow_round_indexed(
    ynd: Ynd,
    nodes: &[NodeEntry],
    links: &[PathLink],
    start: u16,
    choices: &[u8],
    visited: &mut [u32],
    scratch: &mut [u32],
) -> Result<Walked, Refusal>
    ensures followed { (junctions : List JunctionEntry) (heights : List ℕ) (refs : List NodeJunctionRef)
        → walk_left result visited.new
        ≡ follow_round_indexed (memory ynd nodes.now links.now junctions heights refs) (length scratch.old) start
        choices.now visited.old }
    ensures index { scratch.new ≡ index_left result ynd nodes.now scratch.old }
{
    let i = node(ynd, nodes, start)?.ok_or(Refusal::NoSuchPlace)?;
    walk_indexed(ynd, nodes, links, i, choices, visited, scratch)
}

// A round of either version, as `follow_version` follows it, likewise.
#[tactic(auto, unfolding(crate::specs::FollowIndexed::follow_version_indexed))]
pub fn follow_version_indexed(
    ynd: Ynd,
    nodes: &[NodeEntry],
    links: &[PathLink],
    version: Version,
    start: u16,
    choices: &[u8],
    visited: &mut [u32],
    scratch: &mut [u32],
) -> Result<Walked, Refusal>
    ensures followed { (junctions : List JunctionEntry) (heights : List ℕ) (refs : List NodeJunctionRef)
        → walk_left result visited.new
        ≡ follow_version_indexed (memory ynd nodes.now links.now junctions heights refs) (length scratch.old)
        version start choices.now visited.old }
    ensures index { scratch.new ≡ index_left result ynd nodes.now scratch.old }
{
    area_check(ynd, nodes, version)?;
    follow_round_indexed(ynd, nodes, links, start, choices, visited, scratch)
}
