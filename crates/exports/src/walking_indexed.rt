// Walks and rounds in which a node is found by a lent index of the numbers.
ghost use Rattle.std.specs.Prelude.{◌≡◌, List, ℕ, length};
ghost use Rattle.indexed.specs.FollowIndexed.{follow_round_indexed};
ghost use Rattle.indexed.specs.WalkIndexed.{index_left, walk_indexed};
ghost use Rattle.exports.specs.Found.{told, trail, walk_told};
ghost use Rattle.cells.specs.declared.junction_entry.JunctionEntry.{JunctionEntry};
ghost use Rattle.records.specs.declared.junction_ref.NodeJunctionRef.{NodeJunctionRef};
ghost use Rattle.cells.specs.Memory.{memory};

use crate::walking::tell_walk;
use cells::link::PathLink;
use cells::node_entry::NodeEntry;
use cells::ynd::Ynd;

// As `ynd_walk`, with a scratch by which the node with a number is found at once. The scratch then holds each number's
// first place; a refusal leaves it as it was.
#[unsafe(no_mangle)]
pub extern "C" fn ynd_walk_indexed(
    ynd: &Ynd,
    nodes: &[NodeEntry],
    links: &[PathLink],
    start: usize,
    choices: &[u8],
    visited: &mut [u32],
    scratch: &mut [u32],
    end: &mut [u32; 3],
    count: &mut usize,
    place: &mut usize,
) -> u32
    ensures answer { (junctions : List JunctionEntry) (heights : List ℕ) (refs : List NodeJunctionRef) →
        told result place.new (trail end.new count.new)
        ≡ walk_told
        (walk_indexed (memory ynd.now nodes.now links.now junctions heights refs) (length scratch.old) choices.now
        start visited.old).answer end.old count.old }
    ensures visited_after { (junctions : List JunctionEntry) (heights : List ℕ) (refs : List NodeJunctionRef)
        → visited.new
        ≡ (walk_indexed (memory ynd.now nodes.now links.now junctions heights refs) (length scratch.old) choices.now
        start visited.old).visited }
    ensures scratch_after { (junctions : List JunctionEntry) (heights : List ℕ) (refs : List NodeJunctionRef) →
        scratch.new ≡ index_left
        (walk_indexed (memory ynd.now nodes.now links.now junctions heights refs) (length scratch.old) choices.now
        start visited.old).answer ynd.now nodes.now scratch.old }
{
    let r = indexed::walk::walk_indexed(*ynd, nodes, links, start, choices, visited, scratch);
    tell_walk(r, end, count, place)
}

// As `ynd_follow_round`, likewise.
#[unsafe(no_mangle)]
pub extern "C" fn ynd_follow_round_indexed(
    ynd: &Ynd,
    nodes: &[NodeEntry],
    links: &[PathLink],
    start: u16,
    choices: &[u8],
    visited: &mut [u32],
    scratch: &mut [u32],
    end: &mut [u32; 3],
    count: &mut usize,
    place: &mut usize,
) -> u32
    ensures answer { (junctions : List JunctionEntry) (heights : List ℕ) (refs : List NodeJunctionRef) →
        told result place.new (trail end.new count.new)
        ≡ walk_told
        (follow_round_indexed (memory ynd.now nodes.now links.now junctions heights refs) (length scratch.old) start
        choices.now visited.old).answer end.old count.old }
    ensures visited_after { (junctions : List JunctionEntry) (heights : List ℕ) (refs : List NodeJunctionRef)
        → visited.new
        ≡ (follow_round_indexed (memory ynd.now nodes.now links.now junctions heights refs) (length scratch.old) start
        choices.now visited.old).visited }
    ensures scratch_after { (junctions : List JunctionEntry) (heights : List ℕ) (refs : List NodeJunctionRef) →
        scratch.new ≡ index_left
        (follow_round_indexed (memory ynd.now nodes.now links.now junctions heights refs) (length scratch.old) start
        choices.now visited.old).answer ynd.now nodes.now scratch.old }
{
    let followed = indexed::follow::follow_round_indexed(
        *ynd, nodes, links, start, choices, visited, scratch,
    );
    tell_walk(followed, end, count, place)
}
