// Calls on a set of cells (T-09). `members` are the set's entries alone.
ghost use Rattle.std.specs.Prelude.{◌≡◌, List, ℕ, length};
ghost use Rattle.cells.specs.Renumber.{scratch_left};
ghost use Rattle.sets.specs.CellSet.{cell_set};
ghost use Rattle.sets.specs.Crossing.{location};
ghost use Rattle.sets.specs.CrossMember.{cross_member};
ghost use Rattle.sets.specs.RenumberMember.{renumber_member};
ghost use Rattle.sets.specs.SetSoundCall.{set_sound_call};
ghost use Rattle.exports.specs.Answers.{answer_number, answer_place};
ghost use Rattle.exports.specs.Found.{told, trail, walk_told, value_told};
ghost use Rattle.cells.specs.declared.junction_entry.JunctionEntry.{JunctionEntry};
ghost use Rattle.records.specs.declared.junction_ref.NodeJunctionRef.{NodeJunctionRef};

use crate::answers::{answer, tell};
use crate::walking::tell_walk;
use cells::junction_entry::JunctionEntry;
use cells::link::PathLink;
use cells::node_entry::NodeEntry;
use records::junction_ref::NodeJunctionRef;

// Renumbers a member, and corrects the links of the others that name it. `places` gets each of its nodes' new place;
// the scratch holds anything after an accepted call.
#[unsafe(no_mangle)]
pub extern "C" fn ynd_set_renumber(
    members: &mut [[u32; 20]],
    nodes: &mut [NodeEntry],
    links: &mut [PathLink],
    junctions: &[JunctionEntry],
    heights: &[u8],
    refs: &mut [NodeJunctionRef],
    scratch: &mut [u32],
    places: &mut [u32],
    member: usize,
    place: &mut usize,
) -> u32
    ensures lists_after { told result place.new
        (cell_set members.new nodes.new links.new junctions.now heights.now refs.new)
        ≡ told
        (answer_number (renumber_member
        (cell_set members.old nodes.old links.old junctions.now heights.now refs.old) member
        (length scratch.old) places.old).answer)
        (answer_place (renumber_member
        (cell_set members.old nodes.old links.old junctions.now heights.now refs.old) member
        (length scratch.old) places.old).answer)
        (renumber_member (cell_set members.old nodes.old links.old junctions.now heights.now refs.old) member
        (length scratch.old) places.old).lists }
    ensures places_after { places.new
        ≡ (renumber_member (cell_set members.old nodes.old links.old junctions.now heights.now refs.old) member
        (length scratch.old) places.old).places }
    ensures scratch_left { scratch_left
        (renumber_member (cell_set members.old nodes.old links.old junctions.now heights.now refs.old) member
        (length scratch.old) places.old).answer scratch.old scratch.new }
{
    let r = sets::renumber::renumber_member(
        members, nodes, links, junctions, heights, refs, scratch, places, member,
    );
    answer(r, place)
}

// A walk from a member and a place in it, that goes on in the member that a link names. `end` as for `ynd_walk`;
// `visited` gets member and place of each node visited, as many as `count` says.
#[unsafe(no_mangle)]
pub extern "C" fn ynd_set_crossing_walk(
    members: &[[u32; 20]],
    nodes: &[NodeEntry],
    links: &[PathLink],
    member: usize,
    start: usize,
    choices: &[u8],
    visited: &mut [[u32; 2]],
    end: &mut [u32; 3],
    count: &mut usize,
    place: &mut usize,
) -> u32
    ensures by_index { (junctions : List JunctionEntry) (heights : List ℕ) (refs : List NodeJunctionRef) →
        told result place.new (trail end.new count.new)
        ≡ walk_told (cross_member (cell_set members.now nodes.now links.now junctions heights refs) choices.now
        (location member start) visited.old).answer end.old count.old }
    ensures by_index_2 { (junctions : List JunctionEntry) (heights : List ℕ) (refs : List NodeJunctionRef) → visited.new
        ≡ (cross_member (cell_set members.now nodes.now links.now junctions heights refs) choices.now
        (location member start) visited.old).visited }
{
    let r = sets::crossing::crossing_walk(members, nodes, links, member, start, choices, visited);
    tell_walk(r, end, count, place)
}

// Whether the set is sound. The scratch then holds each member's numbers, one member after the other.
#[unsafe(no_mangle)]
pub extern "C" fn ynd_set_sound(
    members: &[[u32; 20]],
    nodes: &[NodeEntry],
    links: &[PathLink],
    refs: &[NodeJunctionRef],
    scratch: &mut [u32],
    sound: &mut bool,
    place: &mut usize,
) -> u32
    ensures by_index { (junctions : List JunctionEntry) (heights : List ℕ) → told result place.new sound.new
        ≡ value_told (set_sound_call (cell_set members.now nodes.now links.now junctions heights refs.now)
        scratch.old).answer sound.old }
    ensures by_index_2 { (junctions : List JunctionEntry) (heights : List ℕ) → scratch.new
        ≡ (set_sound_call (cell_set members.now nodes.now links.now junctions heights refs.now) scratch.old).scratch }
{
    tell(
        sets::soundness::set_sound(members, nodes, links, refs, scratch),
        sound,
        place,
    )
}
