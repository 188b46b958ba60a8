// Sound cells and walks.
ghost use Rattle.std.specs.Prelude.{◌≡◌, List, ℕ};
ghost use Rattle.walks.specs.WalkCall.{walk_call};
ghost use Rattle.walks.specs.SoundCall.{sound_call};
ghost use Rattle.exports.specs.Found.{told, end_words, trail, walk_told, value_told};
ghost use Rattle.cells.specs.declared.junction_entry.JunctionEntry.{JunctionEntry};
ghost use Rattle.records.specs.declared.junction_ref.NodeJunctionRef.{NodeJunctionRef};
ghost use Rattle.cells.specs.Memory.{memory};

use crate::answers::{answer, tell};
use cells::link::PathLink;
use cells::node_entry::NodeEntry;
use cells::ynd::Ynd;
use numbers::refusal::Refusal;
use records::junction_ref::NodeJunctionRef;
use walks::walk::{End, Walked};

fn end_words(e: End) -> [u32; 3]
    ensures { result ≡ end_words e }
{
    match e {
        End::Done => [0, 0, 0],
        End::NoLink => [1, 0, 0],
        End::Left(area, number) => [2, area as u32, number as u32],
        End::NoNode => [3, 0, 0],
    }
}

// How a walk ended and how many places it visited.
pub(crate) fn tell_walk(
    r: Result<Walked, Refusal>,
    end: &mut [u32; 3],
    count: &mut usize,
    place: &mut usize,
) -> u32
    ensures { told result place.new (trail end.new count.new) ≡ walk_told r end.old count.old }
{
    if let Ok(w) = r {
        *end = end_words(w.end);
        *count = w.count;
    }
    answer(r, place)
}

// A walk from a place, by a byte a choice. `end` gets 0 for done, 1 no-link, 2 left, 3 no-node, and for left the area
// and the number that the link names; `visited` the places, as many as `count` says.
#[unsafe(no_mangle)]
pub extern "C" fn ynd_walk(
    ynd: &Ynd,
    nodes: &[NodeEntry],
    links: &[PathLink],
    start: usize,
    choices: &[u8],
    visited: &mut [u32],
    end: &mut [u32; 3],
    count: &mut usize,
    place: &mut usize,
) -> u32
    ensures answer { (junctions : List JunctionEntry) (heights : List ℕ) (refs : List NodeJunctionRef) →
        told result place.new (trail end.new count.new)
        ≡ walk_told
        (walk_call (memory ynd.now nodes.now links.now junctions heights refs) choices.now start visited.old).answer
        end.old count.old }
    ensures visited_after { (junctions : List JunctionEntry) (heights : List ℕ) (refs : List NodeJunctionRef)
        → visited.new
        ≡ (walk_call (memory ynd.now nodes.now links.now junctions heights refs) choices.now start
        visited.old).visited }
{
    let r = walks::walk::walk(*ynd, nodes, links, start, choices, visited);
    tell_walk(r, end, count, place)
}

// Whether the cell is sound. The scratch then holds each number's last place.
#[unsafe(no_mangle)]
pub extern "C" fn ynd_sound(
    ynd: &Ynd,
    nodes: &[NodeEntry],
    links: &[PathLink],
    refs: &[NodeJunctionRef],
    scratch: &mut [u32],
    sound: &mut bool,
    place: &mut usize,
) -> u32
    ensures answer { (junctions : List JunctionEntry) (heights : List ℕ) → told result place.new sound.new
        ≡ value_told
        (sound_call (memory ynd.now nodes.now links.now junctions heights refs.now) scratch.old).answer sound.old }
    ensures scratch_after { (junctions : List JunctionEntry) (heights : List ℕ) → scratch.new
        ≡ (sound_call (memory ynd.now nodes.now links.now junctions heights refs.now) scratch.old).scratch }
{
    let r = walks::sound::sound(*ynd, nodes, links, refs, scratch);
    tell(r, sound, place)
}
