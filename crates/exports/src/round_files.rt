// Round files, and rounds followed in a cell (T-03).
ghost use Rattle.std.specs.Prelude.{◌≡◌, List, ℕ};
ghost use Rattle.rounds.specs.declared.file.Version.TheVariants.{One};
ghost use Rattle.rounds.specs.Round.{head_bytes, round_read, written};
ghost use Rattle.rounds.specs.Follow.{follow_round};
ghost use Rattle.exports.specs.Found.{told, value_told, trail, walk_told};
ghost use Rattle.exports.specs.RoundTold.{round};
ghost use Rattle.cells.specs.declared.junction_entry.JunctionEntry.{JunctionEntry};
ghost use Rattle.records.specs.declared.junction_ref.NodeJunctionRef.{NodeJunctionRef};
ghost use Rattle.cells.specs.Memory.{memory};

use crate::answers::{answer, tell};
use crate::walking::tell_walk;
use cells::link::PathLink;
use cells::node_entry::NodeEntry;
use cells::ynd::Ynd;

// Reads a round file: `start` gets the start node's number, `choices` the choices, as many as `count` says.
#[unsafe(no_mangle)]
pub extern "C" fn ynd_read_round(
    file: &[u8],
    choices: &mut [u8],
    start: &mut u16,
    count: &mut usize,
    place: &mut usize,
) -> u32
    ensures answer { told result place.new (round start.new count.new)
        ≡ value_told (round_read file.now choices.old).answer (round start.old count.old) }
    ensures choices_after { choices.new ≡ (round_read file.now choices.old).choices }
{
    let r = rounds::file::read_round(file, choices);
    if let Ok(round) = r {
        *start = round.start;
        *count = round.count;
    }
    answer(r, place)
}

// Writes a round file; `length` gets how many bytes were written.
#[unsafe(no_mangle)]
pub extern "C" fn ynd_write_round(
    start: u16,
    choices: &[u8],
    file: &mut [u8],
    length: &mut usize,
    place: &mut usize,
) -> u32
    ensures answer { told result place.new length.new
        ≡ value_told (written (head_bytes One) start choices.now file.old).answer
        length.old }
    ensures file_after { file.new
        ≡ (written (head_bytes One) start choices.now file.old).file }
{
    tell(
        rounds::file::write_round(start, choices, file),
        length,
        place,
    )
}

// Walks a round from the node that has the start number. `end`, `count` and `visited` as for `ynd_walk`.
#[unsafe(no_mangle)]
pub extern "C" fn ynd_follow_round(
    ynd: &Ynd,
    nodes: &[NodeEntry],
    links: &[PathLink],
    start: u16,
    choices: &[u8],
    visited: &mut [u32],
    end: &mut [u32; 3],
    count: &mut usize,
    place: &mut usize,
) -> u32
    ensures answer { (junctions : List JunctionEntry) (heights : List ℕ) (refs : List NodeJunctionRef) →
        told result place.new (trail end.new count.new)
        ≡ walk_told
        (follow_round (memory ynd.now nodes.now links.now junctions heights refs) start
        choices.now visited.old).answer
        end.old count.old }
    ensures visited_after { (junctions : List JunctionEntry) (heights : List ℕ) (refs : List NodeJunctionRef) →
        visited.new
        ≡ (follow_round (memory ynd.now nodes.now links.now junctions heights refs) start
        choices.now visited.old).visited }
{
    let r = rounds::follow::follow_round(*ynd, nodes, links, start, choices, visited);
    tell_walk(r, end, count, place)
}
