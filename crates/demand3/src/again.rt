// A walk in a cell as it is read, and the same walk after a renumbering and a write-then-read.
ghost use Rattle.std.specs.Prelude.{◌≡◌, ℕ, length};
ghost use Rattle.numbers.specs.Refusals.{answered};
ghost use Rattle.cells.specs.Memory.{memory};
ghost use Rattle.cells.specs.Read.{read_of};
ghost use Rattle.walks.specs.Calls.{moved};
ghost use Rattle.demand3.specs.Again.{again_left, place_after};
ghost use Rattle.demand3.specs.Again.{walk_again, scratch_after, calls, SameWalks, SameShown};
ghost use Rattle.cells.specs.CellOf.{cell_of};
ghost use Rattle.cells.specs.FileCell.{file_cell};

use cells::junction_entry::JunctionEntry;
use cells::link::PathLink;
use cells::node_entry::NodeEntry;
use cells::read::read;
use cells::renumber::recalculate_node_indices;
use cells::write_read::write_then_read;
use cells::ynd::Ynd;
use numbers::refusal::Refusal;
use records::junction_ref::NodeJunctionRef;
use walks::sound::sound;
use walks::walk::{Walked, walk};

// What the two walks answer. Or reading was refused, and all is as it was; or the cell was read, and then its check
// was refused (the scratch is too short), it is not sound, or no node is at the start.
#[derive(Clone, Copy)]
pub enum Walks {
    Both(Result<Walked, Refusal>, Result<Walked, Refusal>),
    NoStart,
    Unsound,
    NotChecked(Refusal),
    Refused(Refusal),
}

// With the cell after the calls.
#[derive(Clone, Copy)]
pub struct Again {
    pub walks: Walks,
    pub ynd: Ynd,
}

// Where the node at a place stands after a renumbering.
fn place_after(renumbered: Result<Ynd, Refusal>, places: &[u32], p: usize) -> usize
    ensures { result ≡ place_after (answered renumbered) places.now p }
{
    match renumbered {
        Ok(_) => places.get(p).copied().unwrap_or(0) as usize,
        Err(_) => p,
    }
}

// Reads a cell; if it is sound, walks, renumbers it, writes and reads it again, and walks again from where the start
// then stands. The second walk shows what the first did. Lent visited lists of equal length, both walks answer the
// same,
// and the places of the second are those of the first, each moved on. Only `Refused` leaves everything as it was:
// behind it nothing has been stored.
#[tactic(auto, using(numbers::proofs::Refusing::tested), unfolding(crate::specs::Again::walk_again, crate::specs::Again::sound_walks))]
pub fn walk_again<'a>(
    ynd: Ynd,
    system: &'a [u8],
    graphics: &'a [u8],
    nodes: &mut [NodeEntry],
    links: &mut [PathLink],
    junctions: &mut [JunctionEntry],
    heights: &mut [u8],
    refs: &mut [NodeJunctionRef],
    scratch: &mut [u32],
    places: &mut [u32],
    section: &mut [u8],
    start: usize,
    choices: &[u8],
    visited: &mut [u32],
    later: &mut [u32],
) -> Again
    ensures later_after { again_left result nodes.new links.new junctions.new
        heights.new refs.new
        places.new section.new visited.new later.new
        ≡ walk_again system.now graphics.now
        (memory ynd nodes.old links.old junctions.old heights.old
        refs.old)
        scratch.old places.old section.old choices.now start
        visited.old later.old }
    ensures same_walks { length later.old ≡ length visited.old → SameWalks
        (moved (read_of system.now graphics.now
        (memory ynd nodes.old links.old junctions.old heights.old
        refs.old)).memory
        (calls scratch.old places.old section.old))
        result.walks visited.new later.new }
    ensures same_shown { SameShown
        (moved (read_of system.now graphics.now
        (memory ynd nodes.old links.old junctions.old heights.old
        refs.old)).memory
        (calls scratch.old places.old section.old))
        (file_cell system.now graphics.now)
        (cell_of (memory result.ynd nodes.new links.new junctions.new
        heights.new refs.new))
        choices.now start result.walks }
    ensures scratch_after { scratch_after result.walks (read_of system.now graphics.now
        (memory ynd nodes.old links.old junctions.old heights.old
        refs.old)).memory
        places.old scratch.old scratch.new }
{
    let ynd = match read(
        ynd, system, graphics, nodes, links, junctions, heights, refs,
    ) {
        Ok(next) => next,
        Err(cause) => {
            let walks = Walks::Refused(cause);
            return Again { walks, ynd };
        }
    };
    match sound(ynd, nodes, links, refs, scratch) {
        Ok(true) => {}
        Ok(false) => {
            let walks = Walks::Unsound;
            return Again { walks, ynd };
        }
        Err(cause) => {
            let walks = Walks::NotChecked(cause);
            return Again { walks, ynd };
        }
    }
    if ynd.node_count as usize <= start {
        let walks = Walks::NoStart;
        return Again { walks, ynd };
    }
    let before = walk(ynd, nodes, links, start, choices, visited);
    let r = recalculate_node_indices(ynd, nodes, links, junctions, heights, refs, scratch, places);
    let ynd = r.unwrap_or(ynd);
    let w = write_then_read(ynd, nodes, links, junctions, heights, refs, section);
    let ynd = w.map_or(ynd, |w| w.ynd);
    let at = place_after(r, places, start);
    let after = walk(ynd, nodes, links, at, choices, later);
    let walks = Walks::Both(before, after);
    Again { walks, ynd }
}
