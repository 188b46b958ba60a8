// Write-then-read: the cell written, and the bytes just written read into the cell's own memory.
ghost use Rattle.std.specs.Prelude.{◌≡◌, ◌≤◌, IfOk};
ghost use Rattle.cells.specs.Memory.{memory};
ghost use Rattle.cells.specs.Held.{memory_of};
ghost use Rattle.cells.specs.WriteCounts.{Counted, SizedIfCounted};
ghost use Rattle.cells.specs.BackAnswer.{back_answer};
ghost use Rattle.cells.specs.WriteRead.{both, write_read_of};

use crate::arrays::find_arrays;
use crate::counts::{Counts, lengths};
use crate::held::Held;
use crate::junction_entry::JunctionEntry;
use crate::link::PathLink;
use crate::node_entry::NodeEntry;
use crate::read::fill_lists;
use crate::room::check_lent;
use crate::root::read_root;
use crate::write::{places_for, store};
use crate::write_checks::write_counts;
use crate::ynd::Ynd;
use numbers::refusal::{Lent, Refusal};
use records::junction_ref::NodeJunctionRef;

// How many bytes were written, and the cell as read back.
#[derive(Clone, Copy)]
pub struct WroteRead {
    pub written: usize,
    pub ynd: Ynd,
}

// Whether the cell can be written, and read back into lists of so many. If so, how much there is of it.
#[tactic(auto, using(crate::proofs::Rules::back_laws), unfolding(crate::specs::BackAnswer::back_answer))]
fn check_back(h: Held, lent: Counts, section: usize) -> Result<Counts, Refusal>
    ensures value { result ≡ back_answer (memory_of h.entry) lent section }
    ensures ready { IfOk result (λ k. Counted (memory_of h.entry) k) }
    ensures sized { SizedIfCounted (memory_of h.entry) }
    ensures room { IfOk result (λ k. (k.nodes ≤ lent.nodes) × (k.links ≤ lent.links)
        × (k.junctions ≤ lent.junctions) × (k.heights ≤ lent.heights) × (k.refs ≤ lent.refs)) }
{
    let k = write_counts(h)?;
    check_lent(h.ynd, lent)?;
    if section < places_for(k).total {
        return Err(Refusal::TooShort(Lent::Section));
    }
    lent.hold(k)?;
    Ok(k)
}

// Writes the cell, and reads just what it wrote. A refusal of either leaves all as it was. What was counted is known
// to stand in the section, so no range is looked at again.
#[tactic(auto, using(crate::proofs::WritingBack::BackAnswer::refused_back))]
pub fn write_then_read(
    ynd: Ynd,
    nodes: &mut [NodeEntry],
    links: &mut [PathLink],
    junctions: &mut [JunctionEntry],
    heights: &mut [u8],
    refs: &mut [NodeJunctionRef],
    section: &mut [u8],
) -> Result<WroteRead, Refusal>
    ensures { both ynd result nodes.new links.new junctions.new heights.new refs.new section.new
        ≡ write_read_of (memory ynd nodes.old links.old junctions.old heights.old refs.old) section.old }
{
    let lent = lengths(nodes, links, junctions, heights, refs);
    let h = Held::new(ynd, nodes, links, junctions, heights, refs);
    let k = check_back(h, lent, section.len())?;
    let written = store(h, k, section)?;
    let wrote = &section[..written];
    let root = read_root(wrote);
    let f = find_arrays(root, written, 0)?.bytes(wrote, &[]);
    let ynd = fill_lists(root, f, k, nodes, links, junctions, heights, refs);
    Ok(WroteRead { written, ynd })
}
