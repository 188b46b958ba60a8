// The library's calls as a caller has them: each function is one call, its contract the call's own definition. The
// edits of must-fail/ put a worthless body under the unchanged contract (document 01, "Contracts and their sham
// rivals").
#![tactic(auto)]

ghost use Rattle.std.specs.Prelude.{◌≡◌, length};
ghost use Rattle.cells.specs.Memory.{memory, left};
ghost use Rattle.cells.specs.Read.{read_of};
ghost use Rattle.cells.specs.Renumber.{renumbered_by, renumber};
ghost use Rattle.cells.specs.Write.{left as writeLeft, write_call};

use cells::junction_entry::JunctionEntry;
use cells::link::PathLink;
use cells::node_entry::NodeEntry;
use cells::ynd::Ynd;
use numbers::refusal::Refusal;
use records::junction_ref::NodeJunctionRef;

pub mod areas;
pub mod controls;
pub mod starts;
pub mod unused;

// Reading.
pub fn reads<'a>(
    ynd: Ynd,
    system: &'a [u8],
    graphics: &'a [u8],
    nodes: &mut [NodeEntry],
    links: &mut [PathLink],
    junctions: &mut [JunctionEntry],
    heights: &mut [u8],
    refs: &mut [NodeJunctionRef],
) -> Result<Ynd, Refusal>
    ensures { left ynd result nodes.new links.new junctions.new heights.new
        refs.new
        ≡ read_of system.now graphics.now
        (memory ynd nodes.old links.old junctions.old heights.old
        refs.old) }
{
    cells::read::read(
        ynd, system, graphics, nodes, links, junctions, heights, refs,
    )
}

// Renumbering.
pub fn renumbers(
    ynd: Ynd,
    nodes: &mut [NodeEntry],
    links: &mut [PathLink],
    junctions: &[JunctionEntry],
    heights: &[u8],
    refs: &mut [NodeJunctionRef],
    scratch: &mut [u32],
    places: &mut [u32],
) -> Result<Ynd, Refusal>
    ensures { renumbered_by ynd result nodes.new links.new junctions.now
        heights.now refs.new places.new
        ≡ renumber
        (memory ynd nodes.old links.old junctions.now heights.now
        refs.old)
        (length scratch.old) places.old }
{
    cells::renumber::recalculate_node_indices(
        ynd, nodes, links, junctions, heights, refs, scratch, places,
    )
}

// Writing.
pub fn writes(
    ynd: Ynd,
    nodes: &[NodeEntry],
    links: &[PathLink],
    junctions: &[JunctionEntry],
    heights: &[u8],
    refs: &[NodeJunctionRef],
    section: &mut [u8],
) -> Result<usize, Refusal>
    ensures { writeLeft result section.new
        ≡ write_call
        (memory ynd nodes.now links.now junctions.now heights.now
        refs.now)
        section.old }
{
    cells::write::write(ynd, nodes, links, junctions, heights, refs, section)
}
