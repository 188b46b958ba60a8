// Writing.
ghost use Rattle.std.specs.Prelude.{◌≡◌};
ghost use Rattle.cells.specs.Write.{write_call};
ghost use Rattle.cells.specs.WriteRead.{write_read_of};
ghost use Rattle.exports.specs.Cells.{called, both_called};
ghost use Rattle.exports.specs.Found.{told, value_told};
ghost use Rattle.cells.specs.Memory.{memory};

use crate::answers::{answer, tell};
use cells::junction_entry::JunctionEntry;
use cells::link::PathLink;
use cells::node_entry::NodeEntry;
use cells::ynd::Ynd;
use records::junction_ref::NodeJunctionRef;

// Writes the cell into the section; `length` gets how many bytes were written.
#[unsafe(no_mangle)]
pub extern "C" fn ynd_write(
    ynd: &Ynd,
    nodes: &[NodeEntry],
    links: &[PathLink],
    junctions: &[JunctionEntry],
    heights: &[u8],
    refs: &[NodeJunctionRef],
    section: &mut [u8],
    length: &mut usize,
    place: &mut usize,
) -> u32
    ensures answer { told result place.new length.new
        ≡ value_told
        (write_call (memory ynd.now nodes.now links.now junctions.now heights.now refs.now) section.old).answer
        length.old }
    ensures section_after { section.new
        ≡ (write_call (memory ynd.now nodes.now links.now junctions.now heights.now refs.now) section.old).section }
{
    let r = cells::write::write(*ynd, nodes, links, junctions, heights, refs, section);
    tell(r, length, place)
}

// Writes the cell into the section, and reads just what it wrote into the cell's own memory.
#[unsafe(no_mangle)]
#[tactic(auto, unfolding(crate::specs::Cells::both_called))]
pub extern "C" fn ynd_write_then_read(
    ynd: &mut Ynd,
    nodes: &mut [NodeEntry],
    links: &mut [PathLink],
    junctions: &mut [JunctionEntry],
    heights: &mut [u8],
    refs: &mut [NodeJunctionRef],
    section: &mut [u8],
    length: &mut usize,
    place: &mut usize,
) -> u32
    ensures lists_after { called result place.new ynd.new nodes.new links.new junctions.new heights.new refs.new
        ≡ both_called
        (write_read_of (memory ynd.old nodes.old links.old junctions.old heights.old refs.old) section.old) }
    ensures answer { told result place.new length.new
        ≡ value_told
        (write_read_of (memory ynd.old nodes.old links.old junctions.old heights.old refs.old) section.old).answer
        length.old }
    ensures section_after { section.new
        ≡ (write_read_of (memory ynd.old nodes.old links.old junctions.old heights.old refs.old) section.old).section }
{
    let r = cells::write_read::write_then_read(
        *ynd, nodes, links, junctions, heights, refs, section,
    );
    if let Ok(w) = r {
        *ynd = w.ynd;
        *length = w.written;
    }
    answer(r, place)
}
