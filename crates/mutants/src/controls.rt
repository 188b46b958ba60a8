// Right bodies, written differently, under the contracts of the calls: they are accepted as they stand, with no proof
// file either. So what refuses an edit of must-fail/ is what it does, not how it is written.
ghost use Rattle.std.specs.Prelude.{◌≡◌, length};
ghost use Rattle.cells.specs.Memory.{memory, left};
ghost use Rattle.cells.specs.Read.{read_of};
ghost use Rattle.cells.specs.Renumber.{renumbered_by, renumber};
ghost use Rattle.cells.specs.Write.{left as writeLeft, write_call};

use cells::junction_entry::JunctionEntry;
use cells::link::PathLink;
use cells::node_entry::NodeEntry;
use cells::ynd::Ynd;
use numbers::refusal::Refusal;
use records::junction_ref::NodeJunctionRef;

// Writing, its answer held in a local first.
pub fn writes_then_answers(
    ynd: Ynd,
    nodes: &[NodeEntry],
    links: &[PathLink],
    junctions: &[JunctionEntry],
    heights: &[u8],
    refs: &[NodeJunctionRef],
    section: &mut [u8],
) -> Result<usize, Refusal>
    ensures { writeLeft result section.new
        ≡ write_call
        (memory ynd nodes.now links.now junctions.now heights.now
        refs.now)
        section.old }
{
    let w = cells::write::write(ynd, nodes, links, junctions, heights, refs, section);
    w
}

// Renumbering behind the very test that the worthless body of renumbers_nothing makes: both arms do the work.
pub fn renumbers_in_two_arms(
    ynd: Ynd,
    nodes: &mut [NodeEntry],
    links: &mut [PathLink],
    junctions: &[JunctionEntry],
    heights: &[u8],
    refs: &mut [NodeJunctionRef],
    scratch: &mut [u32],
    places: &mut [u32],
) -> Result<Ynd, Refusal>
    ensures { renumbered_by ynd result nodes.new links.new junctions.now
        heights.now refs.new places.new
        ≡ renumber
        (memory ynd nodes.old links.old junctions.now heights.now
        refs.old)
        (length scratch.old) places.old }
{
    if 65536 <= scratch.len() {
        return cells::renumber::recalculate_node_indices(
            ynd, nodes, links, junctions, heights, refs, scratch, places,
        );
    }
    cells::renumber::recalculate_node_indices(
        ynd, nodes, links, junctions, heights, refs, scratch, places,
    )
}

// Reading behind the very tests that the worthless bodies of refuses_no_bytes and zero_words_for_no_bytes make.
pub fn reads_in_two_arms<'a>(
    ynd: Ynd,
    system: &'a [u8],
    graphics: &'a [u8],
    nodes: &mut [NodeEntry],
    links: &mut [PathLink],
    junctions: &mut [JunctionEntry],
    heights: &mut [u8],
    refs: &mut [NodeJunctionRef],
) -> Result<Ynd, Refusal>
    ensures { left ynd result nodes.new links.new junctions.new heights.new
        refs.new
        ≡ read_of system.now graphics.now
        (memory ynd nodes.old links.old junctions.old heights.old
        refs.old) }
{
    if system.len() == 0 {
        if graphics.len() <= 16777216 {
            return cells::read::read(
                ynd, system, graphics, nodes, links, junctions, heights, refs,
            );
        }
    }
    cells::read::read(
        ynd, system, graphics, nodes, links, junctions, heights, refs,
    )
}
