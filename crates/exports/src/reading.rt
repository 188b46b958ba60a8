// Reading and counting.
ghost use Rattle.std.specs.Prelude.{◌≡◌};
ghost use Rattle.cells.specs.Checks.{count_of};
ghost use Rattle.cells.specs.NewYnd.{new_ynd};
ghost use Rattle.cells.specs.Read.{read_of};
ghost use Rattle.exports.specs.Cells.{called, call_of};
ghost use Rattle.exports.specs.Found.{told, told_of, counts_words};
ghost use Rattle.cells.specs.Memory.{memory};

use crate::answers::{tell_as, tell_ynd};
use cells::counts::Counts;
use cells::junction_entry::JunctionEntry;
use cells::link::PathLink;
use cells::node_entry::NodeEntry;
use cells::ynd::Ynd;
use records::junction_ref::NodeJunctionRef;

// A cell that holds nothing.
#[unsafe(no_mangle)]
pub extern "C" fn ynd_new(ynd: &mut Ynd)
    ensures { ynd.new ≡ new_ynd }
{
    *ynd = Ynd::new();
}

// Reads a cell from two sections into the memory lent.
#[unsafe(no_mangle)]
pub extern "C" fn ynd_read<'a>(
    ynd: &mut Ynd,
    system: &'a [u8],
    graphics: &'a [u8],
    nodes: &mut [NodeEntry],
    links: &mut [PathLink],
    junctions: &mut [JunctionEntry],
    heights: &mut [u8],
    refs: &mut [NodeJunctionRef],
    place: &mut usize,
) -> u32
    ensures { called result place.new ynd.new nodes.new links.new junctions.new heights.new refs.new
        ≡ call_of
        (read_of system.now graphics.now
        (memory ynd.old nodes.old links.old junctions.old heights.old refs.old)) }
{
    let r = cells::read::read(
        *ynd, system, graphics, nodes, links, junctions, heights, refs,
    );
    tell_ynd(r, ynd, place)
}

fn counts_words(k: Counts) -> [usize; 5]
    ensures { result ≡ counts_words k }
{
    [k.nodes, k.links, k.junctions, k.heights, k.refs]
}

// How many nodes, links, junctions, heightmap values and refs the file holds.
#[unsafe(no_mangle)]
pub extern "C" fn ynd_count<'a>(
    system: &'a [u8],
    graphics: &'a [u8],
    counts: &mut [usize; 5],
    place: &mut usize,
) -> u32
    ensures { told result place.new counts.new ≡ told_of (count_of system.now graphics.now) counts_words counts.old }
{
    tell_as(
        cells::count::count(system, graphics),
        counts_words,
        counts,
        place,
    )
}
