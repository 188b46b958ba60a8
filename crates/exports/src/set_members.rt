// Cells that join and leave a set (T-09). A member's entry is twenty words: the cell's fifteen, then the sizes of its
// parts of the five lists.
ghost use Rattle.std.specs.Prelude.{◌≡◌};
ghost use Rattle.sets.specs.CellSet.{cell_set};
ghost use Rattle.sets.specs.Join.{join_cell};
ghost use Rattle.sets.specs.Leave.{leave_area};
ghost use Rattle.exports.specs.Found.{told};
ghost use Rattle.exports.specs.SetTold.{sizes_given, change_told};
ghost use Rattle.cells.specs.Memory.{memory};

use crate::answers::tell;
use cells::counts::Counts;
use cells::junction_entry::JunctionEntry;
use cells::link::PathLink;
use cells::node_entry::NodeEntry;
use cells::ynd::Ynd;
use records::junction_ref::NodeJunctionRef;

fn sizes_of(s: [usize; 5]) -> Counts
    ensures { result ≡ sizes_given s }
{
    let [nodes, links, junctions, heights, refs] = s;
    Counts {
        nodes,
        links,
        junctions,
        heights,
        refs,
    }
}

// A cell joins the set, whose entries are the first `count` of `members`: what it holds is copied behind the others'
// parts, and its own parts get `sizes` entries. `count` then is one more.
#[unsafe(no_mangle)]
pub extern "C" fn ynd_set_join(
    count: &mut usize,
    members: &mut [[u32; 20]],
    nodes: &mut [NodeEntry],
    links: &mut [PathLink],
    junctions: &mut [JunctionEntry],
    heights: &mut [u8],
    refs: &mut [NodeJunctionRef],
    ynd: &Ynd,
    new_nodes: &[NodeEntry],
    new_links: &[PathLink],
    new_junctions: &[JunctionEntry],
    new_heights: &[u8],
    new_refs: &[NodeJunctionRef],
    sizes: &[usize; 5],
    place: &mut usize,
) -> u32
    ensures lists_after { cell_set members.new nodes.new links.new junctions.new heights.new refs.new
        ≡ (join_cell count.old
        (cell_set members.old nodes.old links.old junctions.old heights.old refs.old)
        (memory ynd.now new_nodes.now new_links.now new_junctions.now new_heights.now new_refs.now)
        (sizes_given sizes.now)).lists }
    ensures count_after { told result place.new count.new
        ≡ change_told (join_cell count.old
        (cell_set members.old nodes.old links.old junctions.old heights.old refs.old)
        (memory ynd.now new_nodes.now new_links.now new_junctions.now new_heights.now new_refs.now)
        (sizes_given sizes.now)) count.old }
{
    let s = sizes_of(*sizes);
    let r = sets::join::join(
        *count,
        members,
        nodes,
        links,
        junctions,
        heights,
        refs,
        *ynd,
        new_nodes,
        new_links,
        new_junctions,
        new_heights,
        new_refs,
        s,
    );
    tell(r, count, place)
}

// The member with this area leaves the set, the first joined of several. `members` are the set's entries alone;
// `count` gets how many of them are left.
#[unsafe(no_mangle)]
pub extern "C" fn ynd_set_leave(
    members: &mut [[u32; 20]],
    nodes: &mut [NodeEntry],
    links: &mut [PathLink],
    junctions: &mut [JunctionEntry],
    heights: &mut [u8],
    refs: &mut [NodeJunctionRef],
    area: u16,
    count: &mut usize,
    place: &mut usize,
) -> u32
    ensures lists_after { cell_set members.new nodes.new links.new junctions.new heights.new refs.new
        ≡ (leave_area (cell_set members.old nodes.old links.old junctions.old heights.old refs.old) area).lists }
    ensures count_after { told result place.new count.new
        ≡ change_told (leave_area (cell_set members.old nodes.old links.old junctions.old heights.old refs.old) area)
        count.old }
{
    let r = sets::leave::leave(members, nodes, links, junctions, heights, refs, area);
    tell(r, count, place)
}
