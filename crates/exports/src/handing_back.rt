// A cell handed back before it leaves its set (T-09).
ghost use Rattle.std.specs.Prelude.{◌≡◌};
ghost use Rattle.sets.specs.CellSet.{cell_set};
ghost use Rattle.sets.specs.HandBack.{hand_back};
ghost use Rattle.exports.specs.Cells.{called, call_of};
ghost use Rattle.cells.specs.Memory.{memory};

use crate::answers::tell_ynd;
use cells::junction_entry::JunctionEntry;
use cells::link::PathLink;
use cells::node_entry::NodeEntry;
use cells::ynd::Ynd;
use records::junction_ref::NodeJunctionRef;

// The cell that `ynd_set_leave` would take out of the set, copied into the caller's lists. The set stays as it is.
#[unsafe(no_mangle)]
pub extern "C" fn ynd_set_hand_back(
    members: &[[u32; 20]],
    nodes: &[NodeEntry],
    links: &[PathLink],
    junctions: &[JunctionEntry],
    heights: &[u8],
    refs: &[NodeJunctionRef],
    area: u16,
    ynd: &mut Ynd,
    to_nodes: &mut [NodeEntry],
    to_links: &mut [PathLink],
    to_junctions: &mut [JunctionEntry],
    to_heights: &mut [u8],
    to_refs: &mut [NodeJunctionRef],
    place: &mut usize,
) -> u32
    ensures { called result place.new ynd.new to_nodes.new to_links.new to_junctions.new to_heights.new to_refs.new
        ≡ call_of
        (hand_back (cell_set members.now nodes.now links.now junctions.now heights.now refs.now) area
        (memory ynd.old to_nodes.old to_links.old to_junctions.old to_heights.old to_refs.old)) }
{
    let r = sets::hand_back::hand_back(
        members,
        nodes,
        links,
        junctions,
        heights,
        refs,
        area,
        *ynd,
        to_nodes,
        to_links,
        to_junctions,
        to_heights,
        to_refs,
    );
    tell_ynd(r, ynd, place)
}
