// Renumbering.
ghost use Rattle.std.specs.Prelude.{◌≡◌, length};
ghost use Rattle.cells.specs.Renumber.{renumber, scratch_left};
ghost use Rattle.exports.specs.Cells.{called, renumbered_of};
ghost use Rattle.cells.specs.Memory.{memory};

use crate::answers::tell_ynd;
use cells::junction_entry::JunctionEntry;
use cells::link::PathLink;
use cells::node_entry::NodeEntry;
use cells::ynd::Ynd;
use records::junction_ref::NodeJunctionRef;

// `recalculate_node_indices`. `places` gets each node's new place; the scratch holds anything after an accepted call.
#[unsafe(no_mangle)]
#[tactic(auto, unfolding(crate::specs::Cells::renumbered_of))]
pub extern "C" fn ynd_renumber(
    ynd: &mut Ynd,
    nodes: &mut [NodeEntry],
    links: &mut [PathLink],
    junctions: &[JunctionEntry],
    heights: &[u8],
    refs: &mut [NodeJunctionRef],
    scratch: &mut [u32],
    places: &mut [u32],
    place: &mut usize,
) -> u32
    ensures lists_after { called result place.new ynd.new nodes.new links.new junctions.now heights.now refs.new
        ≡ renumbered_of
        (renumber (memory ynd.old nodes.old links.old junctions.now heights.now refs.old)
        (length scratch.old) places.old) }
    ensures places_after { places.new
        ≡ (renumber (memory ynd.old nodes.old links.old junctions.now heights.now refs.old)
        (length scratch.old) places.old).places }
    ensures scratch_left { scratch_left
        (renumber (memory ynd.old nodes.old links.old junctions.now heights.now refs.old)
        (length scratch.old) places.old).answer scratch.old scratch.new }
{
    let r = cells::renumber::recalculate_node_indices(
        *ynd, nodes, links, junctions, heights, refs, scratch, places,
    );
    tell_ynd(r, ynd, place)
}
