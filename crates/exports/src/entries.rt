// Entries taken out and stored by place.
ghost use Rattle.std.specs.Prelude.{◌≡◌, length};
ghost use Rattle.cells.specs.Edit.{got, got_as, node_entry, link_entry, ref_entry, junction_entry, height_entry};
ghost use Rattle.cells.specs.Edit.{put_node, set_position, put_link, put_ref, put_junction, put_height};
ghost use Rattle.exports.specs.Found.{told, told_of, value_told, stored_told};
ghost use Rattle.cells.specs.EntryForms.{entry_as_node, node_as_entry, entry_as_junction, junction_as_entry};
ghost use Rattle.cells.specs.Nodes.{no_entry, no_link, no_ref, no_map};

use crate::answers::{answer, tell, tell_as};
use cells::junction::PathJunction;
use cells::junction_entry::JunctionEntry;
use cells::link::PathLink;
use cells::node::PathNode;
use cells::node_entry::NodeEntry;
use cells::ynd::Ynd;
use numbers::math::Vec3;
use records::junction_ref::NodeJunctionRef;

#[unsafe(no_mangle)]
pub extern "C" fn ynd_get_node(
    ynd: &Ynd,
    nodes: &[NodeEntry],
    at: usize,
    node: &mut NodeEntry,
    place: &mut usize,
) -> u32
    ensures { told result place.new node.new
        ≡ told_of (got_as entry_as_node no_entry (node_entry ynd.now nodes.now at) nodes.now) node_as_entry node.old }
{
    let r = cells::get::get_node(*ynd, nodes, at);
    tell_as(r, NodeEntry::from, node, place)
}

// Link k of the node at a place.
#[unsafe(no_mangle)]
pub extern "C" fn ynd_get_link(
    ynd: &Ynd,
    nodes: &[NodeEntry],
    links: &[PathLink],
    at: usize,
    k: usize,
    link: &mut PathLink,
    place: &mut usize,
) -> u32
    ensures { told result place.new link.new
        ≡ value_told (got no_link (link_entry ynd.now nodes.now (length links.now)
        at k) links.now) link.old }
{
    let r = cells::get::get_link(*ynd, nodes, links, at, k);
    tell(r, link, place)
}

// The ref at a place: area, number, junction, unk0.
#[unsafe(no_mangle)]
pub extern "C" fn ynd_get_ref(
    ynd: &Ynd,
    refs: &[NodeJunctionRef],
    at: usize,
    taken: &mut NodeJunctionRef,
    place: &mut usize,
) -> u32
    ensures { told result place.new taken.new
        ≡ value_told (got no_ref (ref_entry ynd.now refs.now at) refs.now) taken.old }
{
    let r = cells::get::get_ref(*ynd, refs, at);
    tell(r, taken, place)
}

#[unsafe(no_mangle)]
pub extern "C" fn ynd_get_junction(
    ynd: &Ynd,
    junctions: &[JunctionEntry],
    at: usize,
    junction: &mut JunctionEntry,
    place: &mut usize,
) -> u32
    ensures { told result place.new junction.new
        ≡ told_of (got_as entry_as_junction no_map (junction_entry ynd.now junctions.now at)
        junctions.now) junction_as_entry junction.old }
{
    let r = cells::get::get_junction(*ynd, junctions, at);
    tell_as(r, JunctionEntry::from, junction, place)
}

// Value k of the junction at a place.
#[unsafe(no_mangle)]
pub extern "C" fn ynd_get_height(
    ynd: &Ynd,
    junctions: &[JunctionEntry],
    heights: &[u8],
    at: usize,
    k: usize,
    value: &mut u8,
    place: &mut usize,
) -> u32
    ensures { told result place.new value.new
        ≡ value_told (got 0 (height_entry ynd.now junctions.now
        (length heights.now) at k) heights.now) value.old }
{
    let r = cells::get::get_height(*ynd, junctions, heights, at, k);
    tell(r, value, place)
}

// Stores every field but where the node's links are.
#[unsafe(no_mangle)]
pub extern "C" fn ynd_put_node(
    ynd: &Ynd,
    nodes: &mut [NodeEntry],
    at: usize,
    node: &NodeEntry,
    place: &mut usize,
) -> u32
    ensures { told result place.new nodes.new
        ≡ stored_told (put_node ynd.now nodes.old at (entry_as_node node.now)) }
{
    let r = cells::put::put_node(*ynd, nodes, at, PathNode::from(*node));
    answer(r, place)
}

// The position is stored in whole steps.
#[unsafe(no_mangle)]
pub extern "C" fn ynd_set_position(
    ynd: &Ynd,
    nodes: &mut [NodeEntry],
    at: usize,
    x: f32,
    y: f32,
    z: f32,
    place: &mut usize,
) -> u32
    ensures { told result place.new nodes.new
        ≡ stored_told (set_position ynd.now nodes.old at
        (record { x = x; y = y; z = z })) }
{
    let r = cells::put::set_position(*ynd, nodes, at, Vec3 { x, y, z });
    answer(r, place)
}

// Link k of the node at a place.
#[unsafe(no_mangle)]
pub extern "C" fn ynd_put_link(
    ynd: &Ynd,
    nodes: &[NodeEntry],
    links: &mut [PathLink],
    at: usize,
    k: usize,
    link: &PathLink,
    place: &mut usize,
) -> u32
    ensures { told result place.new links.new
        ≡ stored_told (put_link ynd.now nodes.now links.old at k
        link.now) }
{
    let r = cells::put::put_link(*ynd, nodes, links, at, k, *link);
    answer(r, place)
}

#[unsafe(no_mangle)]
pub extern "C" fn ynd_put_ref(
    ynd: &Ynd,
    refs: &mut [NodeJunctionRef],
    at: usize,
    put: &NodeJunctionRef,
    place: &mut usize,
) -> u32
    ensures { told result place.new refs.new
        ≡ stored_told (put_ref ynd.now refs.old at put.now) }
{
    let r = cells::put::put_ref(*ynd, refs, at, *put);
    answer(r, place)
}

// Stores every field but where the heightmap starts. It keeps as many values.
#[unsafe(no_mangle)]
pub extern "C" fn ynd_put_junction(
    ynd: &Ynd,
    junctions: &mut [JunctionEntry],
    at: usize,
    junction: &JunctionEntry,
    place: &mut usize,
) -> u32
    ensures { told result place.new junctions.new
        ≡ stored_told (put_junction ynd.now junctions.old at
        (entry_as_junction junction.now)) }
{
    let r = cells::put::put_junction(*ynd, junctions, at, PathJunction::from(*junction));
    answer(r, place)
}

// Value k of the junction at a place.
#[unsafe(no_mangle)]
pub extern "C" fn ynd_put_height(
    ynd: &Ynd,
    junctions: &[JunctionEntry],
    heights: &mut [u8],
    at: usize,
    k: usize,
    value: u8,
    place: &mut usize,
) -> u32
    ensures { told result place.new heights.new
        ≡ stored_told (put_height ynd.now junctions.now heights.old at k
        value) }
{
    let r = cells::put::put_height(*ynd, junctions, heights, at, k, value);
    answer(r, place)
}
