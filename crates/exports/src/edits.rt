// Entries added.
ghost use Rattle.std.specs.Prelude.{◌≡◌, List, ℕ};
ghost use Rattle.cells.specs.Add.{add_node, add_ref, add_junction};
ghost use Rattle.cells.specs.AddLink.{add_link};
ghost use Rattle.exports.specs.Cells.{called, call_of};
ghost use Rattle.cells.specs.declared.node_entry.NodeEntry.{NodeEntry};
ghost use Rattle.cells.specs.declared.link.PathLink.{PathLink};
ghost use Rattle.cells.specs.declared.junction_entry.JunctionEntry.{JunctionEntry};
ghost use Rattle.records.specs.declared.junction_ref.NodeJunctionRef.{NodeJunctionRef};
ghost use Rattle.cells.specs.EntryForms.{entry_as_junction};
ghost use Rattle.cells.specs.Memory.{memory};

use crate::answers::tell_ynd;
use cells::junction::PathJunction;
use cells::junction_entry::JunctionEntry;
use cells::link::PathLink;
use cells::node_entry::NodeEntry;
use cells::ynd::Ynd;
use numbers::math::Vec3;
use records::junction_ref::NodeJunctionRef;

// A node without links behind all others; its number is its place.
#[unsafe(no_mangle)]
pub extern "C" fn ynd_add_node(
    ynd: &mut Ynd,
    nodes: &mut [NodeEntry],
    area_id: u16,
    x: f32,
    y: f32,
    z: f32,
    place: &mut usize,
) -> u32
    ensures { (links : List PathLink) (junctions : List JunctionEntry) (refs : List NodeJunctionRef)
        (heights : List ℕ) →
        called result place.new ynd.new nodes.new links junctions heights refs
        ≡ call_of
        (add_node (memory ynd.old nodes.old links junctions heights refs) area_id
        (record { x = x; y = y; z = z })) }
{
    let r = cells::add_node::add_node(*ynd, nodes, area_id, Vec3 { x, y, z });
    tell_ynd(r, ynd, place)
}

// A link behind those of the node at a place.
#[unsafe(no_mangle)]
pub extern "C" fn ynd_add_link(
    ynd: &mut Ynd,
    nodes: &mut [NodeEntry],
    links: &mut [PathLink],
    at: usize,
    link: &PathLink,
    place: &mut usize,
) -> u32
    ensures { (junctions : List JunctionEntry) (refs : List NodeJunctionRef) (heights : List ℕ) →
        called result place.new ynd.new nodes.new links.new junctions heights refs
        ≡ call_of
        (add_link (memory ynd.old nodes.old links.old junctions heights refs) at
        link.now) }
{
    let r = cells::add_link::add_link(*ynd, nodes, links, at, *link);
    tell_ynd(r, ynd, place)
}

// A ref behind all others. (`added` is the ref: area, number, junction, unk0.)
#[unsafe(no_mangle)]
pub extern "C" fn ynd_add_ref(
    ynd: &mut Ynd,
    refs: &mut [NodeJunctionRef],
    added: &NodeJunctionRef,
    place: &mut usize,
) -> u32
    ensures { (nodes : List NodeEntry) (links : List PathLink) (junctions : List JunctionEntry) (heights : List ℕ) →
        called result place.new ynd.new nodes links junctions heights refs.new
        ≡ call_of
        (add_ref (memory ynd.old nodes links junctions heights refs.old)
        added.now) }
{
    let r = cells::add_ref::add_ref(*ynd, refs, *added);
    tell_ynd(r, ynd, place)
}

// A junction behind all others, its values behind all others.
#[unsafe(no_mangle)]
pub extern "C" fn ynd_add_junction(
    ynd: &mut Ynd,
    junctions: &mut [JunctionEntry],
    heights: &mut [u8],
    junction: &JunctionEntry,
    values: &[u8],
    place: &mut usize,
) -> u32
    ensures { (nodes : List NodeEntry) (links : List PathLink) (refs : List NodeJunctionRef) →
        called result place.new ynd.new nodes links junctions.new heights.new refs
        ≡ call_of
        (add_junction (memory ynd.old nodes links junctions.old heights.old refs)
        (entry_as_junction junction.now) values.now) }
{
    let r = cells::add_junction::add_junction(
        *ynd,
        junctions,
        heights,
        PathJunction::from(*junction),
        values,
    );
    tell_ynd(r, ynd, place)
}
