// Edits of the nodes of a set's member (T-09). Each holds for all lists that a call isn't lent and that hold the
// members' parts: they stay as they are.
ghost use Rattle.std.specs.Prelude.{◌≡◌};
ghost use Rattle.cells.specs.Edit.{put_node, set_position};
ghost use Rattle.sets.specs.CellSet.{cell_set};
ghost use Rattle.sets.specs.Lent.{Unlent};
ghost use Rattle.sets.specs.MemberEdit.{add_node_member, edit_member};
ghost use Rattle.cells.specs.Edit.{nodes_left};
ghost use Rattle.exports.specs.Found.{told};
ghost use Rattle.exports.specs.SetTold.{edit_told};
ghost use Rattle.cells.specs.EntryForms.{entry_as_node};

use crate::answers::answer;
use cells::node::PathNode;
use cells::node_entry::NodeEntry;
use numbers::math::Vec3;

// A node without links behind all others of the member; its number is its place.
#[unsafe(no_mangle)]
pub extern "C" fn ynd_member_add_node(
    members: &mut [[u32; 20]],
    nodes: &mut [NodeEntry],
    member: usize,
    area_id: u16,
    x: f32,
    y: f32,
    z: f32,
    place: &mut usize,
) -> u32
    ensures { (u : Unlent members.old)
        → told result place.new (cell_set members.new nodes.new u.links u.junctions u.heights u.refs)
        ≡ edit_told (add_node_member (cell_set members.old nodes.old u.links u.junctions u.heights u.refs) member
        area_id (record { x = x; y = y; z = z })) }
{
    let r = sets::edit_nodes::add_node_member(members, nodes, member, area_id, Vec3 { x, y, z });
    answer(r, place)
}

// Stores every field but where the node's links are.
#[unsafe(no_mangle)]
pub extern "C" fn ynd_member_put_node(
    members: &[[u32; 20]],
    nodes: &mut [NodeEntry],
    member: usize,
    at: usize,
    node: &NodeEntry,
    place: &mut usize,
) -> u32
    ensures { (u : Unlent members.now)
        → told result place.new (cell_set members.now nodes.new u.links u.junctions u.heights u.refs)
        ≡ edit_told (edit_member (cell_set members.now nodes.old u.links u.junctions u.heights u.refs) member
        (λ m. nodes_left m (put_node m.ynd m.nodes at (entry_as_node node.now)))) }
{
    let r = sets::edit_nodes::put_node_member(members, nodes, member, at, PathNode::from(*node));
    answer(r, place)
}

// The position is stored in whole steps.
#[unsafe(no_mangle)]
pub extern "C" fn ynd_member_set_position(
    members: &[[u32; 20]],
    nodes: &mut [NodeEntry],
    member: usize,
    at: usize,
    x: f32,
    y: f32,
    z: f32,
    place: &mut usize,
) -> u32
    ensures { (u : Unlent members.now)
        → told result place.new (cell_set members.now nodes.new u.links u.junctions u.heights u.refs)
        ≡ edit_told (edit_member (cell_set members.now nodes.old u.links u.junctions u.heights u.refs) member
        (λ m. nodes_left m (set_position m.ynd m.nodes at (record { x = x; y = y; z = z })))) }
{
    let r = sets::edit_nodes::set_position_member(members, nodes, member, at, Vec3 { x, y, z });
    answer(r, place)
}
