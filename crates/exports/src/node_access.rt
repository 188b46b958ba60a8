// The fields of a node's flags.
ghost use Rattle.std.specs.Prelude.{◌≡◌, ◌*◌, ◌/◌};
ghost use Rattle.cells.specs.Access.{field_of, with_field, has_bit, with_bit};
ghost use Rattle.cells.specs.NodeAccess.{new_node, with_position, with_flags0, with_flags1, with_flags2, with_flags3};
ghost use Rattle.cells.specs.NodeAccess.{with_flags4, with_flags5, disabled};
ghost use Rattle.cells.specs.Special.{special_of, special_value, is_ped_special, speed_of, speed_value};
ghost use Rattle.numbers.specs.Positions.{quantised, dequantised};
ghost use Rattle.cells.specs.EntryForms.{entry_as_node, node_as_entry};
ghost use Rattle.cells.specs.Nodes.{ped_kind};

use cells::node::PathNode;
use cells::node_entry::NodeEntry;
use cells::special::{NodeSpecial, NodeSpeed};
use numbers::math::Vec3;

#[unsafe(no_mangle)]
pub extern "C" fn ynd_node_off_road(node: &NodeEntry) -> bool
    ensures { result ≡ has_bit 3 node.now.flags0 }
{
    PathNode::from(*node).off_road()
}

#[unsafe(no_mangle)]
pub extern "C" fn ynd_node_no_big_vehicles(node: &NodeEntry) -> bool
    ensures { result ≡ has_bit 5 node.now.flags0 }
{
    PathNode::from(*node).no_big_vehicles()
}

#[unsafe(no_mangle)]
pub extern "C" fn ynd_node_cannot_go_left(node: &NodeEntry) -> bool
    ensures { result ≡ has_bit 7 node.now.flags0 }
{
    PathNode::from(*node).cannot_go_left()
}

#[unsafe(no_mangle)]
pub extern "C" fn ynd_node_slip_road(node: &NodeEntry) -> bool
    ensures { result ≡ has_bit 0 node.now.flags1 }
{
    PathNode::from(*node).slip_road()
}

#[unsafe(no_mangle)]
pub extern "C" fn ynd_node_indicate_keep_left(node: &NodeEntry) -> bool
    ensures { result ≡ has_bit 1 node.now.flags1 }
{
    PathNode::from(*node).indicate_keep_left()
}

#[unsafe(no_mangle)]
pub extern "C" fn ynd_node_indicate_keep_right(node: &NodeEntry) -> bool
    ensures { result ≡ has_bit 2 node.now.flags1 }
{
    PathNode::from(*node).indicate_keep_right()
}

#[unsafe(no_mangle)]
pub extern "C" fn ynd_node_left_turns_only(node: &NodeEntry) -> bool
    ensures { result ≡ has_bit 7 node.now.flags1 }
{
    PathNode::from(*node).left_turns_only()
}

#[unsafe(no_mangle)]
pub extern "C" fn ynd_node_is_ped_node(node: &NodeEntry) -> bool
    ensures { result ≡ ped_kind (node.now.flags1 / 8) }
{
    PathNode::from(*node).is_ped_node()
}

#[unsafe(no_mangle)]
pub extern "C" fn ynd_node_no_gps(node: &NodeEntry) -> bool
    ensures { result ≡ has_bit 0 node.now.flags2 }
{
    PathNode::from(*node).no_gps()
}

#[unsafe(no_mangle)]
pub extern "C" fn ynd_node_is_junction(node: &NodeEntry) -> bool
    ensures { result ≡ has_bit 2 node.now.flags2 }
{
    PathNode::from(*node).is_junction()
}

#[unsafe(no_mangle)]
pub extern "C" fn ynd_node_is_disabled_unk1(node: &NodeEntry) -> bool
    ensures { result ≡ has_bit 4 node.now.flags2 }
{
    PathNode::from(*node).is_disabled_unk1()
}

#[unsafe(no_mangle)]
pub extern "C" fn ynd_node_highway(node: &NodeEntry) -> bool
    ensures { result ≡ has_bit 6 node.now.flags2 }
{
    PathNode::from(*node).highway()
}

#[unsafe(no_mangle)]
pub extern "C" fn ynd_node_is_disabled_unk0(node: &NodeEntry) -> bool
    ensures { result ≡ has_bit 7 node.now.flags2 }
{
    PathNode::from(*node).is_disabled_unk0()
}

#[unsafe(no_mangle)]
pub extern "C" fn ynd_node_is_disabled(node: &NodeEntry) -> bool
    ensures { result ≡ disabled node.now.flags2 }
{
    PathNode::from(*node).is_disabled()
}

#[unsafe(no_mangle)]
pub extern "C" fn ynd_node_tunnel(node: &NodeEntry) -> bool
    ensures { result ≡ has_bit 0 node.now.flags3 }
{
    PathNode::from(*node).tunnel()
}

#[unsafe(no_mangle)]
pub extern "C" fn ynd_node_heuristic_value(node: &NodeEntry) -> u8
    ensures { result ≡ field_of 1 7 node.now.flags3 }
{
    PathNode::from(*node).heuristic_value()
}

#[unsafe(no_mangle)]
pub extern "C" fn ynd_node_density(node: &NodeEntry) -> u8
    ensures { result ≡ field_of 0 4 node.now.flags4 }
{
    PathNode::from(*node).density()
}

#[unsafe(no_mangle)]
pub extern "C" fn ynd_node_dead_endness(node: &NodeEntry) -> u8
    ensures { result ≡ field_of 4 3 node.now.flags4 * 16 }
{
    PathNode::from(*node).dead_endness()
}

#[unsafe(no_mangle)]
pub extern "C" fn ynd_node_set_off_road(node: &mut NodeEntry, on: bool)
    ensures { node.new ≡ node_as_entry
        (with_flags0 (entry_as_node node.old) (with_bit 3 node.old.flags0 on)) }
{
    *node = NodeEntry::from(PathNode::from(*node).set_off_road(on));
}

#[unsafe(no_mangle)]
pub extern "C" fn ynd_node_set_no_big_vehicles(node: &mut NodeEntry, on: bool)
    ensures { node.new ≡ node_as_entry
        (with_flags0 (entry_as_node node.old) (with_bit 5 node.old.flags0 on)) }
{
    *node = NodeEntry::from(PathNode::from(*node).set_no_big_vehicles(on));
}

#[unsafe(no_mangle)]
pub extern "C" fn ynd_node_set_cannot_go_left(node: &mut NodeEntry, on: bool)
    ensures { node.new ≡ node_as_entry
        (with_flags0 (entry_as_node node.old) (with_bit 7 node.old.flags0 on)) }
{
    *node = NodeEntry::from(PathNode::from(*node).set_cannot_go_left(on));
}

#[unsafe(no_mangle)]
pub extern "C" fn ynd_node_set_slip_road(node: &mut NodeEntry, on: bool)
    ensures { node.new ≡ node_as_entry
        (with_flags1 (entry_as_node node.old) (with_bit 0 node.old.flags1 on)) }
{
    *node = NodeEntry::from(PathNode::from(*node).set_slip_road(on));
}

#[unsafe(no_mangle)]
pub extern "C" fn ynd_node_set_indicate_keep_left(node: &mut NodeEntry, on: bool)
    ensures { node.new ≡ node_as_entry
        (with_flags1 (entry_as_node node.old) (with_bit 1 node.old.flags1 on)) }
{
    *node = NodeEntry::from(PathNode::from(*node).set_indicate_keep_left(on));
}

#[unsafe(no_mangle)]
pub extern "C" fn ynd_node_set_indicate_keep_right(node: &mut NodeEntry, on: bool)
    ensures { node.new ≡ node_as_entry
        (with_flags1 (entry_as_node node.old) (with_bit 2 node.old.flags1 on)) }
{
    *node = NodeEntry::from(PathNode::from(*node).set_indicate_keep_right(on));
}

#[unsafe(no_mangle)]
pub extern "C" fn ynd_node_set_left_turns_only(node: &mut NodeEntry, on: bool)
    ensures { node.new ≡ node_as_entry
        (with_flags1 (entry_as_node node.old) (with_bit 7 node.old.flags1 on)) }
{
    *node = NodeEntry::from(PathNode::from(*node).set_left_turns_only(on));
}

#[unsafe(no_mangle)]
pub extern "C" fn ynd_node_set_no_gps(node: &mut NodeEntry, on: bool)
    ensures { node.new ≡ node_as_entry
        (with_flags2 (entry_as_node node.old) (with_bit 0 node.old.flags2 on)) }
{
    *node = NodeEntry::from(PathNode::from(*node).set_no_gps(on));
}

#[unsafe(no_mangle)]
pub extern "C" fn ynd_node_set_is_junction(node: &mut NodeEntry, on: bool)
    ensures { node.new ≡ node_as_entry
        (with_flags2 (entry_as_node node.old) (with_bit 2 node.old.flags2 on)) }
{
    *node = NodeEntry::from(PathNode::from(*node).set_is_junction(on));
}

#[unsafe(no_mangle)]
pub extern "C" fn ynd_node_set_highway(node: &mut NodeEntry, on: bool)
    ensures { node.new ≡ node_as_entry
        (with_flags2 (entry_as_node node.old) (with_bit 6 node.old.flags2 on)) }
{
    *node = NodeEntry::from(PathNode::from(*node).set_highway(on));
}

#[unsafe(no_mangle)]
pub extern "C" fn ynd_node_set_tunnel(node: &mut NodeEntry, on: bool)
    ensures { node.new ≡ node_as_entry
        (with_flags3 (entry_as_node node.old) (with_bit 0 node.old.flags3 on)) }
{
    *node = NodeEntry::from(PathNode::from(*node).set_tunnel(on));
}

#[unsafe(no_mangle)]
pub extern "C" fn ynd_node_set_heuristic_value(node: &mut NodeEntry, v: u8)
    ensures { node.new ≡ node_as_entry
        (with_flags3 (entry_as_node node.old) (with_field 1 7 node.old.flags3 v)) }
{
    *node = NodeEntry::from(PathNode::from(*node).set_heuristic_value(v));
}

#[unsafe(no_mangle)]
pub extern "C" fn ynd_node_set_density(node: &mut NodeEntry, v: u8)
    ensures { node.new ≡ node_as_entry
        (with_flags4 (entry_as_node node.old) (with_field 0 4 node.old.flags4 v)) }
{
    *node = NodeEntry::from(PathNode::from(*node).set_density(v));
}

// The kind of node: the value of flags1's upper five bits.
#[unsafe(no_mangle)]
pub extern "C" fn ynd_node_special(node: &NodeEntry) -> u8
    ensures { result ≡ special_value (special_of (field_of 3 5 node.now.flags1)) }
{
    PathNode::from(*node).special().value()
}

// Of a value over 31 the low five bits are stored.
#[unsafe(no_mangle)]
pub extern "C" fn ynd_node_set_special(node: &mut NodeEntry, v: u8)
    ensures { node.new ≡ node_as_entry
        (with_flags1 (entry_as_node node.old)
        (with_field 3 5 node.old.flags1 (special_value (special_of v)))) }
{
    *node = NodeEntry::from(PathNode::from(*node).set_special(NodeSpecial::from_value(v)));
}

// The speed: 0 slow, 1 normal, 2 fast, 3 faster.
#[unsafe(no_mangle)]
pub extern "C" fn ynd_node_speed(node: &NodeEntry) -> u8
    ensures { result ≡ speed_value (speed_of (field_of 1 2 node.now.flags5)) }
{
    PathNode::from(*node).speed().value()
}

// A speed over 3 is 3.
#[unsafe(no_mangle)]
pub extern "C" fn ynd_node_set_speed(node: &mut NodeEntry, v: u8)
    ensures { node.new ≡ node_as_entry
        (with_flags5 (entry_as_node node.old)
        (with_field 1 2 node.old.flags5 (speed_value (speed_of v)))) }
{
    *node = NodeEntry::from(PathNode::from(*node).set_speed(NodeSpeed::from(v)));
}

// Whether a kind is one of the three kinds of ped node.
#[unsafe(no_mangle)]
pub extern "C" fn ynd_special_is_ped(v: u8) -> bool
    ensures { result ≡ is_ped_special (special_of v) }
{
    NodeSpecial::from_value(v).is_ped()
}

// A node at a position in whole steps, with no flags and no links.
#[unsafe(no_mangle)]
pub extern "C" fn ynd_node_new(
    area_id: u16,
    node_id: u16,
    x: f32,
    y: f32,
    z: f32,
    node: &mut NodeEntry,
)
    ensures { node.new ≡ node_as_entry
        (new_node area_id node_id (dequantised (quantised (record { x = x; y = y; z = z })))) }
{
    *node = NodeEntry::from(PathNode::new(area_id, node_id, Vec3 { x, y, z }));
}

// The position is stored in whole steps.
#[unsafe(no_mangle)]
pub extern "C" fn ynd_node_set_position(node: &mut NodeEntry, x: f32, y: f32, z: f32)
    ensures { node.new ≡ node_as_entry
        (with_position (entry_as_node node.old) (dequantised (quantised (record { x = x; y = y; z = z })))) }
{
    *node = NodeEntry::from(PathNode::from(*node).set_position(Vec3 { x, y, z }));
}
