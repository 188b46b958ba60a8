// A node as it stands in lent memory: whole numbers only, in the layout of include/bofrashem.h.
ghost use Rattle.std.specs.Prelude.{◌≡◌};
ghost use Rattle.cells.specs.EntryForms.{bits_in, metres_in, node_as_entry, entry_as_node};
ghost use Rattle.cells.specs.Nodes.{is_ped, ped_kind};

use crate::node::PathNode;
use numbers::bits::{bits_of, float_of};
use numbers::math::Vec3;

// A position in a node: three f32 by their bits.
#[repr(C)]
#[derive(Clone, Copy, Default, PartialEq, Eq)]
pub struct PositionBits {
    pub x: u32,
    pub y: u32,
    pub z: u32,
}

// Its links are link_count entries of the lent links, from link_id on. The five unused fields of the file's record are
// the client's: they are kept with the node. `zero` and `zeros` fill the struct up, and say nothing.
#[repr(C)]
#[derive(Clone, Copy, Default, PartialEq, Eq)]
pub struct NodeEntry {
    pub area_id: u16,
    pub node_id: u16,
    pub street_name: u32,
    pub position: PositionBits,
    pub flags0: u8,
    pub flags1: u8,
    pub flags2: u8,
    pub flags3: u8,
    pub flags4: u8,
    pub flags5: u8,
    pub link_count: u8,
    pub zero: u8,
    pub link_id: u32,
    pub unused0: u32,
    pub unused1: u32,
    pub unused2: u32,
    pub unused3: u32,
    pub unused4: u16,
    pub zeros: u16,
}

// Whether the upper five bits of flags1 are a ped node's.
pub(crate) fn ped_kind(k: u8) -> bool
    ensures { result ≡ ped_kind k }
{
    matches!(k, 10 | 14 | 18)
}

#[tactic(auto, unfolding(crate::specs::Nodes::is_ped))]
pub(crate) fn is_ped(n: &NodeEntry) -> bool
    ensures { result ≡ is_ped n.now }
{
    ped_kind(n.flags1 / 8)
}

impl From<Vec3> for PositionBits {
    ghost from_gives = { λ p b. b ≡ bits_in p };

    fn from(p: Vec3) -> PositionBits {
        PositionBits {
            x: bits_of(p.x),
            y: bits_of(p.y),
            z: bits_of(p.z),
        }
    }
}

impl From<PositionBits> for Vec3 {
    ghost from_gives = { λ b p. p ≡ metres_in b };

    fn from(b: PositionBits) -> Vec3 {
        Vec3 {
            x: float_of(b.x),
            y: float_of(b.y),
            z: float_of(b.z),
        }
    }
}

impl From<PathNode> for NodeEntry {
    ghost from_gives = { λ n e. e ≡ node_as_entry n };

    fn from(n: PathNode) -> NodeEntry {
        NodeEntry {
            area_id: n.area_id,
            node_id: n.node_id,
            street_name: n.street_name,
            position: n.position.into(),
            flags0: n.flags0,
            flags1: n.flags1,
            flags2: n.flags2,
            flags3: n.flags3,
            flags4: n.flags4,
            flags5: n.flags5,
            link_count: n.link_count,
            zero: 0,
            link_id: n.link_id,
            unused0: n.unused0,
            unused1: n.unused1,
            unused2: n.unused2,
            unused3: n.unused3,
            unused4: n.unused4,
            zeros: 0,
        }
    }
}

impl From<NodeEntry> for PathNode {
    ghost from_gives = { λ e n. n ≡ entry_as_node e };

    fn from(e: NodeEntry) -> PathNode {
        PathNode {
            area_id: e.area_id,
            node_id: e.node_id,
            street_name: e.street_name,
            position: e.position.into(),
            flags0: e.flags0,
            flags1: e.flags1,
            flags2: e.flags2,
            flags3: e.flags3,
            flags4: e.flags4,
            flags5: e.flags5,
            link_id: e.link_id,
            link_count: e.link_count,
            unused0: e.unused0,
            unused1: e.unused1,
            unused2: e.unused2,
            unused3: e.unused3,
            unused4: e.unused4,
        }
    }
}
