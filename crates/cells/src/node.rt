// A node as calls take and return it.
ghost use Rattle.std.specs.Prelude.{◌≡◌};
ghost use Rattle.numbers.specs.Positions.{quantised, dequantised};
ghost use Rattle.cells.specs.NodeAccess.{new_node, with_position};

use numbers::math::Vec3;
use numbers::position::stored_position;

// Its links are link_count entries of the lent links, from link_id on. The five unused fields of the file's record are
// the client's: they are kept with the node.
#[derive(Clone, Copy, Default)]
pub struct PathNode {
    pub area_id: u16,
    pub node_id: u16,
    pub street_name: u32,
    pub position: Vec3,
    pub flags0: u8,
    pub flags1: u8,
    pub flags2: u8,
    pub flags3: u8,
    pub flags4: u8,
    pub flags5: u8,
    pub link_id: u32,
    pub link_count: u8,
    pub unused0: u32,
    pub unused1: u32,
    pub unused2: u32,
    pub unused3: u32,
    pub unused4: u16,
}

impl PathNode {
    // A node at a position in whole steps, with no links.
    #[tactic(auto, unfolding(crate::specs::NodeAccess::new_node))]
    pub fn new(area_id: u16, node_id: u16, position: Vec3) -> PathNode
        ensures { result ≡ new_node area_id node_id (dequantised (quantised position)) }
    {
        PathNode {
            area_id,
            node_id,
            position: stored_position(position),
            ..PathNode::default()
        }
    }

    // The position is stored in whole steps.
    pub fn set_position(self, p: Vec3) -> PathNode
        ensures { result ≡ with_position self (dequantised (quantised p)) }
    {
        PathNode {
            position: stored_position(p),
            ..self
        }
    }
}
