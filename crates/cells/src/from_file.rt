// The file's records as entries: coordinates read from their steps.
ghost use Rattle.std.specs.Prelude.{◌≡◌};
ghost use Rattle.cells.specs.Paths.{path_node, path_link, path_junction};

use crate::junction_entry::JunctionEntry;
use crate::link::PathLink;
use crate::node_entry::NodeEntry;
use numbers::bits::bits_of;
use numbers::position::{Quantised, dequantise};
use numbers::steps::{metres_xy, metres_z};
use records::junction::NodeJunction;
use records::link::NodeLink;
use records::node::Node;

// Its links stand from `first` on in memory.
#[tactic(auto, unfolding(crate::specs::Paths::path_node))]
pub(crate) fn path_node(n: Node, first: u32) -> NodeEntry
    ensures { result ≡ path_node n first }
{
    let position = dequantise(Quantised {
        x: n.position_x,
        y: n.position_y,
        z: n.position_z,
    });
    NodeEntry {
        area_id: n.area_id,
        node_id: n.node_id,
        street_name: n.street_name,
        position: position.into(),
        flags0: n.flags0,
        flags1: n.flags1,
        flags2: n.flags2,
        flags3: n.flags3,
        flags4: n.flags4,
        flags5: n.link_count_flags % 8,
        link_count: n.link_count_flags / 8,
        zero: 0,
        link_id: first,
        unused0: n.unused0,
        unused1: n.unused1,
        unused2: n.unused2,
        unused3: n.unused3,
        unused4: n.unused4,
        zeros: 0,
    }
}

impl From<NodeLink> for PathLink {
    ghost from_gives = { λ l p. p ≡ path_link l };

    #[tactic(auto, unfolding(crate::specs::Paths::path_link))]
    fn from(l: NodeLink) -> PathLink {
        PathLink {
            area_id: l.area_id,
            node_id: l.node_id,
            flags0: l.flags0,
            flags1: l.flags1,
            flags2: l.flags2,
            length: l.link_length,
        }
    }
}

// Its heightmap stands from `first` on in memory.
#[tactic(auto, unfolding(crate::specs::Paths::path_junction))]
pub(crate) fn path_junction(j: NodeJunction, first: u32) -> JunctionEntry
    ensures { result ≡ path_junction j first }
{
    JunctionEntry {
        x: bits_of(metres_xy(j.position_x)),
        y: bits_of(metres_xy(j.position_y)),
        min_z: bits_of(metres_z(j.min_z)),
        max_z: bits_of(metres_z(j.max_z)),
        width: j.heightmap_dim_x,
        height: j.heightmap_dim_y,
        zero: 0,
        heightmap_ptr: first,
    }
}
