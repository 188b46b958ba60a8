// Entries as the file's records: coordinates stored as steps, and of flags5 the low three bits.
ghost use Rattle.std.specs.Prelude.{◌≡◌, ◌≤◌};
ghost use Rattle.cells.specs.Entries.{file_node, file_link, file_junction};
ghost use Rattle.cells.specs.Blocks.{link_record, junction_record};
ghost use Rattle.records.specs.Records.{node_bytes};

use crate::junction::PathJunction;
use crate::junction_entry::JunctionEntry;
use crate::link::PathLink;
use crate::node::PathNode;
use crate::node_entry::NodeEntry;
use numbers::position::quantise;
use numbers::steps::{steps_xy, steps_z};
use records::junction::{NodeJunction, junction_bytes};
use records::link::{NodeLink, link_bytes};
use records::node::{Node, node_bytes};

// Its links, `count` in number, are stored from `start` on.
#[tactic(auto, using(crate::proofs::Rules::file_laws), unfolding(crate::specs::Entries::file_node))]
fn file_node(n: &NodeEntry, start: u16, count: u8) -> Node
    requires { count ≤ 31 }
    ensures { result ≡ file_node start count n.now }
{
    let n = PathNode::from(*n);
    let q = quantise(n.position);
    Node {
        unused0: n.unused0,
        unused1: n.unused1,
        unused2: n.unused2,
        unused3: n.unused3,
        area_id: n.area_id,
        node_id: n.node_id,
        street_name: n.street_name,
        unused4: n.unused4,
        link_id: start,
        position_x: q.x,
        position_y: q.y,
        flags0: n.flags0,
        flags1: n.flags1,
        position_z: q.z,
        flags2: n.flags2,
        link_count_flags: count * 8 + n.flags5 % 8,
        flags3: n.flags3,
        flags4: n.flags4,
    }
}

impl From<PathLink> for NodeLink {
    ghost from_gives = { λ l n. n ≡ file_link l };

    #[tactic(auto, unfolding(crate::specs::Entries::file_link))]
    fn from(l: PathLink) -> NodeLink {
        NodeLink {
            area_id: l.area_id,
            node_id: l.node_id,
            flags0: l.flags0,
            flags1: l.flags1,
            flags2: l.flags2,
            link_length: l.length,
        }
    }
}

// `start` heightmap bytes stand before its own.
#[tactic(auto, using(crate::proofs::Rules::file_laws), unfolding(crate::specs::Entries::file_junction))]
fn file_junction(j: JunctionEntry, start: u16) -> NodeJunction
    ensures { result ≡ file_junction start j }
{
    let j = PathJunction::from(j);
    NodeJunction {
        max_z: steps_z(j.max_z),
        position_x: steps_xy(j.position.x),
        position_y: steps_xy(j.position.y),
        min_z: steps_z(j.min_z),
        heightmap_ptr: start,
        heightmap_dim_x: j.width,
        heightmap_dim_y: j.height,
    }
}

// ---- the bytes of an entry's record

pub(crate) fn node_record(n: &NodeEntry, start: u16, count: u8) -> [u8; 40]
    requires { count ≤ 31 }
    ensures { result ≡ node_bytes (file_node start count n.now) }
{
    node_bytes(file_node(n, start, count))
}

pub(crate) fn link_record(l: PathLink) -> [u8; 8]
    ensures { result ≡ link_record l }
{
    link_bytes(l.into())
}

pub(crate) fn junction_record(j: &JunctionEntry, start: u16) -> [u8; 12]
    ensures { result ≡ junction_record start j.now }
{
    junction_bytes(file_junction(*j, start))
}
