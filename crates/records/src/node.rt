// A node record, 40 bytes.
ghost use Rattle.std.specs.Prelude.{◌≡◌, ◌/◌};
ghost use Rattle.std.proofs.Common.{rules};
ghost use Rattle.records.specs.Records.{node_at, node_bytes};
ghost use Rattle.records.specs.StoredLaws.{node_same, node_long};

use crate::layout::NODE_SIZE;
use crate::stored::{Stored, bytes_of, stored_at};

#[derive(Clone, Copy)]
pub struct Node {
    pub unused0: u32,
    pub unused1: u32,
    pub unused2: u32,
    pub unused3: u32,
    pub area_id: u16,
    pub node_id: u16,
    pub street_name: u32,
    pub unused4: u16,
    pub link_id: u16,
    pub position_x: i16,
    pub position_y: i16,
    pub flags0: u8,
    pub flags1: u8,
    pub position_z: i16,
    pub flags2: u8,
    pub link_count_flags: u8,
    pub flags3: u8,
    pub flags4: u8,
}

impl Stored for Node {
    const SIZE: usize = NODE_SIZE;

    ghost SIZE = { 40 };

    ghost value_at = { node_at };

    ghost bytes = { node_bytes };

    ghost small = { Prim.search rules };

    ghost long = { node_long };

    ghost same = { node_same };

    #[tactic(auto, unfolding(crate::specs::Records::node_at))]
    fn read(s: &[u8], at: usize) -> Node {
        Node {
            unused0: u32::read(s, at),
            unused1: u32::read(s, at + 4),
            unused2: u32::read(s, at + 8),
            unused3: u32::read(s, at + 12),
            area_id: u16::read(s, at + 16),
            node_id: u16::read(s, at + 18),
            street_name: u32::read(s, at + 20),
            unused4: u16::read(s, at + 24),
            link_id: u16::read(s, at + 26),
            position_x: i16::read(s, at + 28),
            position_y: i16::read(s, at + 30),
            flags0: u8::read(s, at + 32),
            flags1: u8::read(s, at + 33),
            position_z: i16::read(s, at + 34),
            flags2: u8::read(s, at + 36),
            link_count_flags: u8::read(s, at + 37),
            flags3: u8::read(s, at + 38),
            flags4: u8::read(s, at + 39),
        }
    }

    fn write(self, section: &mut [u8], at: usize) {
        self.unused0.write(section, at);
        self.unused1.write(section, at + 4);
        self.unused2.write(section, at + 8);
        self.unused3.write(section, at + 12);
        self.area_id.write(section, at + 16);
        self.node_id.write(section, at + 18);
        self.street_name.write(section, at + 20);
        self.unused4.write(section, at + 24);
        self.link_id.write(section, at + 26);
        self.position_x.write(section, at + 28);
        self.position_y.write(section, at + 30);
        self.flags0.write(section, at + 32);
        self.flags1.write(section, at + 33);
        self.position_z.write(section, at + 34);
        self.flags2.write(section, at + 36);
        self.link_count_flags.write(section, at + 37);
        self.flags3.write(section, at + 38);
        self.flags4.write(section, at + 39);
    }
}

// The node at a place of a section.
pub fn node_at(s: &[u8], at: u32) -> Node
    ensures { result ≡ node_at s.now at }
{
    stored_at(s, at as usize)
}

// The range of links that a node's record names: the place of the first, and how many.
#[derive(Clone, Copy)]
pub struct LinkRange {
    pub start: u16,
    pub count: u8,
}

// The range of the node at a place of a section; its other fields are not read.
#[tactic(auto, unfolding(crate::specs::Records::node_at))]
pub fn link_range_at(s: &[u8], at: u32) -> LinkRange
    ensures start { result.start ≡ (node_at s.now at).link_id }
    ensures count { result.count ≡ (node_at s.now at).link_count_flags / 8 }
{
    LinkRange {
        start: stored_at(s, at as usize + 26),
        count: stored_at::<u8>(s, at as usize + 37) / 8,
    }
}

// A node as written.
pub fn node_bytes(n: Node) -> [u8; 40]
    ensures { result ≡ node_bytes n }
{
    bytes_of(n)
}
