// A link record, 8 bytes.
ghost use Rattle.std.specs.Prelude.{◌≡◌};
ghost use Rattle.std.proofs.Common.{rules};
ghost use Rattle.records.specs.Records.{link_at, link_bytes};
ghost use Rattle.records.specs.StoredLaws.{link_same, link_long};

use crate::layout::LINK_SIZE;
use crate::stored::{Stored, bytes_of, stored_at};

#[derive(Clone, Copy)]
pub struct NodeLink {
    pub area_id: u16,
    pub node_id: u16,
    pub flags0: u8,
    pub flags1: u8,
    pub flags2: u8,
    pub link_length: u8,
}

impl Stored for NodeLink {
    const SIZE: usize = LINK_SIZE;

    ghost SIZE = { 8 };

    ghost value_at = { link_at };

    ghost bytes = { link_bytes };

    ghost small = { Prim.search rules };

    ghost long = { link_long };

    ghost same = { link_same };

    #[tactic(auto, unfolding(crate::specs::Records::link_at))]
    fn read(s: &[u8], at: usize) -> NodeLink {
        NodeLink {
            area_id: u16::read(s, at),
            node_id: u16::read(s, at + 2),
            flags0: u8::read(s, at + 4),
            flags1: u8::read(s, at + 5),
            flags2: u8::read(s, at + 6),
            link_length: u8::read(s, at + 7),
        }
    }

    fn write(self, section: &mut [u8], at: usize) {
        self.area_id.write(section, at);
        self.node_id.write(section, at + 2);
        self.flags0.write(section, at + 4);
        self.flags1.write(section, at + 5);
        self.flags2.write(section, at + 6);
        self.link_length.write(section, at + 7);
    }
}

// The link at a place of a section.
pub fn link_at(s: &[u8], at: u32) -> NodeLink
    ensures { result ≡ link_at s.now at }
{
    stored_at(s, at as usize)
}

// A link as written.
pub fn link_bytes(l: NodeLink) -> [u8; 8]
    ensures { result ≡ link_bytes l }
{
    bytes_of(l)
}
