// A ref record, 8 bytes: which node a junction belongs to.
ghost use Rattle.std.specs.Prelude.{◌≡◌};
ghost use Rattle.std.proofs.Common.{rules};
ghost use Rattle.records.specs.Records.{ref_at, ref_bytes};
ghost use Rattle.records.specs.StoredLaws.{ref_same, ref_long};

use crate::layout::REF_SIZE;
use crate::stored::{Stored, bytes_of, stored_at};

#[repr(C)]
#[derive(Clone, Copy, Default)]
pub struct NodeJunctionRef {
    pub area_id: u16,
    pub node_id: u16,
    pub junction_id: u16,
    pub unk0: u16,
}

impl Stored for NodeJunctionRef {
    const SIZE: usize = REF_SIZE;

    ghost SIZE = { 8 };

    ghost value_at = { ref_at };

    ghost bytes = { ref_bytes };

    ghost small = { Prim.search rules };

    ghost long = { ref_long };

    ghost same = { ref_same };

    #[tactic(auto, unfolding(crate::specs::Records::ref_at))]
    fn read(s: &[u8], at: usize) -> NodeJunctionRef {
        NodeJunctionRef {
            area_id: u16::read(s, at),
            node_id: u16::read(s, at + 2),
            junction_id: u16::read(s, at + 4),
            unk0: u16::read(s, at + 6),
        }
    }

    fn write(self, section: &mut [u8], at: usize) {
        self.area_id.write(section, at);
        self.node_id.write(section, at + 2);
        self.junction_id.write(section, at + 4);
        self.unk0.write(section, at + 6);
    }
}

// The ref at a place of a section.
pub fn ref_at(s: &[u8], at: u32) -> NodeJunctionRef
    ensures { result ≡ ref_at s.now at }
{
    stored_at(s, at as usize)
}

// A ref as written.
pub fn ref_bytes(r: NodeJunctionRef) -> [u8; 8]
    ensures { result ≡ ref_bytes r }
{
    bytes_of(r)
}
