// A junction record, 12 bytes.
ghost use Rattle.std.specs.Prelude.{◌≡◌};
ghost use Rattle.std.proofs.Common.{rules};
ghost use Rattle.records.specs.Records.{junction_at, junction_bytes};
ghost use Rattle.records.specs.StoredLaws.{junction_same, junction_long};

use crate::layout::JUNCTION_SIZE;
use crate::stored::{Stored, bytes_of, stored_at};

#[derive(Clone, Copy)]
pub struct NodeJunction {
    pub max_z: i16,
    pub position_x: i16,
    pub position_y: i16,
    pub min_z: i16,
    pub heightmap_ptr: u16,
    pub heightmap_dim_x: u8,
    pub heightmap_dim_y: u8,
}

impl Stored for NodeJunction {
    const SIZE: usize = JUNCTION_SIZE;

    ghost SIZE = { 12 };

    ghost value_at = { junction_at };

    ghost bytes = { junction_bytes };

    ghost small = { Prim.search rules };

    ghost long = { junction_long };

    ghost same = { junction_same };

    #[tactic(auto, unfolding(crate::specs::Records::junction_at))]
    fn read(s: &[u8], at: usize) -> NodeJunction {
        NodeJunction {
            max_z: i16::read(s, at),
            position_x: i16::read(s, at + 2),
            position_y: i16::read(s, at + 4),
            min_z: i16::read(s, at + 6),
            heightmap_ptr: u16::read(s, at + 8),
            heightmap_dim_x: u8::read(s, at + 10),
            heightmap_dim_y: u8::read(s, at + 11),
        }
    }

    fn write(self, section: &mut [u8], at: usize) {
        self.max_z.write(section, at);
        self.position_x.write(section, at + 2);
        self.position_y.write(section, at + 4);
        self.min_z.write(section, at + 6);
        self.heightmap_ptr.write(section, at + 8);
        self.heightmap_dim_x.write(section, at + 10);
        self.heightmap_dim_y.write(section, at + 11);
    }
}

// The junction at a place of a section.
pub fn junction_at(s: &[u8], at: u32) -> NodeJunction
    ensures { result ≡ junction_at s.now at }
{
    stored_at(s, at as usize)
}

// The heightmap values that a junction's record names: the place of the first, and rows and columns.
#[derive(Clone, Copy)]
pub struct ValueRange {
    pub start: u16,
    pub width: u8,
    pub height: u8,
}

// The range of the junction at a place of a section; its other fields are not read.
#[tactic(auto, unfolding(crate::specs::Records::junction_at))]
pub fn value_range_at(s: &[u8], at: u32) -> ValueRange
    ensures start { result.start ≡ (junction_at s.now at).heightmap_ptr }
    ensures size { (result.width ≡ (junction_at s.now at).heightmap_dim_x)
        × (result.height ≡ (junction_at s.now at).heightmap_dim_y) }
{
    ValueRange {
        start: stored_at(s, at as usize + 8),
        width: stored_at(s, at as usize + 10),
        height: stored_at(s, at as usize + 11),
    }
}

// A junction as written.
pub fn junction_bytes(j: NodeJunction) -> [u8; 12]
    ensures { result ≡ junction_bytes j }
{
    bytes_of(j)
}
