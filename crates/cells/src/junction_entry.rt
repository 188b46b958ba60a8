// A junction as it stands in lent memory: whole numbers only, in the layout of include/bofrashem.h.
ghost use Rattle.std.specs.Prelude.{◌≡◌};
ghost use Rattle.cells.specs.EntryForms.{junction_as_entry, entry_as_junction};

use crate::junction::PathJunction;
use numbers::bits::{bits_of, float_of};
use numbers::math::Vec2;

// Corner and heights by the bits of an f32. Its heightmap is width * height of the lent values, from heightmap_ptr on.
// `zero` fills the struct up, and says nothing.
#[repr(C)]
#[derive(Clone, Copy, Default, PartialEq, Eq)]
pub struct JunctionEntry {
    pub x: u32,
    pub y: u32,
    pub min_z: u32,
    pub max_z: u32,
    pub width: u8,
    pub height: u8,
    pub zero: u16,
    pub heightmap_ptr: u32,
}

impl From<PathJunction> for JunctionEntry {
    ghost from_gives = { λ j e. e ≡ junction_as_entry j };

    fn from(j: PathJunction) -> JunctionEntry {
        JunctionEntry {
            x: bits_of(j.position.x),
            y: bits_of(j.position.y),
            min_z: bits_of(j.min_z),
            max_z: bits_of(j.max_z),
            width: j.width,
            height: j.height,
            zero: 0,
            heightmap_ptr: j.heightmap_ptr,
        }
    }
}

impl From<JunctionEntry> for PathJunction {
    ghost from_gives = { λ e j. j ≡ entry_as_junction e };

    fn from(e: JunctionEntry) -> PathJunction {
        PathJunction {
            position: Vec2 {
                x: float_of(e.x),
                y: float_of(e.y),
            },
            min_z: float_of(e.min_z),
            max_z: float_of(e.max_z),
            width: e.width,
            height: e.height,
            heightmap_ptr: e.heightmap_ptr,
        }
    }
}
