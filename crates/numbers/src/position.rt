// A position and the steps that it is stored in (docs/FORMAT.md, "Stored steps").
ghost use Rattle.std.specs.Prelude.{◌≡◌};
ghost use Rattle.numbers.specs.Positions.{quantised, dequantised};

use crate::math::Vec3;
use crate::steps::{metres_xy, metres_z, steps_xy, steps_z};

// The stored steps of a position.
#[derive(Clone, Copy)]
pub struct Quantised {
    pub x: i16,
    pub y: i16,
    pub z: i16,
}

#[inline(always)]
pub fn quantise(p: Vec3) -> Quantised
    ensures { result ≡ quantised p }
{
    Quantised {
        x: steps_xy(p.x),
        y: steps_xy(p.y),
        z: steps_z(p.z),
    }
}

#[inline(always)]
pub fn dequantise(q: Quantised) -> Vec3
    ensures { result ≡ dequantised q }
{
    Vec3 {
        x: metres_xy(q.x),
        y: metres_xy(q.y),
        z: metres_z(q.z),
    }
}

// What `set_position` stores: the position in whole steps.
pub fn stored_position(p: Vec3) -> Vec3
    ensures { result ≡ dequantised (quantised p) }
{
    dequantise(quantise(p))
}
