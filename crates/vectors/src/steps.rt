// Steps, lengths and lane offsets.
use numbers::bits::{bits_of, float_of};
use numbers::math::Vec3;
use records::bytes::{byte_at, i16_at, u32_at};

// bits; steps along x and y, along z.
pub fn steps(b: &[u8]) -> bool {
    let bits = u32_at(b, 0);
    let x = float_of(bits);
    let xy = i16_at(b, 4);
    let z = i16_at(b, 6);
    numbers::steps::steps_xy(x) == xy
        && numbers::steps::steps_z(x) == z
        && numbers::steps::steps_xy_of_bits(bits) == xy
        && numbers::steps::steps_z_of_bits(bits) == z
}

// steps; bits of their metres along x and y, along z.
pub fn metres(b: &[u8]) -> bool {
    let n = i16_at(b, 0);
    bits_of(numbers::steps::metres_xy(n)) == u32_at(b, 2)
        && bits_of(numbers::steps::metres_z(n)) == u32_at(b, 6)
}

fn position_at(b: &[u8], at: u8) -> Vec3 {
    Vec3 {
        x: float_of(u32_at(b, at as u32)),
        y: float_of(u32_at(b, at as u32 + 4)),
        z: float_of(u32_at(b, at as u32 + 8)),
    }
}

// bits of a and b; the length.
pub fn length(b: &[u8]) -> bool {
    numbers::length::length_between(position_at(b, 0), position_at(b, 12)) == byte_at(b, 24)
}

// offset value, whether it is negative; the bits of the offset.
pub fn lane_offset(b: &[u8]) -> bool {
    bits_of(numbers::lane::lane_offset(byte_at(b, 0), byte_at(b, 1) == 1)) == u32_at(b, 2)
}
