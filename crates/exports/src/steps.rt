// Stored steps, positions and lengths.
ghost use Rattle.std.specs.Prelude.{◌≡◌, [], ◌∷◌};
ghost use Rattle.std.specs.Float.{binary32};
ghost use Rattle.std.specs.Float.Ieee.{to_bits, of_bits};
ghost use Rattle.numbers.specs.Steps.{step_of, unstep};
ghost use Rattle.numbers.specs.Lengths.{length_between};
ghost use Rattle.numbers.specs.Lane.{lane_offset};

use numbers::math::Vec3;
use numbers::position::Quantised;

// The stored steps of a coordinate x or y.
#[unsafe(no_mangle)]
pub extern "C" fn ynd_steps_xy(x: f32) -> i16
    ensures { result ≡ step_of 2 x }
{
    numbers::steps::steps_xy(x)
}

// The stored steps of a coordinate z.
#[unsafe(no_mangle)]
pub extern "C" fn ynd_steps_z(x: f32) -> i16
    ensures { result ≡ step_of 5 x }
{
    numbers::steps::steps_z(x)
}

// The same, from the bits of the f32.
#[unsafe(no_mangle)]
pub extern "C" fn ynd_steps_xy_of_bits(bits: u32) -> i16
    ensures { result ≡ step_of 2 (of_bits binary32 bits) }
{
    numbers::steps::steps_xy_of_bits(bits)
}

#[unsafe(no_mangle)]
pub extern "C" fn ynd_steps_z_of_bits(bits: u32) -> i16
    ensures { result ≡ step_of 5 (of_bits binary32 bits) }
{
    numbers::steps::steps_z_of_bits(bits)
}

// What n steps stand for, along x and y.
#[unsafe(no_mangle)]
pub extern "C" fn ynd_metres_xy(n: i16) -> f32
    ensures { result ≡ unstep 2 n }
{
    numbers::steps::metres_xy(n)
}

// What n steps stand for, along z.
#[unsafe(no_mangle)]
pub extern "C" fn ynd_metres_z(n: i16) -> f32
    ensures { result ≡ unstep 5 n }
{
    numbers::steps::metres_z(n)
}

// The bits of an f32, and the f32 of some bits. There is one NaN.
#[unsafe(no_mangle)]
pub extern "C" fn ynd_bits_of(x: f32) -> u32
    ensures { result ≡ to_bits binary32 x }
{
    numbers::bits::bits_of(x)
}

#[unsafe(no_mangle)]
pub extern "C" fn ynd_float_of(bits: u32) -> f32
    ensures { result ≡ of_bits binary32 bits }
{
    numbers::bits::float_of(bits)
}

// The position x, y, z as it is stored and read.
#[unsafe(no_mangle)]
pub extern "C" fn ynd_stored_position(x: f32, y: f32, z: f32, stored: &mut [f32; 3])
    ensures { stored.new ≡ unstep 2 (step_of 2 x) ∷ unstep 2 (step_of 2 y) ∷ unstep 5 (step_of 5 z) ∷ [] }
{
    let p = numbers::position::stored_position(Vec3 { x, y, z });
    *stored = [p.x, p.y, p.z];
}

// The stored steps of the position x, y, z.
#[unsafe(no_mangle)]
pub extern "C" fn ynd_quantise(x: f32, y: f32, z: f32, steps: &mut [i16; 3])
    ensures { steps.new ≡ step_of 2 x ∷ step_of 2 y ∷ step_of 5 z ∷ [] }
{
    let q = numbers::position::quantise(Vec3 { x, y, z });
    *steps = [q.x, q.y, q.z];
}

// The position that stored steps stand for.
#[unsafe(no_mangle)]
pub extern "C" fn ynd_dequantise(x: i16, y: i16, z: i16, position: &mut [f32; 3])
    ensures { position.new ≡ unstep 2 x ∷ unstep 2 y ∷ unstep 5 z ∷ [] }
{
    let p = numbers::position::dequantise(Quantised { x, y, z });
    *position = [p.x, p.y, p.z];
}

// The length of a link from a to b.
#[unsafe(no_mangle)]
pub extern "C" fn ynd_length_between(ax: f32, ay: f32, az: f32, bx: f32, by: f32, bz: f32) -> u8
    ensures { result ≡ length_between (record { x = ax; y = ay; z = az }) (record { x = bx; y = by; z = bz }) }
{
    numbers::length::length_between(
        Vec3 {
            x: ax,
            y: ay,
            z: az,
        },
        Vec3 {
            x: bx,
            y: by,
            z: bz,
        },
    )
}

// The lane offset of a link, from its two fields.
#[unsafe(no_mangle)]
pub extern "C" fn ynd_lane_offset(offset_value: u8, negative: bool) -> f32
    ensures { result ≡ lane_offset offset_value negative }
{
    numbers::lane::lane_offset(offset_value, negative)
}
