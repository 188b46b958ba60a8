// Stored steps: x and y count quarters of a metre, z counts thirty-seconds (docs/FORMAT.md, "Stored steps").
ghost use Rattle.std.specs.Prelude.{◌≡◌, ◌-◌, ◌/◌, ◌^◌, ◌<◌, ◌≤◌, from_bits};
ghost use Rattle.std.specs.Float.{binary32};
ghost use Rattle.numbers.specs.Steps.{limited, step_of, unstep};

// ±n, of a magnitude that fits.
fn signed(negative: bool, n: u32) -> i16
    requires { n ≤ 32767 }
    ensures { result ≡ limited negative n }
{
    let v = n as i16;
    if negative { -v } else { v }
}

// The limit of a sign.
fn limit(negative: bool) -> i16
    ensures { result ≡ limited negative 32768 }
{
    if negative { i16::MIN } else { i16::MAX }
}

// 2^e for the exponents within range. By this table a cut takes one product, which is faster than a shift whose count
// is not always the same.
const POWERS: [u64; 15] = [
    1, 2, 4, 8, 16, 32, 64, 128, 256, 512, 1024, 2048, 4096, 8192, 16384,
];

#[inline(always)]
#[tactic(auto, using(crate::proofs::StepLaws::power_at))]
fn power(e: u32) -> u64
    requires { e ≤ 14 }
    ensures { result ≡ 2 ^ e }
{
    POWERS[e as usize]
}

// The whole part of 1.fraction * 2^e, by the 24-bit significand 2^23 + fraction, which counts units of 2^-23.
#[inline(always)]
#[tactic(auto, using(crate::proofs::StepLaws::cut_laws))]
fn cut(significand: u32, e: u32) -> u32
    requires { (significand < 2 ^ 24) × (e ≤ 14) }
    ensures { result ≡ significand / 2 ^ (23 - e) }
{
    (significand as u64 * power(e) >> 23) as u32
}

// The steps of the number that the pattern b stands for: times 2^k, cut towards zero, limited. These are the five cases
// of specs/Cases.antt, in its order: too small, within range, beyond it, infinite, NaN. Every pattern is in exactly
// one.
//
// IEEE 754, binary32: bit 31 is the sign, bits 30 to 23 are the exponent's field (8 bits), bits 22 to 0 the fraction
// (23 bits). The field is the exponent plus the bias, 127. So a field from 1 to 254 stands for
// ±1.fraction * 2^(field - 127), and times 2^k that is ±1.fraction * 2^e, where e = field - 127 + k. It lies from 2^e
// up
// to below 2^(e + 1).
// - Too small is below 1: e < 0, so field < 127 - k. The cut leaves nothing. Field 0, which is zero and the subnormal
//   numbers below 2^-126, is among them.
// - Within range is from 1 up to below 2^15 = 32768: e < 15, so field < 142 - k. The step is the whole part.
// - Beyond it are the other finite numbers, from 32768 steps on: the limit of the sign, -32768 or 32767. What is
//   cut to -32768 (along x and y from -8192 down to above -8192.25, along z from -1024 down to above -1024.03125)
//   has the field of this case too, though an i16 holds it: the limit of its sign is the step that it has.
// - Infinite is field 255 with the fraction 0: the limit of the sign.
// - NaN is field 255 with any other fraction: 0.
#[inline(always)]
#[tactic(auto, using(crate::proofs::StepLaws::step_laws))]
fn steps_of_bits(b: u32, k: u32) -> i16
    requires { k ≤ 5 }
    ensures { result ≡ step_of k (from_bits binary32 b) }
{
    let negative = b >= 0x8000_0000;
    let field = b % 0x8000_0000 / 0x80_0000;
    let fraction = b % 0x80_0000;
    // too small
    if field < 127 - k {
        return 0;
    }
    // within range
    if field < 142 - k {
        return signed(negative, cut(0x80_0000 + fraction, field - (127 - k)));
    }
    // beyond it
    if field < 255 {
        return limit(negative);
    }
    // infinite
    if fraction == 0 {
        return limit(negative);
    }
    // NaN
    0
}

// The steps of an f32, by its pattern. The language leaves the bits of a NaN undefined: the pattern of a NaN,
// 0x7fc00000,
// goes through the cases in their place.
#[inline(always)]
#[tactic(auto, using(crate::proofs::Patterns::float_laws, crate::proofs::StepLaws::at_pattern))]
fn steps(x: f32, k: u32) -> i16
    requires { k ≤ 5 }
    ensures { result ≡ step_of k x }
{
    if x.is_nan() {
        steps_of_bits(0x7fc0_0000, k)
    } else {
        steps_of_bits(x.to_bits(), k)
    }
}

// Along x and y 2 ^ 2 steps are a metre, along z 2 ^ 5.
const XY: u32 = 2;

const Z: u32 = 5;

// What n steps stand for, along x and y: n / 4.
#[inline(always)]
#[tactic(auto, using(crate::proofs::StepLaws::times_quarter))]
pub fn metres_xy(n: i16) -> f32
    ensures { result ≡ unstep 2 n }
{
    n as f32 * 0.25
}

// What n steps stand for, along z: n / 32.
#[inline(always)]
#[tactic(auto, using(crate::proofs::StepLaws::times_thirty_second))]
pub fn metres_z(n: i16) -> f32
    ensures { result ≡ unstep 5 n }
{
    n as f32 * 0.03125
}

// The steps of a coordinate x or y.
#[inline(always)]
pub fn steps_xy(x: f32) -> i16
    ensures { result ≡ step_of 2 x }
{
    steps(x, XY)
}

// The steps of a coordinate z.
#[inline(always)]
pub fn steps_z(x: f32) -> i16
    ensures { result ≡ step_of 5 x }
{
    steps(x, Z)
}

// The same, from the f32's bits.
pub fn steps_xy_of_bits(b: u32) -> i16
    ensures { result ≡ step_of 2 (from_bits binary32 b) }
{
    steps_of_bits(b, XY)
}

pub fn steps_z_of_bits(b: u32) -> i16
    ensures { result ≡ step_of 5 (from_bits binary32 b) }
{
    steps_of_bits(b, Z)
}
