// The bits of an f32, both ways, for every value. There is one NaN: it is written as 0x7fc0_0000, and each NaN's
// pattern is read as it.
ghost use Rattle.std.specs.Prelude.{◌≡◌, from_bits, to_bits};
ghost use Rattle.std.specs.Float.{binary32};

pub fn bits_of(x: f32) -> u32
    ensures { result ≡ to_bits binary32 x }
{
    if x.is_nan() { 0x7fc0_0000 } else { x.to_bits() }
}

#[tactic(auto, using(crate::proofs::Patterns::nan_pattern, crate::proofs::Patterns::number_pattern))]
pub fn float_of(n: u32) -> f32
    ensures { result ≡ from_bits binary32 n }
{
    if 0x7f80_0000 < n % 0x8000_0000 {
        f32::NAN
    } else {
        f32::from_bits(n)
    }
}
