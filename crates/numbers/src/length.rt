// The length of a link, by the table of thresholds (docs/FORMAT.md, "Lengths").
ghost use Rattle.std.specs.Prelude.{◌≡◌, ◌≤◌, from_bits};
ghost use Rattle.std.specs.Float.{binary32};
ghost use Rattle.numbers.specs.Lengths.{length_of, length_between};
ghost use Rattle.numbers.specs.Table.{thresholds};

use crate::math::Vec3;
use crate::starts::STARTS;
use crate::thresholds::THRESHOLDS;

// The length whose square has the pattern b: the number of the last threshold that is at most b. The upper 16 bits of b
// name a slice of patterns. STARTS has the number for the slice's least pattern, and at most one more threshold lies in
// the slice, so one comparison decides. What is below the slices has the length of the first of them, 0.
#[tactic(auto, unfolding(crate::specs::Table::thresholds))]
fn length_of_bits(b: u32) -> u8
    requires { b ≤ 0x477e_ffff }
    ensures table { THRESHOLDS ≡ thresholds }
    ensures length { result ≡ length_of (from_bits binary32 b) }
{
    let k = STARTS[(b.max(0x3f7f_0000) >> 16) as usize - 0x3f7f];
    if THRESHOLDS[k as usize + 1] <= b {
        k + 1
    } else {
        k
    }
}

// What is more than the last threshold, 65025 = 255 * 255, has its length, and a NaN too.
pub fn length_between(a: Vec3, b: Vec3) -> u8
    ensures { result ≡ length_between a b }
{
    let dx = b.x - a.x;
    let dy = b.y - a.y;
    let dz = b.z - a.z;
    let square = dx * dx + dy * dy + dz * dz;
    let least = if square < 65025.0 { square } else { 65025.0 };
    length_of_bits(least.to_bits())
}
