// Where the thresholds come from (T-12): each entry of the length table worked out by comparing whole numbers, with no
// float and no look at the table, and the line that shows it.
ghost use Rattle.std.specs.Prelude.{◌≡◌, ◌-◌, ◌<◌, ◌≤◌};
ghost use Rattle.std.specs.Float.Ieee.{size};
ghost use Rattle.numbers.specs.Table.{Least};
ghost use Rattle.numbers.specs.ThresholdSearch.{whole_reaches, Searched, hex_digit, line_of, LineOfLeast};

// How many binary digits k - 1 has.
fn digits_below(k: u32) -> u32
    requires { (0 < k) × (k < 256) }
    ensures { (result ≡ size (k - 1)) × (result ≤ 8) }
{
    32 - (k - 1).leading_zeros()
}

// Whether the root of the number with the pattern b rounds to k or more: the square of the middle between k and the
// f32 before it against the number, both in units of 2^(2 * j - 50).
#[tactic(auto, using(crate::proofs::SearchedThresholds::reach_laws))]
fn whole_reaches(k: u32, j: u32, b: u32) -> bool
    requires { Searched k j b }
    ensures { result ≡ whole_reaches k j b }
{
    let middle = ((k << (25 - j)) - 1) as u64;
    let digits = (0x80_0000 + b % 0x80_0000) as u64;
    middle * middle <= digits << (b / 0x80_0000 - 100 - 2 * j)
}

// Entry k of the table: the least pattern, from +0 up, whose rounded root is k or more. `lo` is below it, `hi` is not.
#[tactic(auto, using(crate::proofs::SearchedThresholds::turning_laws), unfolding(crate::specs::Table::thresholds))]
pub fn threshold(k: u8) -> u32
    ensures { Least k result }
{
    let n = k as u32;
    if n == 0 {
        return 0;
    }
    let j = digits_below(n);
    let mut lo: u32 = (125 + 2 * j) * 0x80_0000;
    let mut hi: u32 = (127 + 2 * j) * 0x80_0000;
    // a bisection of numbers, not of a slice
    while lo + 1 < hi {
        let mid = lo + (hi - lo) / 2;
        if whole_reaches(n, j, mid) {
            hi = mid;
        } else {
            lo = mid;
        }
    }
    hi
}

// A digit from 0 to 15 as a byte, in lower case.
fn hex_digit(d: u32) -> u8
    requires { d < 16 }
    ensures { result ≡ hex_digit d }
{
    b"0123456789abcdef"[d as usize]
}

// The eight hexadecimal digits of n, and the line's end.
fn line_of(n: u32) -> [u8; 9]
    ensures { result ≡ line_of n }
{
    let mut line = *b"00000000\n";
    let mut rest = n;
    for i in (0..8).rev() {
        line[i] = hex_digit(rest % 16);
        rest /= 16;
    }
    line
}

// The line that shows entry k.
#[tactic(auto, using(crate::proofs::SearchedThresholds::least_only))]
pub fn threshold_line(k: u8) -> [u8; 9]
    ensures { LineOfLeast k result }
{
    line_of(threshold(k))
}
