// Parts of a record.
ghost use Rattle.std.specs.Prelude.{◌≡◌, ◌≤◌, ◌<◌, take};
ghost use Rattle.std.specs.Result.{ForOk};

use numbers::refusal::Refusal;
use records::bytes::{byte_at, u16_at, u32_at};
use walks::walk::End;

pub fn length_at(b: &[u8], at: u32) -> usize
    ensures { result < 65536 }
{
    u16_at(b, at) as usize
}

pub fn number_at(b: &[u8], at: u32) -> usize
    ensures { result < 4294967296 }
{
    u32_at(b, at) as usize
}

// The first n bytes, none if there are fewer.
pub fn first(b: &[u8], n: usize) -> &[u8] {
    b.get(..n).unwrap_or(&[])
}

// The bytes after the first n, none if there are fewer.
pub fn after(b: &[u8], n: usize) -> &[u8] {
    b.get(n..).unwrap_or(&[])
}

// The number, no more than the limit.
pub fn most(n: usize, limit: usize) -> usize
    ensures { result ≤ limit }
{
    n.min(limit)
}

// The first n entries, all if there are fewer.
pub(crate) fn upto<T>(list: &[T], n: usize) -> &[T]
    ensures { result.now ≡ take n list.now }
{
    &list[..n.min(list.len())]
}

pub(crate) fn upto_mut<T>(list: &mut [T], n: usize) -> &mut [T]
    ensures { result.now ≡ take n list.old }
{
    let n = n.min(list.len());
    &mut list[..n]
}

// An answer of the record: a refusal's number, a byte, and its place, two bytes; zeros if accepted.
pub(crate) fn answer_at(b: &[u8], at: u8) -> (u32, usize) {
    let number = byte_at(b, at as usize);
    (number as u32, length_at(b, at as u32 + 1))
}

// Whether a call's answer is the record's, and what it gives is what it should be.
pub fn agrees<T: Copy, F: FnOnce(T) -> bool>(
    told: (u32, usize),
    answer: Result<T, Refusal>,
    same: F,
) -> bool
    requires { ForOk answer (F.pre same) }
{
    match answer {
        Ok(value) => told == (0, 0) && same(value),
        Err(refusal) => told == (refusal.number(), refusal.place()),
    }
}

// How a walk ended, as records have it: a kind, and the area and the number of *left*.
pub fn ended(end: End) -> (u8, u16, u16) {
    match end {
        End::Done => (0, 0, 0),
        End::NoLink => (1, 0, 0),
        End::Left(area, number) => (2, area, number),
        End::NoNode => (3, 0, 0),
    }
}
