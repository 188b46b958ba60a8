// Bytes and little-endian numbers at a place of a section, 0 past the end.
ghost use Rattle.std.specs.Prelude.{◌≡◌};
ghost use Rattle.records.specs.Bytes.{byte_at, le16, le32, le64, signed16};

use crate::stored::stored_at;

// The byte at a place, 0 past the end.
pub fn byte_at(s: &[u8], at: usize) -> u8
    ensures { result ≡ byte_at s.now at }
{
    s.get(at).copied().unwrap_or(0)
}

pub fn u16_at(s: &[u8], at: u32) -> u16
    ensures { result ≡ le16 s.now at }
{
    stored_at(s, at as usize)
}

pub fn u32_at(s: &[u8], at: u32) -> u32
    ensures { result ≡ le32 s.now at }
{
    stored_at(s, at as usize)
}

pub fn u64_at(s: &[u8], at: u32) -> u64
    ensures { result ≡ le64 s.now at }
{
    stored_at(s, at as usize)
}

pub fn i16_at(s: &[u8], at: u32) -> i16
    ensures { result ≡ signed16 (le16 s.now at) }
{
    stored_at(s, at as usize)
}
