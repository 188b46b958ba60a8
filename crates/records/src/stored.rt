// What a section stores: numbers, the low byte first, and records of numbers.
ghost use Rattle.std.specs.Prelude.{◌≡◌, ℕ, ◌+◌, ◌<◌, ◌≤◌, List, length};
ghost use Rattle.records.specs.Bytes.{byte_at, le16, le32, le64, bytes8, bytes16, bytes32, bytes64, signed16, bits16};
ghost use Rattle.std.proofs.Common.{rules};
ghost use Rattle.records.specs.Bytes.{Window};
ghost use Rattle.records.specs.Put.{put};
ghost use Rattle.records.specs.StoredLaws.{byte_same, le16_same, le32_same, le64_same, signed_same, bytes_long};

use crate::bytes::byte_at;

// A value of SIZE bytes.
pub(crate) trait Stored: Copy {
    const SIZE: usize;

    ghost SIZE: { ℕ };

    // The value that a list has at a place, and the bytes of a value.
    ghost value_at: { List ℕ → ℕ → Self };

    ghost bytes: { Self → List ℕ };

    // The value at a place, all of it inside: whoever calls this has tested the end, once for a whole record.
    fn read(s: &[u8], at: usize) -> Self
        requires { at + SIZE ≤ length s.now }
        ensures { result ≡ value_at s.now at };

    // Its bytes, over the section's from a place on.
    fn write(self, section: &mut [u8], at: usize)
        requires { at + SIZE ≤ length section.old }
        ensures { section.new ≡ put section.old at (bytes self) };

    ghost small: { SIZE ≤ 40 };

    ghost long: { (x : Self) → length (bytes x) ≡ SIZE };

    // In 40 bytes of a list it is what it is in the list.
    ghost same: { (s : List ℕ) (at : ℕ) (b : List ℕ) → Window s at b → value_at b 0 ≡ value_at s at };
}

impl Stored for u8 {
    const SIZE: usize = 1;

    ghost SIZE = { 1 };

    ghost value_at = { λ s at. byte_at s at };

    ghost bytes = { λ n. bytes8 n };

    ghost small = { Prim.search rules };

    ghost long = { λ n. bytes_long 1 n };

    ghost same = { byte_same };

    fn read(s: &[u8], at: usize) -> u8 {
        s[at]
    }

    #[tactic(auto, using(crate::proofs::Puts::byte_laws), unfolding(crate::specs::Bytes::number_bytes))]
    fn write(self, section: &mut [u8], at: usize) {
        section[at] = self;
    }
}

impl Stored for u16 {
    const SIZE: usize = 2;

    ghost SIZE = { 2 };

    ghost value_at = { λ s at. le16 s at };

    ghost bytes = { λ n. bytes16 n };

    ghost small = { Prim.search rules };

    ghost long = { λ n. bytes_long 2 n };

    ghost same = { le16_same };

    #[tactic(auto, using(crate::proofs::LittleEndian::reads16))]
    fn read(s: &[u8], at: usize) -> u16 {
        u16::from_le_bytes([s[at], s[at + 1]])
    }

    #[tactic(auto, using(crate::proofs::Puts::number_laws))]
    fn write(self, section: &mut [u8], at: usize) {
        section[at..at + 2].copy_from_slice(&self.to_le_bytes());
    }
}

impl Stored for u32 {
    const SIZE: usize = 4;

    ghost SIZE = { 4 };

    ghost value_at = { λ s at. le32 s at };

    ghost bytes = { λ n. bytes32 n };

    ghost small = { Prim.search rules };

    ghost long = { λ n. bytes_long 4 n };

    ghost same = { le32_same };

    fn read(s: &[u8], at: usize) -> u32 {
        u32::from_le_bytes([s[at], s[at + 1], s[at + 2], s[at + 3]])
    }

    #[tactic(auto, using(crate::proofs::Puts::number_laws))]
    fn write(self, section: &mut [u8], at: usize) {
        section[at..at + 4].copy_from_slice(&self.to_le_bytes());
    }
}

impl Stored for u64 {
    const SIZE: usize = 8;

    ghost SIZE = { 8 };

    ghost value_at = { λ s at. le64 s at };

    ghost bytes = { λ n. bytes64 n };

    ghost small = { Prim.search rules };

    ghost long = { λ n. bytes_long 8 n };

    ghost same = { le64_same };

    fn read(s: &[u8], at: usize) -> u64 {
        u64::from(u32::read(s, at)) + (u64::from(u32::read(s, at + 4)) << 32)
    }

    #[tactic(auto, using(crate::proofs::Puts::number_laws))]
    fn write(self, section: &mut [u8], at: usize) {
        section[at..at + 8].copy_from_slice(&self.to_le_bytes());
    }
}

impl Stored for i16 {
    const SIZE: usize = 2;

    ghost SIZE = { 2 };

    ghost value_at = { λ s at. signed16 (le16 s at) };

    ghost bytes = { λ z. bytes16 (bits16 z) };

    ghost small = { Prim.search rules };

    ghost long = { λ z. bytes_long 2 (bits16 z) };

    ghost same = { signed_same };

    #[tactic(auto, using(crate::proofs::LittleEndian::signed_is))]
    fn read(s: &[u8], at: usize) -> i16 {
        u16::read(s, at).cast_signed()
    }

    #[tactic(auto, using(crate::proofs::LittleEndian::bits_is))]
    fn write(self, section: &mut [u8], at: usize) {
        self.cast_unsigned().write(section, at);
    }
}

// The 40 bytes from a place on, 0 past the end: as many as the longest record has.
fn padded(s: &[u8], at: usize) -> [u8; 40]
    requires { at < 0x8000_0000_0000_0000 }
    ensures { Window s.now at result }
{
    std::array::from_fn(|k| byte_at(s, at + k))
}

// The value at a place, its bytes past the end 0.
pub(crate) fn stored_at<T: Stored>(s: &[u8], at: usize) -> T
    requires { at < 0x8000_0000_0000_0000 }
    ensures { result ≡ T.value_at s.now at }
{
    if at + T::SIZE <= s.len() {
        return T::read(s, at);
    }
    T::read(&padded(s, at), 0)
}

// All bytes of a value.
#[tactic(auto, using(crate::proofs::Puts::put_over))]
pub(crate) fn bytes_of<T: Stored, const N: usize>(x: T) -> [u8; N]
    requires { T.SIZE ≡ N }
    ensures { result ≡ T.bytes x }
{
    let mut bytes = [0; N];
    x.write(&mut bytes, 0);
    bytes
}
