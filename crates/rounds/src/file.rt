// The round file (T-03, T-11): the mark RND, a version, in version 2 an area, the start node's number, the count of
// choices, then a byte a choice. What follows the head is read and written by functions that know no version.
ghost use Rattle.std.specs.Prelude.{◌≡◌, ◌≤◌};
ghost use Rattle.rounds.specs.Round.{head_bytes, has_version, rest_read, round_read, round_left};
ghost use Rattle.rounds.specs.Round.{written, written_left, in_version, version_read, version_left};
ghost use Rattle.rounds.specs.declared.file.Version.TheVariants.{One, Two};

use cells::replace::put_at;
use numbers::refusal::{Lent, Refusal};
use records::bytes::u16_at;

// The version of a round file. Version 2 says of which area the round is.
#[derive(Clone, Copy)]
pub enum Version {
    One,
    Two(u16),
}

// A round as read: the start node's number, and how many choices.
#[derive(Clone, Copy)]
pub struct Round {
    pub start: u16,
    pub count: usize,
}

// The same, with the version that was found.
#[derive(Clone, Copy)]
pub struct VersionRound {
    pub version: Version,
    pub start: u16,
    pub count: usize,
}

// ---- reading

// Whether the first five bytes are the mark and this version.
fn has_version(file: &[u8], version: u16) -> bool
    ensures { result ≡ has_version version file.now }
{
    5 <= file.len() && file.starts_with(b"RND") && u16_at(file, 3) == version
}

// Reads what follows a head of `at` bytes.
#[tactic(auto, using(crate::proofs::Files::read_laws), unfolding(crate::specs::Round::rest_read))]
fn read_rest(file: &[u8], at: u32, choices: &mut [u8]) -> Result<Round, Refusal>
    requires { at ≤ 7 }
    ensures { round_left result choices.new
        ≡ rest_read at file.now choices.old }
{
    let from = at as usize + 4;
    if file.len() < from {
        return Err(Refusal::WrongLength);
    }
    let count = u16_at(file, at + 2) as usize;
    if file.len() != from + count {
        return Err(Refusal::WrongLength);
    }
    if choices.len() < count {
        return Err(Refusal::TooShort(Lent::List));
    }
    put_at(choices, 0, &file[from..]);
    Ok(Round {
        start: u16_at(file, at),
        count,
    })
}

// Reads a file of version 1. The choices go into the first entries; later ones stay, and a refusal changes nothing.
#[tactic(auto, unfolding(crate::specs::Round::round_read))]
pub fn read_round(file: &[u8], choices: &mut [u8]) -> Result<Round, Refusal>
    ensures { round_left result choices.new ≡ round_read file.now choices.old }
{
    if !has_version(file, 1) {
        return Err(Refusal::NoRoundFile);
    }
    read_rest(file, 5, choices)
}

// The same, with the version that the head says.
fn read_in_version(
    version: Version,
    file: &[u8],
    at: u32,
    choices: &mut [u8],
) -> Result<VersionRound, Refusal>
    requires { at ≤ 7 }
    ensures { version_left result choices.new
        ≡ in_version version (rest_read at file.now choices.old) }
{
    let Round { start, count } = read_rest(file, at, choices)?;
    Ok(VersionRound {
        version,
        start,
        count,
    })
}

// Reads a file of either version, as `read_round` reads one of version 1.
#[tactic(auto, unfolding(crate::specs::Round::version_read))]
pub fn read_version(file: &[u8], choices: &mut [u8]) -> Result<VersionRound, Refusal>
    ensures { version_left result choices.new ≡ version_read file.now choices.old }
{
    if has_version(file, 1) {
        return read_in_version(Version::One, file, 5, choices);
    }
    if has_version(file, 2) {
        return read_in_version(Version::Two(u16_at(file, 5)), file, 7, choices);
    }
    Err(Refusal::NoRoundFile)
}

// ---- writing

// Writes a round behind the bytes that say its version.
#[tactic(auto, using(crate::proofs::Files::write_laws), unfolding(crate::specs::Round::written))]
fn write_after(head: &[u8], start: u16, choices: &[u8], file: &mut [u8]) -> Result<usize, Refusal>
    ensures { written_left result file.new
        ≡ written head.now start choices.now file.old }
{
    let count = u16::try_from(choices.len()).or(Err(Refusal::WrongLength))?;
    let n = head.len();
    let end = n + 4 + choices.len();
    if file.len() < end {
        return Err(Refusal::TooShort(Lent::List));
    }
    put_at(file, 0, head);
    file[n..n + 2].copy_from_slice(&start.to_le_bytes());
    file[n + 2..n + 4].copy_from_slice(&count.to_le_bytes());
    put_at(file, n + 4, choices);
    Ok(end)
}

#[tactic(auto, unfolding(crate::specs::Round::head_bytes, records::specs::Bytes::number_bytes))]
fn head_two(area: u16) -> [u8; 7]
    ensures { result ≡ head_bytes (Two area) }
{
    let [low, high] = area.to_le_bytes();
    [b'R', b'N', b'D', 2, 0, low, high]
}

// Writes a round in the version that it has, and answers the file's length. Later bytes stay, and a refusal changes
// nothing.
#[tactic(auto, unfolding(crate::specs::Round::head_bytes))]
pub fn write_version(
    version: Version,
    start: u16,
    choices: &[u8],
    file: &mut [u8],
) -> Result<usize, Refusal>
    ensures { written_left result file.new
        ≡ written (head_bytes version) start choices.now file.old }
{
    match version {
        Version::One => write_after(b"RND\x01\0", start, choices, file),
        Version::Two(area) => write_after(&head_two(area), start, choices, file),
    }
}

// Writes a file of version 1.
pub fn write_round(start: u16, choices: &[u8], file: &mut [u8]) -> Result<usize, Refusal>
    ensures { written_left result file.new
        ≡ written (head_bytes One) start choices.now file.old }
{
    write_version(Version::One, start, choices, file)
}
