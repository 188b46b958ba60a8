// T-03, T-11: round files that are read and written back, and rounds of very many choices that are written.
use crate::parts::{after, agrees, answer_at, first, length_at, number_at, upto, upto_mut};
use numbers::refusal::Refusal;
use records::bytes::u16_at;
use rounds::file::{Version, read_round, read_version, write_round, write_version};

// What `write` writes into memory of the file's length is the file.
fn written_back<F>(file: &[u8], write: F) -> bool
where
    F: FnOnce(&mut [u8]) -> Result<usize, Refusal>,
    requires { F.IsAlwaysCallable write }
{
    let mut to = [0u8; 2048];
    let lent = upto_mut(&mut to, file.len());
    write(lent).is_ok() && *lent == *file
}

fn told(b: &[u8], start: u16, count: usize) -> bool {
    start == u16_at(b, 7) && count == length_at(b, 9)
}

// The file that stands at a place of the record is read by `read`; `same` sees it, what is read, and the choices.
//   0 its length, 2 entries lent for the choices; 4 number and place; 7 the start number, 9 how many choices; behind
//   the file the list for the choices as reading leaves it, which first held 165 everywhere.
fn read_agrees<T: Copy, R, S>(b: &[u8], at: usize, read: R, same: S) -> bool
where
    R: FnOnce(&[u8], &mut [u8]) -> Result<T, Refusal>,
    S: FnOnce(&[u8], T, &[u8]) -> bool,
    requires { R.IsAlwaysCallable read × S.IsAlwaysCallable same }
{
    let mut list = [165u8; 1024];
    let choices = upto_mut(&mut list, length_at(b, 2));
    let rest = after(b, at);
    let file = first(rest, length_at(b, 0));
    let a = read(file, choices);
    agrees(answer_at(b, 4), a, |round| same(file, round, choices))
        && *choices == *after(rest, length_at(b, 0))
}

// A round file; an accepted one is written back. The file stands at 11.
pub fn file(b: &[u8]) -> bool {
    read_agrees(
        b,
        11,
        |file, choices| read_round(file, choices),
        |file, round, choices| {
            let choices = first(choices, round.count);
            told(b, round.start, round.count)
                && written_back(file, |lent| write_round(round.start, choices, lent))
        },
    )
}

// The version that a record says: 1, or 2 and an area.
pub fn version_of(number: u16, area: u16) -> Version {
    match number {
        1 => Version::One,
        _ => Version::Two(area),
    }
}

fn same_version(b: &[u8], version: Version) -> bool {
    match version {
        Version::One => u16_at(b, 11) == 1 && u16_at(b, 13) == 0,
        Version::Two(area) => u16_at(b, 11) == 2 && u16_at(b, 13) == area,
    }
}

// A round file of either version; an accepted one is written back in its version.
//   11 the version, 13 its area, 0 in version 1; 15 the file.
pub fn version_file(b: &[u8]) -> bool {
    read_agrees(
        b,
        15,
        |file, choices| read_version(file, choices),
        |file, round, choices| {
            let choices = first(choices, round.count);
            told(b, round.start, round.count)
                && same_version(b, round.version)
                && written_back(file, |lent| {
                    write_version(round.version, round.start, choices, lent)
                })
        },
    )
}

fn written_with(b: &[u8], choices: &[u8], to: &mut [u8]) -> bool {
    let w = write_round(
        u16_at(b, 0),
        upto(choices, number_at(b, 2)),
        upto_mut(to, number_at(b, 6)),
    );
    agrees(answer_at(b, 10), w, |length| length == number_at(b, 13))
}

// A round of many choices, all 7, that is written.
//   0 the start number, 2 how many choices, 6 bytes lent for the file; 10 number and place; 13 the length written.
pub fn long(b: &[u8]) -> bool {
    let choices = [7u8; 65537];
    let mut to = [165u8; 65600];
    written_with(b, &choices, &mut to)
}
