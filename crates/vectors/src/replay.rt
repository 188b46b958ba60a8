// One record after another.
ghost use Rattle.std.specs.Prelude.{◌≤◌, length};
ghost use Rattle.std.specs.Iterator.{at_most};

use records::bytes::u16_at;

// How many records there were, and how many agreed.
#[derive(Clone, Copy)]
pub struct Tally {
    pub records: usize,
    pub agreed: usize,
}

// The bytes from the next record on.
#[derive(Clone, Copy)]
struct Records<'a>(&'a [u8]);

// The last record may be cut off: it holds what is there.
impl<'a> Iterator for Records<'a> {
    type Item = &'a [u8];

    ghost remaining = { λ s. at_most (length s.0.now) };

    fn next(&mut self) -> Option<&'a [u8]> {
        if self.0.is_empty() {
            return None;
        }
        let n = record_length(self.0).min(self.0.len());
        let (record, rest) = self.0.split_at(n);
        self.0 = rest;
        Some(record)
    }
}

// A record's length: three bytes, and as many as they say.
fn record_length(record: &[u8]) -> usize
    ensures { (3 ≤ result) × (result ≤ 65538) }
{
    3 + u16_at(record, 1) as usize
}

// Whether a record's answer is the one that the library gives. One that is cut off does not agree.
fn record_agrees(record: &[u8]) -> bool {
    match record.get(3..record_length(record)) {
        Some(body) => agrees(record[0], body),
        None => false,
    }
}

// The kind is a byte of the file: a number and not an enum, since each has one call and nothing else. Never inlined, so
// that the room of these is not on the stack beside that of a large file.
#[inline(never)]
fn small_agrees(kind: u8, body: &[u8]) -> bool {
    match kind {
        1 => crate::steps::steps(body),
        2 => crate::steps::metres(body),
        3 => crate::grid::cell_for_position(body),
        4 => crate::steps::length(body),
        5 => crate::names::file_name(body),
        6 => crate::grid::grid_cell(body),
        7 => crate::grid::area(body),
        8 => crate::steps::lane_offset(body),
        9 => crate::files::file(body),
        10 => crate::edits::links(body),
        11 => crate::edits::junction(body),
        13 => crate::cell::walk(body),
        14 => crate::cell::sound(body),
        15 => crate::junctions::junctions(body),
        16 => crate::near::within(body),
        17 => crate::near::nearest(body),
        18 => crate::round_files::file(body),
        19 => crate::cell::follow(body),
        20 => crate::round_files::long(body),
        21 => crate::shortest::path(body),
        22 => crate::crossing::crossings(body),
        23 => crate::round_files::version_file(body),
        24 => crate::cell::follow_version(body),
        _ => false,
    }
}

fn agrees(kind: u8, body: &[u8]) -> bool {
    if kind == 12 {
        crate::large::large(body)
    } else {
        small_agrees(kind, body)
    }
}

pub fn replay(bytes: &[u8]) -> Tally {
    let records = Records(bytes);
    Tally {
        records: records.count(),
        agreed: records.filter(|record| record_agrees(record)).count(),
    }
}
