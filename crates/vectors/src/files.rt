// A file read, written, renumbered and written again, in lists of the lengths that the record says.
//   0 length of the system section, 2 of the graphics section, 4 entries lent: nodes, links, junctions, heightmap
//   values, refs,
//   14 section lent, 16 new places lent, 18 whether the scratch is long enough,
//   19 number and place of reading, 22 of writing, 25 of renumbering, 28 of writing again,
//   31 length of what is written, 33 of what is written again; 35 the sections, what is written, what is written
//   again.
// Of what is written the page block, 1,040 bytes from 112 on, is left out.
use crate::parts::{after, agrees, answer_at, first, length_at, upto_mut};
use crate::room::{Cell, Desk, SmallRoom};
use cells::counts::Counts;
use records::bytes::byte_at;

// Whether the page block is zero but for 128 at its offset 8.
fn page_block(written: &[u8]) -> bool {
    (112..1152).all(|i| byte_at(written, i) == if i == 120 { 128 } else { 0 })
}

fn same_written(written: &[u8], expected: &[u8]) -> bool {
    page_block(written)
        && first(written, 112) == first(expected, 112)
        && after(written, 1152) == after(expected, 112)
}

// Renumbered, and written again.
fn renumbered(b: &[u8], expected: &[u8], cell: &mut Cell<'_>, desk: &mut Desk<'_>) -> bool {
    let a = cell.renumber(desk);
    let w = cell.write(desk.section);
    let same = |n| same_written(first(desk.section, n), expected);
    agrees(answer_at(b, 25), a, |_| true) && agrees(answer_at(b, 28), w, same)
}

// Written; then renumbered.
fn written(b: &[u8], expected: &[u8], cell: &mut Cell<'_>, desk: &mut Desk<'_>) -> bool {
    let w = cell.write(desk.section);
    let own = first(expected, length_at(b, 31));
    agrees(
        answer_at(b, 22),
        w,
        |n| same_written(first(desk.section, n), own),
    ) && renumbered(b, after(expected, length_at(b, 31)), cell, desk)
}

// Read; then written.
fn replayed(b: &[u8], cell: &mut Cell<'_>, desk: &mut Desk<'_>) -> bool {
    let files = after(b, 35);
    let behind = after(files, length_at(b, 0));
    let system = first(files, length_at(b, 0));
    let graphics = first(behind, length_at(b, 2));
    let read = cell.read(system, graphics);
    agrees(answer_at(b, 19), read, |_| true)
        && (read.is_err() || written(b, after(behind, length_at(b, 2)), cell, desk))
}

// How much of each list is lent.
fn lent(b: &[u8]) -> Counts {
    Counts {
        nodes: length_at(b, 4),
        links: length_at(b, 6),
        junctions: length_at(b, 8),
        heights: length_at(b, 10),
        refs: length_at(b, 12),
    }
}

pub fn file(b: &[u8]) -> bool {
    let mut room = SmallRoom::new();
    let mut scratch = [0u32; 65536];
    let mut places = [0u32; 64];
    let mut section = [0xA5u8; 8192];
    let mut desk = Desk {
        scratch: upto_mut(&mut scratch, 65535 + byte_at(b, 18) as usize),
        places: upto_mut(&mut places, length_at(b, 16)),
        section: upto_mut(&mut section, length_at(b, 14)),
    };
    replayed(b, &mut room.cell().cut(lent(b)), &mut desk)
}
