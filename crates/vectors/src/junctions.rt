// The junctions of a file: every field and every value, as reading leaves them, after renumbering, and after
// write-then-read.
//   0 length of the system section, 2 how many junctions; 4 the section; then, 22 bytes a junction, the bits of x, y,
//   min_z and max_z, 16 width, 17 height, 18 where its values start in what follows, 20 how many they are; then the
//   values of all.
use crate::parts::{after, first, length_at};
use crate::room::{Cell, Desk, SmallRoom};
use cells::junction::PathJunction;
use numbers::bits::bits_of;
use records::bytes::{byte_at, u32_at};

// By bits: two that are no number are equal too.
fn fields_agree(j: PathJunction, e: &[u8]) -> bool {
    bits_of(j.position.x) == u32_at(e, 0)
        && bits_of(j.position.y) == u32_at(e, 4)
        && bits_of(j.min_z) == u32_at(e, 8)
        && bits_of(j.max_z) == u32_at(e, 12)
        && j.width == byte_at(e, 16)
        && j.height == byte_at(e, 17)
}

// The n values that the record counts; behind its end a record reads as zeros.
fn values_agree(cell: &Cell<'_>, place: usize, n: usize, expected: &[u8]) -> bool {
    (0..n).all(|k| cell.height(place, k) == Ok(byte_at(expected, k)))
}

// `e` is what the record says of the junction at a place.
fn one_agrees(cell: &Cell<'_>, place: usize, e: &[u8], values: &[u8]) -> bool {
    let Ok(j) = cell.junction(place) else {
        return false;
    };
    let own = after(values, length_at(e, 18));
    fields_agree(j, e) && values_agree(cell, place, length_at(e, 20), own)
}

// Every junction, of which there is room for 16; `told` is what the record says of them.
fn all_agree(b: &[u8], told: &[u8], cell: &Cell<'_>) -> bool {
    let n = length_at(b, 2);
    if 16 < n || cell.ynd.junction_count as usize != n {
        return false;
    }
    let values = after(told, 22 * n);
    (0..n).all(|i| one_agrees(cell, i, after(told, 22 * i), values))
}

// After renumbering, and then as written and read back.
fn replayed(b: &[u8], told: &[u8], cell: &mut Cell<'_>, desk: &mut Desk<'_>) -> bool {
    cell.renumber(desk).is_ok()
        && all_agree(b, told, cell)
        && cell.write_then_read(desk.section).is_ok()
        && all_agree(b, told, cell)
}

// Read, the graphics section empty; then replayed.
pub fn junctions(b: &[u8]) -> bool {
    let mut room = SmallRoom::new();
    let mut scratch = [0u32; 65536];
    let mut places = [0u32; 64];
    let mut section = [0xA5u8; 8192];
    let mut cell = room.cell();
    let mut desk = Desk {
        scratch: &mut scratch,
        places: &mut places,
        section: &mut section,
    };
    let file = after(b, 4);
    let told = after(file, length_at(b, 0));
    cell.read(first(file, length_at(b, 0)), &[]).is_ok()
        && all_agree(b, told, &cell)
        && replayed(b, told, &mut cell, &mut desk)
}
