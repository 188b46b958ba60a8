// The cell of a small file: a walk in it, and whether it is sound.
use crate::parts::{after, agrees, answer_at, ended, first, length_at, upto, upto_mut};
use crate::room::{Cell, SmallRoom};
use crate::round_files::version_of;
use numbers::refusal::Refusal;
use records::bytes::{byte_at, u16_at};
use walks::walk::Walked;

// The whole list, two bytes an entry.
pub fn same_places(visited: &[u32], expected: &[u8]) -> bool {
    visited.iter().enumerate().all(|(i, place)| *place == u16_at(after(expected, 2 * i), 0) as u32)
}

// Goes through the cell of a file, by a walk or a round from the start that the record says.
fn gone<F>(b: &[u8], go: F) -> bool
where
    F: FnOnce(&Cell<'_>, u16, &[u8], &mut [u32]) -> Result<Walked, Refusal>,
    requires { F.IsAlwaysCallable go }
{
    let mut room = SmallRoom::new();
    let mut visited = [65535u32; 64];
    let mut cell = room.cell();
    let file = after(b, 18);
    if cell.read(first(file, length_at(b, 0)), &[]).is_err() {
        return false;
    }
    let rest = after(file, length_at(b, 0));
    let lent = upto_mut(&mut visited, length_at(b, 6));
    let w = go(&cell, u16_at(b, 2), first(rest, length_at(b, 4)), lent);
    agrees(answer_at(b, 8), w, |walk| {
        let end = (byte_at(b, 11), u16_at(b, 12), u16_at(b, 14));
        walk.count == length_at(b, 16) && ended(walk.end) == end
    }) && same_places(lent, after(rest, length_at(b, 4)))
}

// A walk in the cell of a file.
//   0 length of the system section, 2 start, 4 how many choices, 6 entries lent for the places; 8 number and place;
//   11 the end: 0 done, 1 no-link, 2 left, 3 no-node, 12 area and 14 number of left; 16 how many places were visited;
//   18 the system section, the choices, the list for the places as the walk leaves it, which first held 65535
//   everywhere.
pub fn walk(b: &[u8]) -> bool {
    gone(b, |cell, start, choices, visited| {
        walks::walk::walk(
            cell.ynd,
            cell.nodes,
            cell.links,
            start as usize,
            choices,
            visited,
        )
    })
}

// A round in the cell of a file: as for a walk, but the start is a number.
pub fn follow(b: &[u8]) -> bool {
    gone(b, |cell, start, choices, visited| {
        rounds::follow::follow_round(cell.ynd, cell.nodes, cell.links, start, choices, visited)
    })
}

// The same of a round of either version. 0 the version, 2 its area; then as for a walk.
pub fn follow_version(b: &[u8]) -> bool {
    let version = version_of(u16_at(b, 0), u16_at(b, 2));
    gone(after(b, 4), |cell, start, choices, visited| {
        rounds::follow::follow_version(
            cell.ynd, cell.nodes, cell.links, version, start, choices, visited,
        )
    })
}

// The lists, cut to the lengths that the record says.
fn judged(b: &[u8], cell: &Cell<'_>, scratch: &mut [u32]) -> bool {
    let s = walks::sound::sound(
        cell.ynd,
        upto(cell.nodes, length_at(b, 2)),
        upto(cell.links, length_at(b, 4)),
        upto(cell.refs, length_at(b, 6)),
        upto_mut(scratch, 65535 + byte_at(b, 8) as usize),
    );
    agrees(answer_at(b, 9), s, |sound| sound as u8 == byte_at(b, 12))
}

// Whether the cell of a file is sound.
//   0 length of the system section, 2 entries lent of nodes, 4 of links, 6 of refs, 8 whether the scratch is long
//   enough;
//   9 number and place; 12 whether it is sound; 13 the system section.
pub fn sound(b: &[u8]) -> bool {
    let mut room = SmallRoom::new();
    let mut scratch = [7u32; 65536];
    let mut cell = room.cell();
    cell.read(first(after(b, 13), length_at(b, 0)), &[]).is_ok() && judged(b, &cell, &mut scratch)
}
