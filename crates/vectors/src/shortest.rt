// T-06: a shortest path in the cell of a file.
use crate::cell::same_places;
use crate::parts::{after, agrees, answer_at, first, length_at, number_at, upto_mut};
use crate::room::{Cell, SmallRoom};
use paths::path::shortest_path;

// What a search is lent.
#[derive(Drop)]
struct Search<'a> {
    scratch: &'a mut [u32],
    choices: &'a mut [u8],
    places: &'a mut [u32],
}

// `rest` is what stands behind the section: both lists as the call leaves them.
fn found(b: &[u8], rest: &[u8], cell: &Cell<'_>, lent: Search<'_>) -> bool {
    let Search {
        scratch,
        choices,
        places,
    } = lent;
    let s = shortest_path(
        cell.ynd,
        cell.nodes,
        cell.links,
        length_at(b, 2),
        length_at(b, 4),
        scratch,
        choices,
        places,
    );
    agrees(answer_at(b, 12), s, |p| {
        p.distance as usize == number_at(b, 15) && p.links == length_at(b, 19)
    }) && *choices == *first(rest, choices.len())
        && same_places(places, after(rest, choices.len()))
}

// A shortest path, where no other walk has its sum.
//   0 length of the system section, 2 from, 4 to, entries lent: 6 scratch, 8 choices, 10 places; 12 number and place;
//   15 the sum, 19 how many links; 21 the system section, and the lists for the choices and for the places as the call
//   leaves them, which first held 165 and 65535 everywhere.
pub fn path(b: &[u8]) -> bool {
    let mut room = SmallRoom::new();
    let mut scratch = [7u32; 256];
    let mut choices = [165u8; 64];
    let mut places = [65535u32; 64];
    let mut cell = room.cell();
    let file = after(b, 21);
    if cell.read(first(file, length_at(b, 0)), &[]).is_err() {
        return false;
    }
    let lent = Search {
        scratch: upto_mut(&mut scratch, length_at(b, 6)),
        choices: upto_mut(&mut choices, length_at(b, 8)),
        places: upto_mut(&mut places, length_at(b, 10)),
    };
    found(b, after(file, length_at(b, 0)), &cell, lent)
}
