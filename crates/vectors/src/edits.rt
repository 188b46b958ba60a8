// Links and junctions added.
use crate::parts::{agrees, answer_at, first, length_at};
use crate::room::{Cell, Room};
use cells::counts::Counts;
use cells::junction::PathJunction;
use cells::link::PathLink;
use numbers::math::{Vec2, Vec3};
use numbers::refusal::Refusal;
use records::bytes::byte_at;

// n links added to the node at a place, up to the first that is refused.
fn add_links(cell: &mut Cell<'_>, place: usize, n: usize) -> Result<(), Refusal> {
    for _ in 0..n {
        cell.add_link(place, PathLink::to(1, 0))?;
    }
    Ok(())
}

// Links added to a cell of one bare node, which is then written.
fn with_links(b: &[u8], cell: &mut Cell<'_>, section: &mut [u8]) -> bool {
    if cell.add_node(1, Vec3::default()).is_err() {
        return false;
    }
    let added = add_links(cell, byte_at(b, 0) as usize, length_at(b, 1));
    let w = cell.write(section);
    agrees(answer_at(b, 5), added, |_| true)
        && agrees(answer_at(b, 8), w, |length| length == length_at(b, 11))
}

// A cell of one bare node: 0 the place that links are added to, 1 how many, 3 entries lent for them; 5 number and
// place of the first that is refused, 8 of writing, 11 the length written.
pub fn links(b: &[u8]) -> bool {
    let mut room = Room::<1, 300, 1, 1, 1>::new();
    let mut section = [0u8; 8192];
    let lent = Counts {
        nodes: 1,
        links: length_at(b, 3),
        junctions: 1,
        heights: 1,
        refs: 1,
    };
    with_links(b, &mut room.cell().cut(lent), &mut section)
}

// 0 width, 1 height, 2 how many values; 4 number and place.
pub fn junction(b: &[u8]) -> bool {
    let mut room = Room::<1, 1, 1, 300, 1>::new();
    let j = PathJunction {
        width: byte_at(b, 0),
        height: byte_at(b, 1),
        ..PathJunction::default()
    };
    let values = [7u8; 300];
    let added = room.cell().add_junction(j, first(&values, length_at(b, 2)));
    agrees(answer_at(b, 4), added, |_| true)
}
