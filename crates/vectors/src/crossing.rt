// T-09: walks that cross the members of a set, and members renumbered between them.
use crate::parts::{after, agrees, ended, first, upto, upto_mut};
use cells::counts::Counts;
use cells::junction_entry::JunctionEntry;
use cells::link::PathLink;
use cells::node_entry::NodeEntry;
use cells::ynd::Ynd;
use records::bytes::{byte_at, u16_at};
use records::junction_ref::NodeJunctionRef;
use sets::crossing::{LocationWords, crossing_walk};
use sets::entry::MemberWords;
use sets::join::join;
use sets::renumber::renumber_member;

// A set of three small cells at most, none of which has a junction.
#[derive(Drop)]
struct Set {
    count: usize,
    members: [MemberWords; 3],
    nodes: [NodeEntry; 12],
    links: [PathLink; 24],
}

// The first of some nodes: its number, flags1, where its links start, and how many they are.
fn node_at(b: &[u8], area_id: u16) -> NodeEntry {
    NodeEntry {
        area_id,
        node_id: byte_at(b, 0) as u16,
        flags1: byte_at(b, 1),
        link_id: byte_at(b, 2) as u32,
        link_count: byte_at(b, 3),
        ..NodeEntry::default()
    }
}

// The first of some links: the area and the number that it names.
fn link_at(b: &[u8]) -> PathLink {
    PathLink {
        area_id: u16_at(b, 0),
        node_id: byte_at(b, 2) as u16,
        ..PathLink::default()
    }
}

// A cell of nodes and links joins; whether it did.
fn join_cell(
    set: &mut Set,
    ynd: Ynd,
    nodes: &[NodeEntry],
    links: &[PathLink],
    sizes: Counts,
) -> bool {
    let mut junctions = [JunctionEntry::default(); 1];
    let mut heights = [0u8; 1];
    let mut refs = [NodeJunctionRef::default(); 1];
    let joined = join(
        set.count,
        &mut set.members,
        &mut set.nodes,
        &mut set.links,
        &mut junctions,
        &mut heights,
        &mut refs,
        ynd,
        nodes,
        links,
        &[],
        &[],
        &[],
        sizes,
    );
    match joined {
        Ok(count) => {
            set.count = count;
            true
        }
        Err(_) => false,
    }
}

// A cell joins.
//   0 its area, 2 how many nodes, 3 how many links; then its nodes, four bytes each, and its links, three bytes each.
fn joins(set: &mut Set, b: &[u8]) -> bool {
    let area = u16_at(b, 0);
    let n = byte_at(b, 2) as usize;
    let drawn = after(b, 4);
    let nodes = [node_at(drawn, area), node_at(after(drawn, 4), area)];
    let l = after(drawn, 4 * n);
    let links = [
        link_at(l),
        link_at(after(l, 3)),
        link_at(after(l, 6)),
        link_at(after(l, 9)),
    ];
    let ynd = Ynd {
        node_count: byte_at(b, 2) as u32,
        link_count: byte_at(b, 3) as u32,
        ..Ynd::new()
    };
    let sizes = Counts {
        nodes: n,
        links: byte_at(b, 3) as usize,
        ..Counts::default()
    };
    join_cell(set, ynd, &nodes, &links, sizes)
}

fn cell_length(b: &[u8]) -> usize {
    4 + 4 * byte_at(b, 2) as usize + 3 * byte_at(b, 3) as usize
}

// The whole list, a byte each for the member and its place.
fn same_locations(visited: &[LocationWords], expected: &[u8]) -> bool {
    visited.iter().enumerate().all(|(i, at)| {
        let told = after(expected, 2 * i);
        at[0] == byte_at(told, 0) as u32 && at[1] == byte_at(told, 1) as u32
    })
}

// A walk.
//   1 member, 2 start, 3 how many choices, 4 entries lent for the locations; 5 number, 6 place; 7 the end: 0 done,
//   1 no-link, 2 left, 3 no-node, 8 area and 10 number of left; 11 how many were visited; 12 the choices, and the list
//   for the locations as the walk leaves it, which first held 255 everywhere.
fn walked(set: &Set, b: &[u8]) -> bool {
    let n = byte_at(b, 3) as usize;
    let mut visited = [[255u32; 2]; 16];
    let lent = upto_mut(&mut visited, byte_at(b, 4) as usize);
    let w = crossing_walk(
        upto(&set.members, set.count),
        &set.nodes,
        &set.links,
        byte_at(b, 1) as usize,
        byte_at(b, 2) as usize,
        first(after(b, 12), n),
        lent,
    );
    agrees((byte_at(b, 5) as u32, byte_at(b, 6) as usize), w, |walk| {
        let end = (byte_at(b, 7), u16_at(b, 8), byte_at(b, 10) as u16);
        walk.count == byte_at(b, 11) as usize && ended(walk.end) == end
    }) && same_locations(lent, after(b, 12 + n))
}

// A member renumbered.
//   1 member, 2 entries lent for the new places; 3 number, 4 place; 5 the list of them, which first held 255
//   everywhere.
fn renumbered(set: &mut Set, b: &[u8]) -> bool {
    let mut scratch = [7u32; 65536];
    let mut places = [255u32; 16];
    let lent = upto_mut(&mut places, byte_at(b, 2) as usize);
    let mut refs = [NodeJunctionRef::default(); 1];
    let r = renumber_member(
        upto_mut(&mut set.members, set.count),
        &mut set.nodes,
        &mut set.links,
        &[],
        &[],
        &mut refs,
        &mut scratch,
        lent,
        byte_at(b, 1) as usize,
    );
    let told = after(b, 5);
    agrees((byte_at(b, 3) as u32, byte_at(b, 4) as usize), r, |_| true)
        && lent
            .iter()
            .enumerate()
            .all(|(i, place)| *place == byte_at(told, i) as u32)
}

// 0 a walk, 1 a renumbering.
fn step_agrees(set: &mut Set, b: &[u8]) -> bool {
    match byte_at(b, 0) {
        0 => walked(set, b),
        1 => renumbered(set, b),
        _ => false,
    }
}

fn step_length(b: &[u8]) -> usize {
    match byte_at(b, 0) {
        0 => 12 + byte_at(b, 3) as usize + 2 * byte_at(b, 4) as usize,
        _ => 5 + byte_at(b, 2) as usize,
    }
}

// A set's walks and renumberings, one after the other.
//   0 how many cells join, 1 how many steps follow; 2 the cells, and the steps.
pub fn crossings(b: &[u8]) -> bool {
    let mut set = Set {
        count: 0,
        members: [[0; 20]; 3],
        nodes: [NodeEntry::default(); 12],
        links: [PathLink::default(); 24],
    };
    let mut rest = after(b, 2);
    for _ in 0..byte_at(b, 0) {
        if !joins(&mut set, rest) {
            return false;
        }
        rest = after(rest, cell_length(rest));
    }
    for _ in 0..byte_at(b, 1) {
        if !step_agrees(&mut set, rest) {
            return false;
        }
        rest = after(rest, step_length(rest));
    }
    rest.is_empty()
}
