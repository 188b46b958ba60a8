// T-01: the nodes within reach of a point, and the nearest, over nodes that the record gives by the bits of x and y.
use crate::cell::same_places;
use crate::parts::{after, agrees, answer_at, length_at, upto, upto_mut};
use cells::node_entry::{NodeEntry, PositionBits};
use cells::ynd::Ynd;
use reach::reach::NearestNode;
use records::bytes::{byte_at, i16_at, u16_at, u32_at, u64_at};

fn placed(b: &[u8]) -> NodeEntry {
    NodeEntry {
        position: PositionBits {
            x: u32_at(b, 0),
            y: u32_at(b, 4),
            z: 0,
        },
        ..NodeEntry::default()
    }
}

// Eight bytes a node.
fn place_nodes(nodes: &mut [NodeEntry], b: &[u8]) {
    for (node, bits) in nodes.iter_mut().zip(b.chunks(8)) {
        *node = placed(bits);
    }
}

// A struct made by hand, with these counts.
fn cell_of(node_count: u32, junction_count: u32) -> Ynd {
    Ynd {
        node_count,
        junction_count,
        ..Ynd::new()
    }
}

// The list has so many places, in this order (T-08); behind them it holds what it held.
fn places_agree(places: &[u32], count: usize, expected: &[u8]) -> bool {
    same_places(upto(places, count), expected)
        && places.iter().skip(count).all(|place| *place == 65535)
}

fn listed(b: &[u8], nodes: &mut [NodeEntry], places: &mut [u32]) -> bool {
    let given = after(b, 23);
    place_nodes(nodes, given);
    let ynd = cell_of(u32_at(b, 8), u32_at(b, 12));
    let a = reach::reach::within(ynd, nodes, i16_at(b, 0), i16_at(b, 2), u16_at(b, 4), places);
    agrees(answer_at(b, 18), a, |count| count == length_at(b, 21))
        && places_agree(places, length_at(b, 21), after(given, 8 * length_at(b, 6)))
}

// The places within reach.
//   0 x, 2 y, 4 radius, 6 how many nodes are lent; 8 the struct's nodes, 12 its junctions; 16 entries lent for places;
//   18 number and place, 21 how many places; 23 the nodes, the places. The list first held 65535.
pub fn within(b: &[u8]) -> bool {
    let mut nodes = [NodeEntry::default(); 64];
    let mut places = [65535u32; 64];
    let nodes = upto_mut(&mut nodes, length_at(b, 6));
    listed(b, nodes, upto_mut(&mut places, length_at(b, 16)))
}

fn nearest_is(b: &[u8], found: Option<NearestNode>) -> bool {
    match found {
        Some(n) => byte_at(b, 17) == 1 && n.place == length_at(b, 18) && n.square == u64_at(b, 20),
        None => byte_at(b, 17) == 0,
    }
}

fn found(b: &[u8], nodes: &mut [NodeEntry]) -> bool {
    place_nodes(nodes, after(b, 28));
    let ynd = cell_of(u32_at(b, 6), u32_at(b, 10));
    let a = reach::reach::nearest(ynd, nodes, i16_at(b, 0), i16_at(b, 2));
    agrees(answer_at(b, 14), a, |found| nearest_is(b, found))
}

// The nearest node.
//   0 x, 2 y, 4 how many nodes are lent; 6 the struct's nodes, 10 its junctions; 14 number and place, 17 whether there
//   is one, 18 its place, 20 its squared distance; 28 the nodes.
pub fn nearest(b: &[u8]) -> bool {
    let mut nodes = [NodeEntry::default(); 64];
    found(b, upto_mut(&mut nodes, length_at(b, 4)))
}
