// What a walk shows of a node, a junction and a chosen link.
ghost use Rattle.std.specs.Prelude.{◌≡◌, List, ℕ};
ghost use Rattle.walks.specs.Shown.{shown_node, shown_junction, shown_values, shown_link};
ghost use Rattle.exports.specs.Found.{told, told_of, value_told, is_place, place_or_zero, seen_words};
ghost use Rattle.exports.specs.Found.{seen_junction_words, seen_link_words};
ghost use Rattle.cells.specs.declared.node_entry.NodeEntry.{NodeEntry};
ghost use Rattle.cells.specs.declared.link.PathLink.{PathLink};
ghost use Rattle.cells.specs.declared.junction_entry.JunctionEntry.{JunctionEntry};
ghost use Rattle.records.specs.declared.junction_ref.NodeJunctionRef.{NodeJunctionRef};
ghost use Rattle.cells.specs.Memory.{memory};

use crate::answers::{tell, tell_as};
use cells::junction_entry::JunctionEntry;
use cells::link::PathLink;
use cells::node_entry::NodeEntry;
use cells::ynd::Ynd;
use records::junction_ref::NodeJunctionRef;
use walks::shown::{SeenJunction, SeenLink, SeenNode};

fn is_place(p: Option<usize>) -> usize
    ensures { result ≡ is_place p }
{
    p.is_some() as usize
}

fn place_or_zero(p: Option<usize>) -> usize
    ensures { result ≡ place_or_zero p }
{
    p.unwrap_or(0)
}

pub(crate) fn seen_words(s: SeenNode) -> [usize; 19]
    ensures { result ≡ seen_words s }
{
    let n = s.node;
    let p = n.position;
    let j = s.junction;
    [
        n.area_id as usize,
        n.street_name as usize,
        p.x as usize,
        p.y as usize,
        p.z as usize,
        n.flags0 as usize,
        n.flags1 as usize,
        n.flags2 as usize,
        n.flags3 as usize,
        n.flags4 as usize,
        n.flags5 as usize,
        n.unused0 as usize,
        n.unused1 as usize,
        n.unused2 as usize,
        n.unused3 as usize,
        n.unused4 as usize,
        s.link_count,
        is_place(j),
        place_or_zero(j),
    ]
}

// Of the node at a place: area, street, the bits of its position, flags0 to flags5, the five unused fields, link
// count, 1 if it has a junction and else 0, the junction's place.
#[unsafe(no_mangle)]
pub extern "C" fn ynd_shown_node(
    ynd: &Ynd,
    nodes: &[NodeEntry],
    links: &[PathLink],
    junctions: &[JunctionEntry],
    refs: &[NodeJunctionRef],
    at: usize,
    shown: &mut [usize; 19],
    place: &mut usize,
) -> u32
    ensures { (heights : List ℕ) → told result place.new shown.new
        ≡ told_of (shown_node (memory ynd.now nodes.now links.now
        junctions.now heights refs.now) at) seen_words shown.old }
{
    let r = walks::shown::shown_node(*ynd, nodes, links, junctions, refs, at);
    tell_as(r, seen_words, shown, place)
}

pub(crate) fn seen_junction_words(j: SeenJunction) -> [u32; 6]
    ensures { result ≡ seen_junction_words j }
{
    [j.x, j.y, j.min_z, j.max_z, j.width as u32, j.height as u32]
}

// Of the junction at a place: the bits of its corner and heights, width, height.
#[unsafe(no_mangle)]
pub extern "C" fn ynd_shown_junction(
    ynd: &Ynd,
    junctions: &[JunctionEntry],
    at: usize,
    shown: &mut [u32; 6],
    place: &mut usize,
) -> u32
    ensures { (nodes : List NodeEntry) (links : List PathLink) (heights : List ℕ) (refs : List NodeJunctionRef)
        → told result
        place.new shown.new
        ≡ told_of (shown_junction
        (memory ynd.now nodes links junctions.now heights refs) at) seen_junction_words shown.old }
{
    let r = walks::shown::shown_junction(*ynd, junctions, at);
    tell_as(r, seen_junction_words, shown, place)
}

// The heightmap values of the junction at a place, copied to the front of the lent list; `count` gets how many they
// are.
// A lent list that is too short for them is 7 at 3, as the heights are.
#[unsafe(no_mangle)]
pub extern "C" fn ynd_shown_values(
    ynd: &Ynd,
    junctions: &[JunctionEntry],
    heights: &[u8],
    at: usize,
    values: &mut [u8],
    count: &mut usize,
    place: &mut usize,
) -> u32
    ensures answer { (nodes : List NodeEntry) (links : List PathLink) (refs : List NodeJunctionRef)
        → told result place.new
        count.new
        ≡ value_told (shown_values (memory ynd.now nodes links junctions.now
        heights.now refs) at
        values.old).answer count.old }
    ensures values_after { (nodes : List NodeEntry) (links : List PathLink) (refs : List NodeJunctionRef) → values.new
        ≡ (shown_values (memory ynd.now nodes links junctions.now heights.now refs) at
        values.old).values }
{
    let r = walks::shown::shown_values(*ynd, junctions, heights, at, values);
    tell(r, count, place)
}

pub(crate) fn seen_link_words(link: Option<SeenLink>) -> [u8; 5]
    ensures { result ≡ seen_link_words link }
{
    match link {
        Some(l) => [1, l.flags0, l.flags1, l.flags2, l.length],
        None => [0; 5],
    }
}

// Of the link that a byte chooses at a place: 1, its three flags and its length; five zeros where there is no such
// link.
#[unsafe(no_mangle)]
pub extern "C" fn ynd_shown_link(
    ynd: &Ynd,
    nodes: &[NodeEntry],
    links: &[PathLink],
    at: usize,
    choice: u8,
    shown: &mut [u8; 5],
    place: &mut usize,
) -> u32
    ensures { (junctions : List JunctionEntry) (heights : List ℕ) (refs : List NodeJunctionRef) → told result
        place.new shown.new
        ≡ told_of (shown_link (memory ynd.now nodes.now links.now junctions
        heights refs) at choice) seen_link_words shown.old }
{
    let r = walks::shown::shown_link(*ynd, nodes, links, at, choice);
    tell_as(r, seen_link_words, shown, place)
}
