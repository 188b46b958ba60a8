// What a walk shows of a node, a junction and a chosen link of a set's member (T-09).
ghost use Rattle.std.specs.Prelude.{◌≡◌};
ghost use Rattle.sets.specs.CellSet.{cell_set};
ghost use Rattle.sets.specs.Lent.{Unlent};
ghost use Rattle.sets.specs.MemberLookup.{shown_node_member, shown_junction_member, shown_values_member};
ghost use Rattle.sets.specs.MemberLookup.{shown_link_member};
ghost use Rattle.exports.specs.Found.{told, told_of, value_told, seen_words, seen_junction_words, seen_link_words};

use crate::answers::{tell, tell_as};
use crate::showing::{seen_junction_words, seen_link_words, seen_words};
use cells::junction_entry::JunctionEntry;
use cells::link::PathLink;
use cells::node_entry::NodeEntry;
use records::junction_ref::NodeJunctionRef;

// Of the node at a place of the member, as `ynd_shown_node` says it.
#[unsafe(no_mangle)]
pub extern "C" fn ynd_member_shown_node(
    members: &[[u32; 20]],
    nodes: &[NodeEntry],
    links: &[PathLink],
    junctions: &[JunctionEntry],
    refs: &[NodeJunctionRef],
    member: usize,
    at: usize,
    shown: &mut [usize; 19],
    place: &mut usize,
) -> u32
    ensures { (u : Unlent members.now)
        → told result place.new shown.new
        ≡ told_of (shown_node_member (cell_set members.now nodes.now links.now junctions.now u.heights refs.now) member
        at) seen_words shown.old }
{
    let r = sets::shown_member::shown_node_member(
        members, nodes, links, junctions, refs, member, at,
    );
    tell_as(r, seen_words, shown, place)
}

// Of the junction at a place: the bits of its corner and heights, width, height.
#[unsafe(no_mangle)]
pub extern "C" fn ynd_member_shown_junction(
    members: &[[u32; 20]],
    junctions: &[JunctionEntry],
    member: usize,
    at: usize,
    shown: &mut [u32; 6],
    place: &mut usize,
) -> u32
    ensures { (u : Unlent members.now)
        → told result place.new shown.new
        ≡ told_of (shown_junction_member (cell_set members.now u.nodes u.links junctions.now u.heights u.refs) member
        at) seen_junction_words shown.old }
{
    let r = sets::shown_member::shown_junction_member(members, junctions, member, at);
    tell_as(r, seen_junction_words, shown, place)
}

// The heightmap values of the junction at a place, copied to the front of the lent list; `count` gets how many they
// are. A lent list that is too short for them is 7 at 3, as the heights are.
#[unsafe(no_mangle)]
pub extern "C" fn ynd_member_shown_values(
    members: &[[u32; 20]],
    junctions: &[JunctionEntry],
    heights: &[u8],
    member: usize,
    at: usize,
    values: &mut [u8],
    count: &mut usize,
    place: &mut usize,
) -> u32
    ensures answer { (u : Unlent members.now)
        → told result place.new count.new
        ≡ value_told (shown_values_member (cell_set members.now u.nodes u.links junctions.now heights.now u.refs) member
        at values.old).answer count.old }
    ensures values_after { (u : Unlent members.now)
        → values.new
        ≡ (shown_values_member (cell_set members.now u.nodes u.links junctions.now heights.now u.refs) member
        at values.old).values }
{
    let r = sets::shown_member::shown_values_member(
        members, junctions, heights, member, at, values,
    );
    tell(r, count, place)
}

// Of the link that a byte chooses at a place: 1, its three flags and its length; five zeros where there is no such
// link.
#[unsafe(no_mangle)]
pub extern "C" fn ynd_member_shown_link(
    members: &[[u32; 20]],
    nodes: &[NodeEntry],
    links: &[PathLink],
    member: usize,
    at: usize,
    choice: u8,
    shown: &mut [u8; 5],
    place: &mut usize,
) -> u32
    ensures { (u : Unlent members.now)
        → told result place.new shown.new
        ≡ told_of (shown_link_member (cell_set members.now nodes.now links.now u.junctions u.heights u.refs) member
        at choice) seen_link_words shown.old }
{
    let r = sets::shown_member::shown_link_member(members, nodes, links, member, at, choice);
    tell_as(r, seen_link_words, shown, place)
}
