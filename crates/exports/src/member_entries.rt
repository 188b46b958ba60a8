// Entries of a set's member taken out by place, and its own words (T-09).
ghost use Rattle.std.specs.Prelude.{◌≡◌};
ghost use Rattle.sets.specs.CellSet.{cell_set};
ghost use Rattle.sets.specs.Lent.{Unlent};
ghost use Rattle.sets.specs.MemberLookup.{ynd_member, get_node_member, get_link_member};
ghost use Rattle.sets.specs.MemberLookup.{get_ref_member, get_junction_member, get_height_member};
ghost use Rattle.exports.specs.Found.{told, told_of, value_told};
ghost use Rattle.cells.specs.EntryForms.{node_as_entry, junction_as_entry};

use crate::answers::{tell, tell_as};
use cells::junction_entry::JunctionEntry;
use cells::link::PathLink;
use cells::node_entry::NodeEntry;
use cells::ynd::Ynd;
use records::junction_ref::NodeJunctionRef;

// The member's own words and counts.
#[unsafe(no_mangle)]
pub extern "C" fn ynd_member_get_cell(
    members: &[[u32; 20]],
    member: usize,
    ynd: &mut Ynd,
    place: &mut usize,
) -> u32
    ensures { (u : Unlent members.now)
        → told result place.new ynd.new
        ≡ value_told (ynd_member (cell_set members.now u.nodes u.links u.junctions u.heights u.refs) member)
        ynd.old }
{
    let r = sets::get_member::ynd_member(members, member);
    tell(r, ynd, place)
}

// The node at a place of the member.
#[unsafe(no_mangle)]
pub extern "C" fn ynd_member_get_node(
    members: &[[u32; 20]],
    nodes: &[NodeEntry],
    member: usize,
    at: usize,
    node: &mut NodeEntry,
    place: &mut usize,
) -> u32
    ensures { (u : Unlent members.now)
        → told result place.new node.new
        ≡ told_of (get_node_member (cell_set members.now nodes.now u.links u.junctions u.heights u.refs) member at)
        node_as_entry node.old }
{
    let r = sets::get_member::get_node_member(members, nodes, member, at);
    tell_as(r, NodeEntry::from, node, place)
}

// Link k of the node at a place.
#[unsafe(no_mangle)]
pub extern "C" fn ynd_member_get_link(
    members: &[[u32; 20]],
    nodes: &[NodeEntry],
    links: &[PathLink],
    member: usize,
    at: usize,
    k: usize,
    link: &mut PathLink,
    place: &mut usize,
) -> u32
    ensures { (u : Unlent members.now)
        → told result place.new link.new
        ≡ value_told (get_link_member (cell_set members.now nodes.now links.now u.junctions u.heights u.refs) member
        at k) link.old }
{
    let r = sets::get_member::get_link_member(members, nodes, links, member, at, k);
    tell(r, link, place)
}

// The ref at a place: area, number, junction, unk0.
#[unsafe(no_mangle)]
pub extern "C" fn ynd_member_get_ref(
    members: &[[u32; 20]],
    refs: &[NodeJunctionRef],
    member: usize,
    at: usize,
    taken: &mut NodeJunctionRef,
    place: &mut usize,
) -> u32
    ensures { (u : Unlent members.now)
        → told result place.new taken.new
        ≡ value_told (get_ref_member (cell_set members.now u.nodes u.links u.junctions u.heights refs.now) member at)
        taken.old }
{
    let r = sets::get_member::get_ref_member(members, refs, member, at);
    tell(r, taken, place)
}

// The junction at a place.
#[unsafe(no_mangle)]
pub extern "C" fn ynd_member_get_junction(
    members: &[[u32; 20]],
    junctions: &[JunctionEntry],
    member: usize,
    at: usize,
    junction: &mut JunctionEntry,
    place: &mut usize,
) -> u32
    ensures { (u : Unlent members.now)
        → told result place.new junction.new
        ≡ told_of (get_junction_member (cell_set members.now u.nodes u.links junctions.now u.heights u.refs) member at)
        junction_as_entry junction.old }
{
    let r = sets::get_member::get_junction_member(members, junctions, member, at);
    tell_as(r, JunctionEntry::from, junction, place)
}

// Value k of the junction at a place.
#[unsafe(no_mangle)]
pub extern "C" fn ynd_member_get_height(
    members: &[[u32; 20]],
    junctions: &[JunctionEntry],
    heights: &[u8],
    member: usize,
    at: usize,
    k: usize,
    value: &mut u8,
    place: &mut usize,
) -> u32
    ensures { (u : Unlent members.now)
        → told result place.new value.new
        ≡ value_told (get_height_member (cell_set members.now u.nodes u.links junctions.now heights.now u.refs) member
        at k) value.old }
{
    let r = sets::get_member::get_height_member(members, junctions, heights, member, at, k);
    tell(r, value, place)
}
