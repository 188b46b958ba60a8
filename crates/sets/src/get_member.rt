// A member's entries, and its own words (T-09).
ghost use Rattle.std.specs.Prelude.{◌≡◌};
ghost use Rattle.sets.specs.CellSet.{cell_set};
ghost use Rattle.sets.specs.Lent.{Unlent};
ghost use Rattle.sets.specs.MemberLookup.{ynd_member, get_node_member, get_link_member};
ghost use Rattle.sets.specs.MemberLookup.{get_ref_member, get_junction_member, get_height_member};

use crate::entry::MemberWords;
use crate::member::{held, open_member};
use cells::get::{get_height, get_junction, get_link, get_node, get_ref};
use cells::junction::PathJunction;
use cells::junction_entry::JunctionEntry;
use cells::link::PathLink;
use cells::node::PathNode;
use cells::node_entry::NodeEntry;
use cells::ynd::Ynd;
use numbers::refusal::Refusal;
use records::junction_ref::NodeJunctionRef;

pub fn ynd_member(members: &[MemberWords], member: usize) -> Result<Ynd, Refusal>
    ensures { (u : Unlent members.now)
        → result ≡ ynd_member (cell_set members.now u.nodes u.links u.junctions u.heights u.refs)
        member }
{
    let lens = held(members);
    let p = open_member(members, lens, member)?;
    Ok(p.ynd)
}

// A node of the member.
pub fn get_node_member(
    members: &[MemberWords],
    nodes: &[NodeEntry],
    member: usize,
    place: usize,
) -> Result<PathNode, Refusal>
    ensures { (u : Unlent members.now)
        → result ≡ get_node_member (cell_set members.now nodes.now u.links u.junctions u.heights u.refs)
        member place }
{
    let mut lens = held(members);
    lens.nodes = nodes.len();
    let p = open_member(members, lens, member)?;
    get_node(p.ynd, &nodes[p.a.nodes..p.e.nodes], place)
}

// Link k of a node of the member.
pub fn get_link_member(
    members: &[MemberWords],
    nodes: &[NodeEntry],
    links: &[PathLink],
    member: usize,
    place: usize,
    k: usize,
) -> Result<PathLink, Refusal>
    ensures { (u : Unlent members.now)
        → result ≡ get_link_member (cell_set members.now nodes.now links.now u.junctions u.heights u.refs)
        member place k }
{
    let mut lens = held(members);
    lens.nodes = nodes.len();
    lens.links = links.len();
    let p = open_member(members, lens, member)?;
    get_link(
        p.ynd,
        &nodes[p.a.nodes..p.e.nodes],
        &links[p.a.links..p.e.links],
        place,
        k,
    )
}

// A ref of the member.
pub fn get_ref_member(
    members: &[MemberWords],
    refs: &[NodeJunctionRef],
    member: usize,
    place: usize,
) -> Result<NodeJunctionRef, Refusal>
    ensures { (u : Unlent members.now)
        → result ≡ get_ref_member (cell_set members.now u.nodes u.links u.junctions u.heights refs.now)
        member place }
{
    let mut lens = held(members);
    lens.refs = refs.len();
    let p = open_member(members, lens, member)?;
    get_ref(p.ynd, &refs[p.a.refs..p.e.refs], place)
}

// A junction of the member.
pub fn get_junction_member(
    members: &[MemberWords],
    junctions: &[JunctionEntry],
    member: usize,
    place: usize,
) -> Result<PathJunction, Refusal>
    ensures { (u : Unlent members.now)
        → result ≡ get_junction_member (cell_set members.now u.nodes u.links junctions.now u.heights u.refs)
        member place }
{
    let mut lens = held(members);
    lens.junctions = junctions.len();
    let p = open_member(members, lens, member)?;
    get_junction(p.ynd, &junctions[p.a.junctions..p.e.junctions], place)
}

// Value k of a junction of the member.
pub fn get_height_member(
    members: &[MemberWords],
    junctions: &[JunctionEntry],
    heights: &[u8],
    member: usize,
    place: usize,
    k: usize,
) -> Result<u8, Refusal>
    ensures { (u : Unlent members.now)
        → result ≡ get_height_member (cell_set members.now u.nodes u.links junctions.now heights.now u.refs)
        member place k }
{
    let mut lens = held(members);
    lens.junctions = junctions.len();
    lens.heights = heights.len();
    let p = open_member(members, lens, member)?;
    get_height(
        p.ynd,
        &junctions[p.a.junctions..p.e.junctions],
        &heights[p.a.heights..p.e.heights],
        place,
        k,
    )
}
