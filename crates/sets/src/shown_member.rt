// What a walk shows in a member (T-09).
ghost use Rattle.std.specs.Prelude.{◌≡◌};
ghost use Rattle.walks.specs.Shown.{values_left};
ghost use Rattle.sets.specs.CellSet.{cell_set};
ghost use Rattle.sets.specs.Lent.{Unlent};
ghost use Rattle.sets.specs.MemberLookup.{shown_node_member, shown_junction_member, shown_values_member};
ghost use Rattle.sets.specs.MemberLookup.{shown_link_member};

use crate::entry::MemberWords;
use crate::member::{held, open_member};
use cells::junction_entry::JunctionEntry;
use cells::link::PathLink;
use cells::node_entry::NodeEntry;
use numbers::refusal::Refusal;
use records::junction_ref::NodeJunctionRef;
use walks::shown::{
    SeenJunction, SeenLink, SeenNode, shown_junction, shown_link, shown_node, shown_values,
};

// What a walk shows of a node of the member.
pub fn shown_node_member(
    members: &[MemberWords],
    nodes: &[NodeEntry],
    links: &[PathLink],
    junctions: &[JunctionEntry],
    refs: &[NodeJunctionRef],
    member: usize,
    place: usize,
) -> Result<SeenNode, Refusal>
    ensures { (u : Unlent members.now)
        → result ≡ shown_node_member (cell_set members.now nodes.now links.now junctions.now u.heights refs.now)
        member place }
{
    let mut lens = held(members);
    lens.nodes = nodes.len();
    lens.links = links.len();
    lens.junctions = junctions.len();
    lens.refs = refs.len();
    let p = open_member(members, lens, member)?;
    shown_node(
        p.ynd,
        &nodes[p.a.nodes..p.e.nodes],
        &links[p.a.links..p.e.links],
        &junctions[p.a.junctions..p.e.junctions],
        &refs[p.a.refs..p.e.refs],
        place,
    )
}

// What it shows of a junction.
pub fn shown_junction_member(
    members: &[MemberWords],
    junctions: &[JunctionEntry],
    member: usize,
    place: usize,
) -> Result<SeenJunction, Refusal>
    ensures { (u : Unlent members.now)
        → result ≡ shown_junction_member (cell_set members.now u.nodes u.links junctions.now u.heights u.refs)
        member place }
{
    let mut lens = held(members);
    lens.junctions = junctions.len();
    let p = open_member(members, lens, member)?;
    shown_junction(p.ynd, &junctions[p.a.junctions..p.e.junctions], place)
}

// A junction's heightmap values, copied.
pub fn shown_values_member(
    members: &[MemberWords],
    junctions: &[JunctionEntry],
    heights: &[u8],
    member: usize,
    place: usize,
    values: &mut [u8],
) -> Result<usize, Refusal>
    ensures { (u : Unlent members.now)
        → values_left result values.new
        ≡ shown_values_member (cell_set members.now u.nodes u.links junctions.now heights.now u.refs)
        member place values.old }
{
    let mut lens = held(members);
    lens.junctions = junctions.len();
    lens.heights = heights.len();
    let p = open_member(members, lens, member)?;
    shown_values(
        p.ynd,
        &junctions[p.a.junctions..p.e.junctions],
        &heights[p.a.heights..p.e.heights],
        place,
        values,
    )
}

// What it shows of the link chosen.
pub fn shown_link_member(
    members: &[MemberWords],
    nodes: &[NodeEntry],
    links: &[PathLink],
    member: usize,
    place: usize,
    choice: u8,
) -> Result<Option<SeenLink>, Refusal>
    ensures { (u : Unlent members.now)
        → result ≡ shown_link_member (cell_set members.now nodes.now links.now u.junctions u.heights u.refs)
        member place choice }
{
    let mut lens = held(members);
    lens.nodes = nodes.len();
    lens.links = links.len();
    let p = open_member(members, lens, member)?;
    shown_link(
        p.ynd,
        &nodes[p.a.nodes..p.e.nodes],
        &links[p.a.links..p.e.links],
        place,
        choice,
    )
}
