// Lookups in a member (T-09).
ghost use Rattle.std.specs.Prelude.{◌≡◌};
ghost use Rattle.sets.specs.CellSet.{cell_set};
ghost use Rattle.sets.specs.Lent.{Unlent};
ghost use Rattle.sets.specs.MemberLookup.{area_id_member, node_member, junction_of_member, start_in_member};

use crate::entry::MemberWords;
use crate::member::{held, open_member};
use cells::link::PathLink;
use cells::lookup::{area_id, junction_of, node};
use cells::node_entry::NodeEntry;
use numbers::refusal::Refusal;
use records::junction_ref::NodeJunctionRef;

// The member's area, its first node's.
pub fn area_id_member(
    members: &[MemberWords],
    nodes: &[NodeEntry],
    member: usize,
) -> Result<Option<u32>, Refusal>
    ensures { (u : Unlent members.now)
        → result ≡ area_id_member (cell_set members.now nodes.now u.links u.junctions u.heights u.refs)
        member }
{
    let mut lens = held(members);
    lens.nodes = nodes.len();
    let p = open_member(members, lens, member)?;
    area_id(p.ynd, &nodes[p.a.nodes..p.e.nodes])
}

// The place of a number in the member.
pub fn node_member(
    members: &[MemberWords],
    nodes: &[NodeEntry],
    member: usize,
    node_id: u16,
) -> Result<Option<usize>, Refusal>
    ensures { (u : Unlent members.now)
        → result ≡ node_member (cell_set members.now nodes.now u.links u.junctions u.heights u.refs)
        member node_id }
{
    let mut lens = held(members);
    lens.nodes = nodes.len();
    let p = open_member(members, lens, member)?;
    node(p.ynd, &nodes[p.a.nodes..p.e.nodes], node_id)
}

// The member's junction of a node.
pub fn junction_of_member(
    members: &[MemberWords],
    nodes: &[NodeEntry],
    refs: &[NodeJunctionRef],
    member: usize,
    area_id: u16,
    node_id: u16,
) -> Result<Option<usize>, Refusal>
    ensures { (u : Unlent members.now)
        → result ≡ junction_of_member (cell_set members.now nodes.now u.links u.junctions u.heights refs.now)
        member area_id node_id }
{
    let mut lens = held(members);
    lens.nodes = nodes.len();
    lens.refs = refs.len();
    let p = open_member(members, lens, member)?;
    junction_of(
        p.ynd,
        &nodes[p.a.nodes..p.e.nodes],
        &refs[p.a.refs..p.e.refs],
        area_id,
        node_id,
    )
}

// Where a walk starts in the member that names its start by a number: 13 if no node has it.
pub fn start_in_member(
    members: &[MemberWords],
    nodes: &[NodeEntry],
    links: &[PathLink],
    member: usize,
    node_id: u16,
) -> Result<usize, Refusal>
    ensures { (u : Unlent members.now)
        → result ≡ start_in_member (cell_set members.now nodes.now links.now u.junctions u.heights u.refs)
        member node_id }
{
    let mut lens = held(members);
    lens.nodes = nodes.len();
    lens.links = links.len();
    let p = open_member(members, lens, member)?;
    node(p.ynd, &nodes[p.a.nodes..p.e.nodes], node_id)?.ok_or(Refusal::NoSuchPlace)
}
