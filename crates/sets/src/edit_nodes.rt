// Edits of a member's nodes (T-09).
ghost use Rattle.std.specs.Prelude.{◌≡◌, ◌||◌, ltb, leb, length};
ghost use Rattle.cells.specs.Edit.{put_node, set_position};
ghost use Rattle.sets.specs.CellSet.{cell_set, words_at, total};
ghost use Rattle.sets.specs.Lent.{Unlent};
ghost use Rattle.sets.specs.MemberEdit.{set_edited, edit_member, add_node_member};
ghost use Rattle.cells.specs.Edit.{nodes_left};

use crate::entry::MemberWords;
use crate::member::{held, open_member, store_ynd};
use crate::parts::nodes_together;
use cells::add_node::add_node;
use cells::node::PathNode;
use cells::node_entry::NodeEntry;
use cells::put::{put_node, set_position};
use numbers::math::Vec3;
use numbers::refusal::Refusal;

// Whether the set has no room for one node more.
fn set_full(members: &[MemberWords]) -> bool
    ensures { result ≡ (ltb 9 (length members.now) || leb 65536 (total (words_at 10 members.now))) }
{
    if 9 < members.len() {
        return true;
    }
    65536 <= nodes_together(members)
}

// A node more in the member, at the end of its nodes.
pub fn add_node_member(
    members: &mut [MemberWords],
    nodes: &mut [NodeEntry],
    member: usize,
    area_id: u16,
    position: Vec3,
) -> Result<(), Refusal>
    ensures { (u : Unlent members.old)
        → set_edited result (cell_set members.new nodes.new u.links u.junctions u.heights u.refs)
        ≡ add_node_member (cell_set members.old nodes.old u.links u.junctions u.heights u.refs)
        member area_id position }
{
    if members.len() <= member {
        return Err(Refusal::NoSuchPlace);
    }
    if set_full(members) {
        return Err(Refusal::AtLimit);
    }
    let mut lens = held(members);
    lens.nodes = nodes.len();
    let p = open_member(members, lens, member)?;
    let next = add_node(p.ynd, &mut nodes[p.a.nodes..p.e.nodes], area_id, position)?;
    store_ynd(members, member, next);
    Ok(())
}

// A node of the member stored at its place.
pub fn put_node_member(
    members: &[MemberWords],
    nodes: &mut [NodeEntry],
    member: usize,
    place: usize,
    n: PathNode,
) -> Result<(), Refusal>
    ensures { (u : Unlent members.now)
        → set_edited result (cell_set members.now nodes.new u.links u.junctions u.heights u.refs)
        ≡ edit_member (cell_set members.now nodes.old u.links u.junctions u.heights u.refs) member
        (λ m. nodes_left m (put_node m.ynd m.nodes place n)) }
{
    let mut lens = held(members);
    lens.nodes = nodes.len();
    let p = open_member(members, lens, member)?;
    put_node(p.ynd, &mut nodes[p.a.nodes..p.e.nodes], place, n)
}

// A node of the member with another position.
pub fn set_position_member(
    members: &[MemberWords],
    nodes: &mut [NodeEntry],
    member: usize,
    place: usize,
    position: Vec3,
) -> Result<(), Refusal>
    ensures { (u : Unlent members.now)
        → set_edited result (cell_set members.now nodes.new u.links u.junctions u.heights u.refs)
        ≡ edit_member (cell_set members.now nodes.old u.links u.junctions u.heights u.refs) member
        (λ m. nodes_left m (set_position m.ynd m.nodes place position)) }
{
    let mut lens = held(members);
    lens.nodes = nodes.len();
    let p = open_member(members, lens, member)?;
    set_position(p.ynd, &mut nodes[p.a.nodes..p.e.nodes], place, position)
}
