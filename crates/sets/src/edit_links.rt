// Edits of a member's links (T-09).
ghost use Rattle.std.specs.Prelude.{◌≡◌};
ghost use Rattle.cells.specs.AddLink.{add_link};
ghost use Rattle.cells.specs.Edit.{put_link};
ghost use Rattle.cells.specs.PutLinks.{put_links};
ghost use Rattle.sets.specs.CellSet.{cell_set};
ghost use Rattle.sets.specs.Lent.{Unlent};
ghost use Rattle.sets.specs.MemberEdit.{set_edited, edit_member};
ghost use Rattle.cells.specs.Edit.{links_left};

use crate::entry::MemberWords;
use crate::member::{held, open_member, store_ynd};
use cells::add_link::add_link;
use cells::link::PathLink;
use cells::node_entry::NodeEntry;
use cells::put::put_link;
use cells::put_links::put_links;
use numbers::refusal::Refusal;

// A link more of a node of the member, the last of the node's links.
pub fn add_link_member(
    members: &mut [MemberWords],
    nodes: &mut [NodeEntry],
    links: &mut [PathLink],
    member: usize,
    place: usize,
    link: PathLink,
) -> Result<(), Refusal>
    ensures { (u : Unlent members.old)
        → set_edited result (cell_set members.new nodes.new links.new u.junctions u.heights u.refs)
        ≡ edit_member (cell_set members.old nodes.old links.old u.junctions u.heights u.refs) member
        (λ m. add_link m place link) }
{
    let mut lens = held(members);
    lens.nodes = nodes.len();
    lens.links = links.len();
    let p = open_member(members, lens, member)?;
    let next = add_link(
        p.ynd,
        &mut nodes[p.a.nodes..p.e.nodes],
        &mut links[p.a.links..p.e.links],
        place,
        link,
    )?;
    store_ynd(members, member, next);
    Ok(())
}

// All links of a node of the member.
pub fn put_links_member(
    members: &mut [MemberWords],
    nodes: &mut [NodeEntry],
    links: &mut [PathLink],
    member: usize,
    place: usize,
    new: &[PathLink],
) -> Result<(), Refusal>
    ensures { (u : Unlent members.old)
        → set_edited result (cell_set members.new nodes.new links.new u.junctions u.heights u.refs)
        ≡ edit_member (cell_set members.old nodes.old links.old u.junctions u.heights u.refs) member
        (λ m. put_links m place new.now) }
{
    let mut lens = held(members);
    lens.nodes = nodes.len();
    lens.links = links.len();
    let p = open_member(members, lens, member)?;
    let next = put_links(
        p.ynd,
        &mut nodes[p.a.nodes..p.e.nodes],
        &mut links[p.a.links..p.e.links],
        place,
        new,
    )?;
    store_ynd(members, member, next);
    Ok(())
}

// Link k of a node of the member stored.
pub fn put_link_member(
    members: &[MemberWords],
    nodes: &[NodeEntry],
    links: &mut [PathLink],
    member: usize,
    place: usize,
    k: usize,
    link: PathLink,
) -> Result<(), Refusal>
    ensures { (u : Unlent members.now)
        → set_edited result (cell_set members.now nodes.now links.new u.junctions u.heights u.refs)
        ≡ edit_member (cell_set members.now nodes.now links.old u.junctions u.heights u.refs) member
        (λ m. links_left m (put_link m.ynd m.nodes m.links place k link)) }
{
    let mut lens = held(members);
    lens.nodes = nodes.len();
    lens.links = links.len();
    let p = open_member(members, lens, member)?;
    put_link(
        p.ynd,
        &nodes[p.a.nodes..p.e.nodes],
        &mut links[p.a.links..p.e.links],
        place,
        k,
        link,
    )
}
