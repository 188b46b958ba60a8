// Edits of the links of a set's member (T-09).
ghost use Rattle.std.specs.Prelude.{◌≡◌};
ghost use Rattle.cells.specs.AddLink.{add_link};
ghost use Rattle.cells.specs.Edit.{put_link};
ghost use Rattle.cells.specs.PutLinks.{put_links};
ghost use Rattle.sets.specs.CellSet.{cell_set};
ghost use Rattle.sets.specs.Lent.{Unlent};
ghost use Rattle.sets.specs.MemberEdit.{edit_member};
ghost use Rattle.cells.specs.Edit.{links_left};
ghost use Rattle.exports.specs.Found.{told};
ghost use Rattle.exports.specs.SetTold.{edit_told};

use crate::answers::answer;
use cells::link::PathLink;
use cells::node_entry::NodeEntry;

// A link behind those of the node at a place of the member.
#[unsafe(no_mangle)]
pub extern "C" fn ynd_member_add_link(
    members: &mut [[u32; 20]],
    nodes: &mut [NodeEntry],
    links: &mut [PathLink],
    member: usize,
    at: usize,
    link: &PathLink,
    place: &mut usize,
) -> u32
    ensures { (u : Unlent members.old)
        → told result place.new (cell_set members.new nodes.new links.new u.junctions u.heights u.refs)
        ≡ edit_told (edit_member (cell_set members.old nodes.old links.old u.junctions u.heights u.refs) member
        (λ m. add_link m at link.now)) }
{
    let r = sets::edit_links::add_link_member(members, nodes, links, member, at, *link);
    answer(r, place)
}

// The links of the node at a place are the given ones.
#[unsafe(no_mangle)]
pub extern "C" fn ynd_member_put_links(
    members: &mut [[u32; 20]],
    nodes: &mut [NodeEntry],
    links: &mut [PathLink],
    member: usize,
    at: usize,
    given: &[PathLink],
    place: &mut usize,
) -> u32
    ensures { (u : Unlent members.old)
        → told result place.new (cell_set members.new nodes.new links.new u.junctions u.heights u.refs)
        ≡ edit_told (edit_member (cell_set members.old nodes.old links.old u.junctions u.heights u.refs) member
        (λ m. put_links m at given.now)) }
{
    let r = sets::edit_links::put_links_member(members, nodes, links, member, at, given);
    answer(r, place)
}

// Link k of the node at a place.
#[unsafe(no_mangle)]
pub extern "C" fn ynd_member_put_link(
    members: &[[u32; 20]],
    nodes: &[NodeEntry],
    links: &mut [PathLink],
    member: usize,
    at: usize,
    k: usize,
    link: &PathLink,
    place: &mut usize,
) -> u32
    ensures { (u : Unlent members.now)
        → told result place.new (cell_set members.now nodes.now links.new u.junctions u.heights u.refs)
        ≡ edit_told (edit_member (cell_set members.now nodes.now links.old u.junctions u.heights u.refs) member
        (λ m. links_left m (put_link m.ynd m.nodes m.links at k link.now))) }
{
    let r = sets::edit_links::put_link_member(members, nodes, links, member, at, k, *link);
    answer(r, place)
}
