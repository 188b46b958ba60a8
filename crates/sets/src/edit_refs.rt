// Edits of a member's refs (T-09).
ghost use Rattle.std.specs.Prelude.{◌≡◌};
ghost use Rattle.cells.specs.Add.{add_ref};
ghost use Rattle.cells.specs.Edit.{put_ref};
ghost use Rattle.sets.specs.CellSet.{cell_set};
ghost use Rattle.sets.specs.Lent.{Unlent};
ghost use Rattle.sets.specs.MemberEdit.{set_edited, edit_member};
ghost use Rattle.cells.specs.Edit.{refs_left};

use crate::entry::MemberWords;
use crate::member::{held, open_member, store_ynd};
use cells::add_ref::add_ref;
use cells::put::put_ref;
use numbers::refusal::Refusal;
use records::junction_ref::NodeJunctionRef;

// A ref more in the member.
pub fn add_ref_member(
    members: &mut [MemberWords],
    refs: &mut [NodeJunctionRef],
    member: usize,
    r: NodeJunctionRef,
) -> Result<(), Refusal>
    ensures { (u : Unlent members.old)
        → set_edited result (cell_set members.new u.nodes u.links u.junctions u.heights refs.new)
        ≡ edit_member (cell_set members.old u.nodes u.links u.junctions u.heights refs.old) member
        (λ m. add_ref m r) }
{
    let mut lens = held(members);
    lens.refs = refs.len();
    let p = open_member(members, lens, member)?;
    let next = add_ref(p.ynd, &mut refs[p.a.refs..p.e.refs], r)?;
    store_ynd(members, member, next);
    Ok(())
}

// A ref of the member stored at its place.
pub fn put_ref_member(
    members: &[MemberWords],
    refs: &mut [NodeJunctionRef],
    member: usize,
    place: usize,
    r: NodeJunctionRef,
) -> Result<(), Refusal>
    ensures { (u : Unlent members.now)
        → set_edited result (cell_set members.now u.nodes u.links u.junctions u.heights refs.new)
        ≡ edit_member (cell_set members.now u.nodes u.links u.junctions u.heights refs.old) member
        (λ m. refs_left m (put_ref m.ynd m.refs place r)) }
{
    let mut lens = held(members);
    lens.refs = refs.len();
    let p = open_member(members, lens, member)?;
    put_ref(p.ynd, &mut refs[p.a.refs..p.e.refs], place, r)
}
