// Edits of the refs of a set's member (T-09).
ghost use Rattle.std.specs.Prelude.{◌≡◌};
ghost use Rattle.cells.specs.Add.{add_ref};
ghost use Rattle.cells.specs.Edit.{put_ref};
ghost use Rattle.sets.specs.CellSet.{cell_set};
ghost use Rattle.sets.specs.Lent.{Unlent};
ghost use Rattle.sets.specs.MemberEdit.{edit_member};
ghost use Rattle.cells.specs.Edit.{refs_left};
ghost use Rattle.exports.specs.Found.{told};
ghost use Rattle.exports.specs.SetTold.{edit_told};

use crate::answers::answer;
use records::junction_ref::NodeJunctionRef;

// A ref behind all others of the member. (`added` is the ref: area, number, junction, unk0.)
#[unsafe(no_mangle)]
pub extern "C" fn ynd_member_add_ref(
    members: &mut [[u32; 20]],
    refs: &mut [NodeJunctionRef],
    member: usize,
    added: &NodeJunctionRef,
    place: &mut usize,
) -> u32
    ensures { (u : Unlent members.old)
        → told result place.new (cell_set members.new u.nodes u.links u.junctions u.heights refs.new)
        ≡ edit_told (edit_member (cell_set members.old u.nodes u.links u.junctions u.heights refs.old) member
        (λ m. add_ref m added.now)) }
{
    let r = sets::edit_refs::add_ref_member(members, refs, member, *added);
    answer(r, place)
}

// Stores the ref at a place.
#[unsafe(no_mangle)]
pub extern "C" fn ynd_member_put_ref(
    members: &[[u32; 20]],
    refs: &mut [NodeJunctionRef],
    member: usize,
    at: usize,
    put: &NodeJunctionRef,
    place: &mut usize,
) -> u32
    ensures { (u : Unlent members.now)
        → told result place.new (cell_set members.now u.nodes u.links u.junctions u.heights refs.new)
        ≡ edit_told (edit_member (cell_set members.now u.nodes u.links u.junctions u.heights refs.old) member
        (λ m. refs_left m (put_ref m.ynd m.refs at put.now))) }
{
    let r = sets::edit_refs::put_ref_member(members, refs, member, at, *put);
    answer(r, place)
}
