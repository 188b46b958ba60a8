// Edits of the junctions and heightmaps of a set's member (T-09).
ghost use Rattle.std.specs.Prelude.{◌≡◌};
ghost use Rattle.cells.specs.Add.{add_junction};
ghost use Rattle.cells.specs.Edit.{put_junction, put_height};
ghost use Rattle.cells.specs.PutHeightmap.{put_heightmap};
ghost use Rattle.sets.specs.CellSet.{cell_set};
ghost use Rattle.sets.specs.Lent.{Unlent};
ghost use Rattle.sets.specs.MemberEdit.{edit_member};
ghost use Rattle.cells.specs.Edit.{heights_left, junctions_left};
ghost use Rattle.exports.specs.Found.{told};
ghost use Rattle.exports.specs.SetTold.{edit_told};
ghost use Rattle.cells.specs.EntryForms.{entry_as_junction};

use crate::answers::answer;
use cells::junction::PathJunction;
use cells::junction_entry::JunctionEntry;

// A junction behind all others of the member, its values behind all others.
#[unsafe(no_mangle)]
pub extern "C" fn ynd_member_add_junction(
    members: &mut [[u32; 20]],
    junctions: &mut [JunctionEntry],
    heights: &mut [u8],
    member: usize,
    junction: &JunctionEntry,
    values: &[u8],
    place: &mut usize,
) -> u32
    ensures { (u : Unlent members.old)
        → told result place.new (cell_set members.new u.nodes u.links junctions.new heights.new u.refs)
        ≡ edit_told (edit_member (cell_set members.old u.nodes u.links junctions.old heights.old u.refs) member
        (λ m. add_junction m (entry_as_junction junction.now) values.now)) }
{
    let r = sets::edit_junctions::add_junction_member(
        members,
        junctions,
        heights,
        member,
        PathJunction::from(*junction),
        values,
    );
    answer(r, place)
}

// The heightmap of the junction at a place is the given one.
#[unsafe(no_mangle)]
pub extern "C" fn ynd_member_put_heightmap(
    members: &mut [[u32; 20]],
    junctions: &mut [JunctionEntry],
    heights: &mut [u8],
    member: usize,
    at: usize,
    width: u8,
    height: u8,
    values: &[u8],
    place: &mut usize,
) -> u32
    ensures { (u : Unlent members.old)
        → told result place.new (cell_set members.new u.nodes u.links junctions.new heights.new u.refs)
        ≡ edit_told (edit_member (cell_set members.old u.nodes u.links junctions.old heights.old u.refs) member
        (λ m. put_heightmap m at width height values.now)) }
{
    let r = sets::edit_junctions::put_heightmap_member(
        members, junctions, heights, member, at, width, height, values,
    );
    answer(r, place)
}

// Stores every field but where the heightmap starts. It keeps as many values.
#[unsafe(no_mangle)]
pub extern "C" fn ynd_member_put_junction(
    members: &[[u32; 20]],
    junctions: &mut [JunctionEntry],
    member: usize,
    at: usize,
    junction: &JunctionEntry,
    place: &mut usize,
) -> u32
    ensures { (u : Unlent members.now)
        → told result place.new (cell_set members.now u.nodes u.links junctions.new u.heights u.refs)
        ≡ edit_told (edit_member (cell_set members.now u.nodes u.links junctions.old u.heights u.refs) member
        (λ m. junctions_left m (put_junction m.ynd m.junctions at (entry_as_junction junction.now)))) }
{
    let r = sets::edit_junctions::put_junction_member(
        members,
        junctions,
        member,
        at,
        PathJunction::from(*junction),
    );
    answer(r, place)
}

// Value k of the junction at a place.
#[unsafe(no_mangle)]
pub extern "C" fn ynd_member_put_height(
    members: &[[u32; 20]],
    junctions: &[JunctionEntry],
    heights: &mut [u8],
    member: usize,
    at: usize,
    k: usize,
    value: u8,
    place: &mut usize,
) -> u32
    ensures { (u : Unlent members.now)
        → told result place.new (cell_set members.now u.nodes u.links junctions.now heights.new u.refs)
        ≡ edit_told (edit_member (cell_set members.now u.nodes u.links junctions.now heights.old u.refs) member
        (λ m. heights_left m (put_height m.ynd m.junctions m.heights at k value))) }
{
    let r = sets::edit_junctions::put_height_member(
        members, junctions, heights, member, at, k, value,
    );
    answer(r, place)
}
