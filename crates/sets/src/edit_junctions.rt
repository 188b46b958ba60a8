// Edits of a member's junctions and heightmaps (T-09).
ghost use Rattle.std.specs.Prelude.{◌≡◌};
ghost use Rattle.cells.specs.Add.{add_junction};
ghost use Rattle.cells.specs.Edit.{put_junction, put_height};
ghost use Rattle.cells.specs.PutHeightmap.{put_heightmap};
ghost use Rattle.sets.specs.CellSet.{cell_set};
ghost use Rattle.sets.specs.Lent.{Unlent};
ghost use Rattle.sets.specs.MemberEdit.{set_edited, edit_member};
ghost use Rattle.cells.specs.Edit.{heights_left, junctions_left};

use crate::entry::MemberWords;
use crate::member::{held, open_member, store_ynd};
use cells::add_junction::add_junction;
use cells::junction::PathJunction;
use cells::junction_entry::JunctionEntry;
use cells::put::{put_height, put_junction};
use cells::put_heightmap::put_heightmap;
use numbers::refusal::Refusal;

// A junction more in the member, with its heightmap.
pub fn add_junction_member(
    members: &mut [MemberWords],
    junctions: &mut [JunctionEntry],
    heights: &mut [u8],
    member: usize,
    junction: PathJunction,
    values: &[u8],
) -> Result<(), Refusal>
    ensures { (u : Unlent members.old)
        → set_edited result (cell_set members.new u.nodes u.links junctions.new heights.new u.refs)
        ≡ edit_member (cell_set members.old u.nodes u.links junctions.old heights.old u.refs) member
        (λ m. add_junction m junction values.now) }
{
    let mut lens = held(members);
    lens.junctions = junctions.len();
    lens.heights = heights.len();
    let p = open_member(members, lens, member)?;
    let next = add_junction(
        p.ynd,
        &mut junctions[p.a.junctions..p.e.junctions],
        &mut heights[p.a.heights..p.e.heights],
        junction,
        values,
    )?;
    store_ynd(members, member, next);
    Ok(())
}

// The heightmap of a junction of the member.
pub fn put_heightmap_member(
    members: &mut [MemberWords],
    junctions: &mut [JunctionEntry],
    heights: &mut [u8],
    member: usize,
    place: usize,
    width: u8,
    height: u8,
    values: &[u8],
) -> Result<(), Refusal>
    ensures { (u : Unlent members.old)
        → set_edited result (cell_set members.new u.nodes u.links junctions.new heights.new u.refs)
        ≡ edit_member (cell_set members.old u.nodes u.links junctions.old heights.old u.refs) member
        (λ m. put_heightmap m place width height values.now) }
{
    let mut lens = held(members);
    lens.junctions = junctions.len();
    lens.heights = heights.len();
    let p = open_member(members, lens, member)?;
    let next = put_heightmap(
        p.ynd,
        &mut junctions[p.a.junctions..p.e.junctions],
        &mut heights[p.a.heights..p.e.heights],
        place,
        width,
        height,
        values,
    )?;
    store_ynd(members, member, next);
    Ok(())
}

// A junction of the member stored at its place.
pub fn put_junction_member(
    members: &[MemberWords],
    junctions: &mut [JunctionEntry],
    member: usize,
    place: usize,
    junction: PathJunction,
) -> Result<(), Refusal>
    ensures { (u : Unlent members.now)
        → set_edited result (cell_set members.now u.nodes u.links junctions.new u.heights u.refs)
        ≡ edit_member (cell_set members.now u.nodes u.links junctions.old u.heights u.refs) member
        (λ m. junctions_left m (put_junction m.ynd m.junctions place junction)) }
{
    let mut lens = held(members);
    lens.junctions = junctions.len();
    let p = open_member(members, lens, member)?;
    put_junction(
        p.ynd,
        &mut junctions[p.a.junctions..p.e.junctions],
        place,
        junction,
    )
}

// Value k of a junction of the member stored.
pub fn put_height_member(
    members: &[MemberWords],
    junctions: &[JunctionEntry],
    heights: &mut [u8],
    member: usize,
    place: usize,
    k: usize,
    value: u8,
) -> Result<(), Refusal>
    ensures { (u : Unlent members.now)
        → set_edited result (cell_set members.now u.nodes u.links junctions.now heights.new u.refs)
        ≡ edit_member (cell_set members.now u.nodes u.links junctions.now heights.old u.refs) member
        (λ m. heights_left m (put_height m.ynd m.junctions m.heights place k value)) }
{
    let mut lens = held(members);
    lens.junctions = junctions.len();
    lens.heights = heights.len();
    let p = open_member(members, lens, member)?;
    put_height(
        p.ynd,
        &junctions[p.a.junctions..p.e.junctions],
        &mut heights[p.a.heights..p.e.heights],
        place,
        k,
        value,
    )
}
