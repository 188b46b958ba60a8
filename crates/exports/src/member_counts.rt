// Lists of a set's member cut off at the end, and its own words stored (T-09). No entry is touched.
ghost use Rattle.std.specs.Prelude.{◌≡◌};
ghost use Rattle.cells.specs.Truncate.{truncate_nodes, truncate_junctions, truncate_refs};
ghost use Rattle.sets.specs.CellSet.{cell_set};
ghost use Rattle.sets.specs.Lent.{Unlent};
ghost use Rattle.sets.specs.MemberEdit.{edit_member, put_words};
ghost use Rattle.exports.specs.Found.{told};
ghost use Rattle.exports.specs.SetTold.{edit_told};

use crate::answers::answer;

// The first `count` nodes of the member stay.
#[unsafe(no_mangle)]
pub extern "C" fn ynd_member_truncate_nodes(
    members: &mut [[u32; 20]],
    member: usize,
    count: usize,
    place: &mut usize,
) -> u32
    ensures { (u : Unlent members.old)
        → told result place.new (cell_set members.new u.nodes u.links u.junctions u.heights u.refs)
        ≡ edit_told (edit_member (cell_set members.old u.nodes u.links u.junctions u.heights u.refs) member
        (λ m. truncate_nodes m count)) }
{
    let r = sets::edit_counts::truncate_nodes_member(members, member, count);
    answer(r, place)
}

// The first `count` junctions stay.
#[unsafe(no_mangle)]
pub extern "C" fn ynd_member_truncate_junctions(
    members: &mut [[u32; 20]],
    member: usize,
    count: usize,
    place: &mut usize,
) -> u32
    ensures { (u : Unlent members.old)
        → told result place.new (cell_set members.new u.nodes u.links u.junctions u.heights u.refs)
        ≡ edit_told (edit_member (cell_set members.old u.nodes u.links u.junctions u.heights u.refs) member
        (λ m. truncate_junctions m count)) }
{
    let r = sets::edit_counts::truncate_junctions_member(members, member, count);
    answer(r, place)
}

// The first `count` refs stay.
#[unsafe(no_mangle)]
pub extern "C" fn ynd_member_truncate_refs(
    members: &mut [[u32; 20]],
    member: usize,
    count: usize,
    place: &mut usize,
) -> u32
    ensures { (u : Unlent members.old)
        → told result place.new (cell_set members.new u.nodes u.links u.junctions u.heights u.refs)
        ≡ edit_told (edit_member (cell_set members.old u.nodes u.links u.junctions u.heights u.refs) member
        (λ m. truncate_refs m count)) }
{
    let r = sets::edit_counts::truncate_refs_member(members, member, count);
    answer(r, place)
}

// The member's own words; its counts of entries stay.
#[unsafe(no_mangle)]
pub extern "C" fn ynd_member_put_words(
    members: &mut [[u32; 20]],
    member: usize,
    vft: u32,
    vehicle_node_count: u32,
    ped_node_count: u32,
    unknowns: &[u32; 7],
    place: &mut usize,
) -> u32
    ensures { (u : Unlent members.old)
        → told result place.new (cell_set members.new u.nodes u.links u.junctions u.heights u.refs)
        ≡ edit_told (edit_member (cell_set members.old u.nodes u.links u.junctions u.heights u.refs) member
        (λ m. put_words m vft vehicle_node_count ped_node_count unknowns.now)) }
{
    let r = sets::edit_counts::put_words_member(
        members,
        member,
        vft,
        vehicle_node_count,
        ped_node_count,
        *unknowns,
    );
    answer(r, place)
}
