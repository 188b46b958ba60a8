// Edits of a member's counts and of its own words (T-09).
ghost use Rattle.std.specs.Prelude.{◌≡◌};
ghost use Rattle.cells.specs.Truncate.{truncate_nodes, truncate_junctions, truncate_refs};
ghost use Rattle.sets.specs.CellSet.{cell_set};
ghost use Rattle.sets.specs.Lent.{Unlent};
ghost use Rattle.sets.specs.MemberEdit.{set_edited, edit_member, put_words};

use crate::entry::MemberWords;
use crate::member::{held, open_member, store_ynd};
use cells::truncate::{truncate_junctions, truncate_nodes, truncate_refs};
use numbers::refusal::Refusal;

// The member's first `count` nodes alone; none of its entries is touched.
pub fn truncate_nodes_member(
    members: &mut [MemberWords],
    member: usize,
    count: usize,
) -> Result<(), Refusal>
    ensures { (u : Unlent members.old)
        → set_edited result (cell_set members.new u.nodes u.links u.junctions u.heights u.refs)
        ≡ edit_member (cell_set members.old u.nodes u.links u.junctions u.heights u.refs) member
        (λ m. truncate_nodes m count) }
{
    let lens = held(members);
    let p = open_member(members, lens, member)?;
    let next = truncate_nodes(p.ynd, count)?;
    store_ynd(members, member, next);
    Ok(())
}

// Its first `count` junctions alone.
pub fn truncate_junctions_member(
    members: &mut [MemberWords],
    member: usize,
    count: usize,
) -> Result<(), Refusal>
    ensures { (u : Unlent members.old)
        → set_edited result (cell_set members.new u.nodes u.links u.junctions u.heights u.refs)
        ≡ edit_member (cell_set members.old u.nodes u.links u.junctions u.heights u.refs) member
        (λ m. truncate_junctions m count) }
{
    let lens = held(members);
    let p = open_member(members, lens, member)?;
    let next = truncate_junctions(p.ynd, count)?;
    store_ynd(members, member, next);
    Ok(())
}

// Its first `count` refs alone.
pub fn truncate_refs_member(
    members: &mut [MemberWords],
    member: usize,
    count: usize,
) -> Result<(), Refusal>
    ensures { (u : Unlent members.old)
        → set_edited result (cell_set members.new u.nodes u.links u.junctions u.heights u.refs)
        ≡ edit_member (cell_set members.old u.nodes u.links u.junctions u.heights u.refs) member
        (λ m. truncate_refs m count) }
{
    let lens = held(members);
    let p = open_member(members, lens, member)?;
    let next = truncate_refs(p.ynd, count)?;
    store_ynd(members, member, next);
    Ok(())
}

// The member's own words; its counts of entries stay.
pub fn put_words_member(
    members: &mut [MemberWords],
    member: usize,
    vft: u32,
    vehicles: u32,
    peds: u32,
    unknowns: [u32; 7],
) -> Result<(), Refusal>
    ensures { (u : Unlent members.old)
        → set_edited result (cell_set members.new u.nodes u.links u.junctions u.heights u.refs)
        ≡ edit_member (cell_set members.old u.nodes u.links u.junctions u.heights u.refs) member
        (λ m. put_words m vft vehicles peds unknowns) }
{
    let lens = held(members);
    let p = open_member(members, lens, member)?;
    let a = p.ynd.set_vft(vft);
    let b = a.set_vehicle_node_count(vehicles);
    let c = b.set_ped_node_count(peds);
    let next = c.set_unknowns(unknowns);
    store_ynd(members, member, next);
    Ok(())
}
