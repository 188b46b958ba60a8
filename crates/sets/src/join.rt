// A cell joins a set (T-09).
ghost use Rattle.std.specs.Prelude.{◌≡◌, List, [], ◌∷◌, ◌++◌, ℕ, ◌+◌, ◌≤◌, ◌<◌, not, length, take};
ghost use Rattle.numbers.specs.Refusals.{decided, lent_of, when};
ghost use Rattle.cells.specs.Lookup.{first_with, is_some};
ghost use Rattle.cells.specs.Memory.{memory};
ghost use Rattle.cells.specs.Memory.{counts_of};
ghost use Rattle.sets.specs.MemberList.{over_set};
ghost use Rattle.sets.specs.CellSet.{cell_set};
ghost use Rattle.sets.specs.Leave.{left_after};
ghost use Rattle.sets.specs.Join.{part_fits, lack_for, join_cell};
ghost use Rattle.sets.specs.SetParts.{named_of, areas_of, bare, bare_cell, entry_causes};
ghost use Rattle.sets.specs.SetParts.{count_word, size_word, number_in};
ghost use Rattle.numbers.specs.declared.refusal.Refusal.TheVariants.{TooShort};

use crate::entry::{MemberWords, entry_words};
use crate::lists::{Given, Lists};
use crate::named::member_of_area;
use crate::parts::{count_all, nodes_together, number_in, starts_of};
use crate::room::{any_over, holds_list};
use cells::area::own_area;
use cells::counts::{Counts, lengths};
use cells::junction_entry::JunctionEntry;
use cells::link::PathLink;
use cells::node_entry::NodeEntry;
use cells::room::over_limit;
use cells::ynd::Ynd;
use numbers::refusal::{Array, Lent, Refusal};
use records::junction_ref::NodeJunctionRef;

// A cell that is to join, with what its own lists and the set's have, and the sizes of its parts.
#[derive(Clone, Copy)]
struct Joining {
    ynd: Ynd,
    lens: Counts,
    haves: Counts,
    sizes: Counts,
}

// Whether a list holds the members' parts and has room for the cell's, which has place for its entries.
#[tactic(auto, using(crate::proofs::Rules::fit_laws))]
fn part_fits(members: &[MemberWords], cell: Joining, list: Array) -> bool
    requires { length members.now ≤ 9 }
    ensures { result ≡ part_fits (count_word list) (size_word list) members.now (number_in list cell.lens)
        (number_in list cell.haves) (number_in list (counts_of cell.ynd)) (number_in list cell.sizes) }
{
    let len = number_in(list, cell.lens);
    let count = number_in(list, cell.ynd.counts());
    let room = number_in(list, cell.sizes);
    if !holds_list(members, list, len) {
        return false;
    }
    if number_in(list, cell.haves) < count {
        return false;
    }
    if room < count {
        return false;
    }
    if 4294967295 < room {
        return false;
    }
    room <= len - count_all(members, list)
}

// 7: whether a list has room for the cell.
fn check_part(members: &[MemberWords], cell: Joining, list: Array) -> Result<(), Refusal>
    requires { length members.now ≤ 9 }
    ensures { result ≡ decided (when (not (part_fits (count_word list) (size_word list) members.now
        (number_in list cell.lens) (number_in list cell.haves) (number_in list (counts_of cell.ynd))
        (number_in list cell.sizes))) (TooShort (lent_of list)) ∷ []) }
{
    if !part_fits(members, cell, list) {
        return Err(Refusal::TooShort(list.into()));
    }
    Ok(())
}

// 7: whether each list has room for the cell.
#[tactic(auto, using(numbers::proofs::Refusing::tested), unfolding(crate::specs::Join::lack_for))]
fn check_fit(members: &[MemberWords], cell: Joining) -> Result<(), Refusal>
    requires { length members.now ≤ 9 }
    ensures { result ≡ decided (lack_for members.now cell.lens cell.haves cell.ynd cell.sizes) }
{
    check_part(members, cell, Array::Nodes)?;
    check_part(members, cell, Array::Links)?;
    check_part(members, cell, Array::Junctions)?;
    check_part(members, cell, Array::Heightmap)?;
    check_part(members, cell, Array::Refs)
}

// Whether the set with the cell is over a limit.
#[tactic(auto, using(crate::proofs::Rules::over_laws))]
fn over_with(members: &[MemberWords], ynd: Ynd) -> bool
    ensures { result ≡ over_set (bare members.now ++ (bare_cell ynd ∷ [])) }
{
    if 9 <= members.len() {
        return true;
    }
    let n = nodes_together(members);
    if 65536 < n {
        return true;
    }
    if 65536 - n < ynd.node_count as usize {
        return true;
    }
    if any_over(members) {
        return true;
    }
    over_limit(ynd)
}

// Whether a member has the area.
fn has_area(members: &[MemberWords], nodes: &[NodeEntry], area: u16) -> bool
    ensures { result ≡ is_some (first_with (areas_of members.now nodes.now) area) }
{
    member_of_area(members, nodes, area).is_some()
}

// What joining answers, for a cell of this area. Nothing is stored.
#[tactic(auto, using(crate::proofs::Rules::join_laws), unfolding(crate::specs::SetParts::entry_causes))]
fn join_answer(
    members: &[MemberWords],
    nodes: &[NodeEntry],
    cell: Joining,
    area: u16,
    room: usize,
) -> Result<(), Refusal>
    ensures { result
        ≡ decided (entry_causes members.now nodes.now cell.lens cell.haves cell.ynd cell.sizes area room) }
{
    if has_area(members, nodes, area) {
        return Err(Refusal::AreaTaken);
    }
    if over_with(members, cell.ynd) {
        return Err(Refusal::AtLimit);
    }
    check_fit(members, cell)?;
    if room <= members.len() {
        return Err(Refusal::TooShort(Lent::Members));
    }
    Ok(())
}

// A cell joins: what its counts say is copied behind the other members' parts. Its parts get `sizes` entries, at least
// as many as its counts. The first `count` entries of `members` are the set's before it. Gives how many there are
// after it; a refusal changes nothing.
#[tactic(auto, using(crate::proofs::JoinDone::joining_laws))]
pub fn join(
    count: usize,
    members: &mut [MemberWords],
    nodes: &mut [NodeEntry],
    links: &mut [PathLink],
    junctions: &mut [JunctionEntry],
    heights: &mut [u8],
    refs: &mut [NodeJunctionRef],
    ynd: Ynd,
    new_nodes: &[NodeEntry],
    new_links: &[PathLink],
    new_junctions: &[JunctionEntry],
    new_heights: &[u8],
    new_refs: &[NodeJunctionRef],
    sizes: Counts,
) -> Result<usize, Refusal>
    ensures { left_after (length (take count members.old)) result (cell_set members.new nodes.new links.new
        junctions.new heights.new refs.new)
        ≡ join_cell count (cell_set members.old nodes.old links.old junctions.old
        heights.old refs.old)
        (memory ynd new_nodes.now new_links.now new_junctions.now
        new_heights.now new_refs.now) sizes }
{
    let room = members.len();
    let held = count.min(room);
    let lens = lengths(nodes, links, junctions, heights, refs);
    let haves = lengths(new_nodes, new_links, new_junctions, new_heights, new_refs);
    let area = own_area(new_nodes, ynd.node_count as usize);
    let cell = Joining {
        ynd,
        lens,
        haves,
        sizes,
    };
    join_answer(&members[..held], nodes, cell, area, room)?;
    let at = starts_of(&members[..held], held);
    let counts = ynd.counts();
    let mut lists = Lists {
        nodes,
        links,
        junctions,
        heights,
        refs,
    };
    let given = Given {
        nodes: new_nodes,
        links: new_links,
        junctions: new_junctions,
        heights: new_heights,
        refs: new_refs,
    };
    lists.append(at, counts, given);
    members[held] = entry_words(ynd, sizes);
    Ok(held + 1)
}
