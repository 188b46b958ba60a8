// Where a member's parts of the five lists start.
ghost use Rattle.std.specs.Prelude.{◌≡◌, ◌≤◌, ◌<◌, length, take, drop};
ghost use Rattle.sets.specs.CellSet.{words_at, total};
ghost use Rattle.sets.specs.Leave.{start_of};
ghost use Rattle.sets.specs.SetParts.{starts_of, count_of, count_word, size_word, number_in, Holding};

use crate::entry::{MemberWords, count_in, size_in};
use cells::counts::Counts;
use numbers::refusal::Array;

// The number for a list.
pub(crate) fn number_in(list: Array, k: Counts) -> usize
    ensures { result ≡ number_in list k }
{
    match list {
        Array::Nodes => k.nodes,
        Array::Links => k.links,
        Array::Junctions => k.junctions,
        Array::Heightmap => k.heights,
        Array::Refs => k.refs,
    }
}

// How many nodes the members have together.
#[tactic(auto, using(crate::proofs::PartLaws::sum_laws))]
pub(crate) fn nodes_together(members: &[MemberWords]) -> usize
    requires { length members.now ≤ 9 }
    ensures { result ≡ total (words_at 10 members.now) }
{
    members.iter().map(|w| count_in(*w, Array::Nodes)).sum()
}

// How many entries the parts before the member i hold in a list.
pub(crate) fn count_before(members: &[MemberWords], list: Array, i: usize) -> usize
    requires { (i ≤ length members.now) × (length members.now ≤ 9) }
    ensures { result ≡ start_of (size_word list) members.now i }
{
    members[..i].iter().map(|w| size_in(*w, list)).sum()
}

// How many all parts hold.
#[tactic(auto, using(crate::proofs::PartLaws::start_all))]
pub(crate) fn count_all(members: &[MemberWords], list: Array) -> usize
    requires { length members.now ≤ 9 }
    ensures { result ≡ total (words_at (size_word list) members.now) }
{
    count_before(members, list, members.len())
}

// The member i's own entries of a list that holds all parts: as many as it has, in its part.
#[tactic(auto, using(crate::proofs::PartLaws::part_below))]
pub(crate) fn own_entries<'a, T>(
    members: &[MemberWords],
    list: Array,
    i: usize,
    entries: &'a [T],
) -> &'a [T]
    requires { (i < length members.now) × (length members.now ≤ 9)
        × Holding (count_word list) (size_word list) members.now (length entries.now) }
    ensures value { result.now ≡ take (count_of (count_word list) members.now i)
        (drop (start_of (size_word list) members.now i) entries.now) }
    ensures long { length result.now ≡ count_of (count_word list) members.now i }
{
    let start = count_before(members, list, i);
    &entries[start..start + count_in(members[i], list)]
}

// Where the parts of the member i start, or end if it is one behind the last.
pub(crate) fn starts_of(members: &[MemberWords], i: usize) -> Counts
    requires { (i ≤ length members.now) × (length members.now ≤ 9) }
    ensures { result ≡ starts_of members.now i }
{
    Counts {
        nodes: count_before(members, Array::Nodes, i),
        links: count_before(members, Array::Links, i),
        junctions: count_before(members, Array::Junctions, i),
        heights: count_before(members, Array::Heightmap, i),
        refs: count_before(members, Array::Refs, i),
    }
}
