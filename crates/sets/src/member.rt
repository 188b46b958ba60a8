// A call on a member: what it is refused for before the cell's own causes, and where the member's parts lie.
ghost use Rattle.std.specs.Prelude.{◌≡◌, ◌≤◌, ◌<◌, [], IfOk, length, get_or, set};
ghost use Rattle.numbers.specs.Refusals.{decided};
ghost use Rattle.sets.specs.SetStored.{entry_with};
ghost use Rattle.sets.specs.MemberParts.{entry_ask, opened, held_by};

use crate::entry::{MemberWords, entry_words, size_in, ynd_of};
use crate::parts::starts_of;
use crate::room::check_set;
use cells::counts::Counts;
use cells::ynd::Ynd;
use numbers::refusal::{Array, Refusal};

// A member's `Ynd`, and where its parts start and end.
#[derive(Clone, Copy)]
pub(crate) struct MemberPart {
    pub ynd: Ynd,
    pub a: Counts,
    pub e: Counts,
}

// What is asked for the member j of a set whose lists have these lengths.
#[tactic(auto, using(numbers::proofs::Refusing::tested), unfolding(crate::specs::MemberParts::entry_ask))]
fn check_member(members: &[MemberWords], lens: Counts, j: usize) -> Result<(), Refusal>
    ensures { result ≡ decided (entry_ask members.now lens j) }
{
    if members.len() <= j {
        return Err(Refusal::NoSuchPlace);
    }
    check_set(members, lens)
}

#[tactic(auto, using(crate::proofs::MemberPartLaws::open_laws), unfolding(crate::specs::MemberParts::opened))]
pub(crate) fn open_member(
    members: &[MemberWords],
    lens: Counts,
    j: usize,
) -> Result<MemberPart, Refusal>
    ensures value { result ≡ opened members.now lens j }
    ensures inside { IfOk result (λ p. (j < length members.now)
        × ((p.a.nodes ≤ p.e.nodes) × (p.e.nodes ≤ lens.nodes))
        × ((p.a.links ≤ p.e.links) × (p.e.links ≤ lens.links))
        × ((p.a.junctions ≤ p.e.junctions) × (p.e.junctions ≤ lens.junctions))
        × ((p.a.heights ≤ p.e.heights) × (p.e.heights ≤ lens.heights))
        × ((p.a.refs ≤ p.e.refs) × (p.e.refs ≤ lens.refs))) }
{
    check_member(members, lens, j)?;
    let ynd = ynd_of(members[j]);
    let a = starts_of(members, j);
    let e = starts_of(members, j + 1);
    Ok(MemberPart { ynd, a, e })
}

// How many entries the parts in each list have together. With it a list that a call isn't lent counts as long enough.
#[tactic(auto, using(crate::proofs::MemberAskLaws::held_laws))]
pub(crate) fn held(members: &[MemberWords]) -> Counts
    ensures { result ≡ held_by members.now }
{
    let m = members.len();
    if 9 < m {
        return Counts::default();
    }
    starts_of(members, m)
}

// A member's entry with another `Ynd`.
fn entry_with(ynd: Ynd, w: MemberWords) -> MemberWords
    ensures { result ≡ entry_with ynd w }
{
    let sizes = Counts {
        nodes: size_in(w, Array::Nodes),
        links: size_in(w, Array::Links),
        junctions: size_in(w, Array::Junctions),
        heights: size_in(w, Array::Heightmap),
        refs: size_in(w, Array::Refs),
    };
    entry_words(ynd, sizes)
}

// The member j with another `Ynd`.
pub(crate) fn store_ynd(members: &mut [MemberWords], j: usize, ynd: Ynd)
    requires { j < length members.old }
    ensures { members.new
        ≡ set members.old j (entry_with ynd (get_or members.old j [])) }
{
    let w = members[j];
    members[j] = entry_with(ynd, w);
}
