// Whether a set keeps to the limits, and the lent lists hold its members: what a set made by hand is refused for.
ghost use Rattle.std.specs.Prelude.{◌≡◌, ◌≤◌, ◌<◌, ◌∷◌, [], not, length};
ghost use Rattle.cells.specs.Lists.{every};
ghost use Rattle.numbers.specs.Refusals.{decided, lent_of, when};
ghost use Rattle.sets.specs.MemberList.{any_over, over_set};
ghost use Rattle.sets.specs.CellSet.{room_for, holds_list, lack_of};
ghost use Rattle.sets.specs.SetParts.{bare, list_causes, count_word, size_word};
ghost use Rattle.numbers.specs.declared.refusal.Refusal.TheVariants.{TooShort};

use crate::entry::{MemberWords, count_in, size_in, ynd_of};
use crate::parts::{count_all, nodes_together};
use cells::counts::Counts;
use cells::room::over_limit;
use numbers::refusal::{Array, Refusal};

// Whether each member's part of a list holds as many entries as the member has.
fn rooms_hold(members: &[MemberWords], list: Array) -> bool
    ensures { result ≡ every (room_for (count_word list) (size_word list)) members.now }
{
    members
        .iter()
        .all(|w| count_in(*w, list) <= size_in(*w, list))
}

// Whether a list of `len` entries holds all members' parts, and each part its member's entries.
#[tactic(auto, using(crate::proofs::RoomLaws::hold_laws))]
pub(crate) fn holds_list(members: &[MemberWords], list: Array, len: usize) -> bool
    requires { length members.now ≤ 9 }
    ensures { result ≡ holds_list (count_word list) (size_word list) members.now len }
{
    if !rooms_hold(members, list) {
        return false;
    }
    count_all(members, list) <= len
}

// 7: whether a list of `len` entries holds the members.
pub(crate) fn check_list(members: &[MemberWords], list: Array, len: usize) -> Result<(), Refusal>
    requires { length members.now ≤ 9 }
    ensures { result ≡ decided (when (not (holds_list (count_word list) (size_word list) members.now len))
        (TooShort (lent_of list)) ∷ []) }
{
    if !holds_list(members, list, len) {
        return Err(Refusal::TooShort(list.into()));
    }
    Ok(())
}

// 7: whether the lists, of these lengths, hold the members.
#[tactic(auto, using(numbers::proofs::Refusing::tested), unfolding(crate::specs::CellSet::lack_of))]
fn check_lists(members: &[MemberWords], lens: Counts) -> Result<(), Refusal>
    requires { length members.now ≤ 9 }
    ensures { result ≡ decided (lack_of members.now lens.nodes lens.links lens.junctions lens.heights lens.refs) }
{
    check_list(members, Array::Nodes, lens.nodes)?;
    check_list(members, Array::Links, lens.links)?;
    check_list(members, Array::Junctions, lens.junctions)?;
    check_list(members, Array::Heightmap, lens.heights)?;
    check_list(members, Array::Refs, lens.refs)
}

// Whether a member's cell is over a limit of its own.
pub(crate) fn any_over(members: &[MemberWords]) -> bool
    ensures { result ≡ any_over (bare members.now) }
{
    members.iter().any(|w| over_limit(ynd_of(*w)))
}

// Whether the set is over a limit: nine members, 65,536 nodes together, or a member's own.
#[tactic(auto, using(crate::proofs::RoomLaws::limit_laws))]
pub(crate) fn over_set(members: &[MemberWords]) -> bool
    ensures { result ≡ over_set (bare members.now) }
{
    if 9 < members.len() {
        return true;
    }
    if 65536 < nodes_together(members) {
        return true;
    }
    any_over(members)
}

// 14 for a set over a limit, 7 for lists of these lengths that don't hold it.
#[tactic(auto, using(crate::proofs::Rules::few_laws), unfolding(crate::specs::SetParts::list_causes))]
pub(crate) fn check_set(members: &[MemberWords], lens: Counts) -> Result<(), Refusal>
    ensures { result ≡ decided (list_causes members.now lens.nodes lens.links lens.junctions lens.heights lens.refs) }
{
    if over_set(members) {
        return Err(Refusal::AtLimit);
    }
    check_lists(members, lens)
}
