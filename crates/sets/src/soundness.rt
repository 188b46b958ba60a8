// Whether a set is sound (T-09): each member is, and each link into a member names a node there.
ghost use Rattle.std.specs.Prelude.{◌≡◌, ◌≤◌, ◌<◌, ◌&&◌, List, ℕ, length, take, drop};
ghost use Rattle.numbers.specs.Refusals.{decided, done};
ghost use Rattle.walks.specs.Sound.{sound as is_sound};
ghost use Rattle.walks.specs.SoundCall.{indexed, sound_left};
ghost use Rattle.sets.specs.Members.{cell_at};
ghost use Rattle.sets.specs.SetSound.{set_sound};
ghost use Rattle.sets.specs.CellSet.{cell_set};
ghost use Rattle.sets.specs.Leave.{start_of};
ghost use Rattle.sets.specs.SetSoundCall.{set_sound_call};
ghost use Rattle.sets.specs.SetParts.{Holding, count_of};
ghost use Rattle.sets.specs.WorldParts.{set_of};
ghost use Rattle.sets.specs.SetSoundParts.{ShortNumbers, judged_at, numbers_of, indexed_to, entries_causes};
ghost use Rattle.sets.specs.CellSet.{cells_in};
ghost use Rattle.cells.specs.declared.junction_entry.JunctionEntry.{JunctionEntry};

use crate::entry::{MemberWords, ynd_of};
use crate::parts::{count_before, own_entries};
use crate::room::{check_list, over_set};
use crate::world::World;
use cells::link::PathLink;
use cells::node_entry::NodeEntry;
use numbers::refusal::{Array, Lent, Refusal};
use records::junction_ref::NodeJunctionRef;
use walks::sound::sound;

// A number of 16 bits, by its type.
fn sixteen_bits(n: u16)
    ensures { n < 65536 }
{}

// Every node's number has 16 bits, by its type. There is nothing to run: the loop tells it of the whole list.
fn short_numbers(nodes: &[NodeEntry])
    ensures { ShortNumbers nodes.now }
{
    for i in 0..nodes.len() {
        sixteen_bits(nodes[i].node_id);
    }
}

impl World<'_> {
    // Whether the member k is sound. The scratch then leads to its nodes.
    #[tactic(auto, using(crate::proofs::PartLaws::total_below))]
    fn member_sound(&self, refs: &[NodeJunctionRef], k: usize, scratch: &mut [u32]) -> bool
        requires { Holding 14 19 self.now.members.now (length refs.now) × (k < length self.now.members.now)
            × (65536 ≤ length scratch.old) }
        ensures { ((junctions : List JunctionEntry) (heights : List ℕ) → result
            ≡ is_sound (cell_at (cells_in (set_of self.now junctions heights refs.now)) k))
            × (scratch.new ≡ indexed (numbers_of self.now.members.now self.now.nodes.now k) 0 scratch.old) }
    {
        let ynd = ynd_of(self.members[k]);
        let a = count_before(self.members, Array::Nodes, k);
        let c = count_before(self.members, Array::Links, k);
        let e = count_before(self.members, Array::Refs, k);
        sound(ynd, &self.nodes[a..], &self.links[c..], &refs[e..], scratch).unwrap_or(false)
    }

    // Every number of a node of the member k has 16 bits, by its type.
    fn numbers_short(&self, k: usize)
        requires { k < length self.now.members.now }
        ensures { ShortNumbers (take (count_of 10 self.now.members.now k)
            (drop (start_of 15 self.now.members.now k) self.now.nodes.now)) }
    {
        short_numbers(own_entries(self.members, Array::Nodes, k, self.nodes));
    }

    // Whether the member k is sound, and all links that name it name nodes of it.
    #[tactic(auto, using(crate::proofs::SetSoundLaws::one_laws))]
    fn judge_member(&self, refs: &[NodeJunctionRef], k: usize, scratch: &mut [u32]) -> bool
        requires { Holding 14 19 self.now.members.now (length refs.now)
            × (k < length self.now.members.now) × (65536 ≤ length scratch.old) }
        ensures { ((junctions : List JunctionEntry) (heights : List ℕ) → result
            ≡ judged_at (cells_in (set_of self.now junctions heights refs.now))
            (length self.now.members.now) k)
            × (scratch.new ≡ indexed (numbers_of self.now.members.now self.now.nodes.now k) 0 scratch.old) }
    {
        self.numbers_short(k);
        self.member_sound(refs, k, scratch) && self.members_meet(scratch, k)
    }

    // The same of each member. One that is not sound ends nothing, so that the scratch is known whatever the answer.
    #[tactic(auto, using(crate::proofs::SetSoundLaws::loop_laws))]
    fn judge_members(&self, refs: &[NodeJunctionRef], scratch: &mut [u32]) -> bool
        requires { Holding 14 19 self.now.members.now (length refs.now)
            × (65536 ≤ length scratch.old) }
        ensures { ((junctions : List JunctionEntry) (heights : List ℕ) → result
            ≡ set_sound (cells_in (set_of self.now junctions heights refs.now)))
            × (scratch.new ≡ indexed_to (numbers_of self.now.members.now self.now.nodes.now)
            (length self.now.members.now) scratch.old) }
    {
        let mut good = true;
        for k in 0..self.members.len() {
            good &= self.judge_member(refs, k, scratch);
        }
        good
    }
}

// What the call is refused for, with a scratch of `room` entries.
#[tactic(auto, using(crate::proofs::Rules::few_laws), unfolding(crate::specs::SetSoundParts::entries_causes))]
fn sound_answer(
    members: &[MemberWords],
    nodes: usize,
    links: usize,
    refs: usize,
    room: usize,
) -> Result<(), Refusal>
    ensures { result ≡ decided (entries_causes members.now nodes links refs room) }
{
    if over_set(members) {
        return Err(Refusal::AtLimit);
    }
    check_list(members, Array::Nodes, nodes)?;
    check_list(members, Array::Links, links)?;
    check_list(members, Array::Refs, refs)?;
    if room < 65536 {
        return Err(Refusal::TooShort(Lent::Scratch));
    }
    Ok(())
}

// The answer, where nothing refuses the call.
#[tactic(auto, using(crate::proofs::SetSoundLaws::judge_laws))]
fn judge_set(
    members: &[MemberWords],
    nodes: &[NodeEntry],
    links: &[PathLink],
    refs: &[NodeJunctionRef],
    scratch: &mut [u32],
) -> Result<bool, Refusal>
    requires { done ≡ decided (entries_causes members.now (length nodes.now) (length links.now) (length refs.now)
        (length scratch.old)) }
    ensures { (junctions : List JunctionEntry) (heights : List ℕ) → sound_left result scratch.new
        ≡ set_sound_call (cell_set members.now nodes.now links.now junctions heights refs.now) scratch.old }
{
    let mut areas = [0u16; 9];
    let set = World::new(&mut areas, members, nodes, links);
    Ok(set.judge_members(refs, scratch))
}

// Whether a set is sound, whatever its junctions and heightmaps. The scratch then holds each member's numbers, one
// member after the other, each with its last place there; a refusal changes nothing. Each member's nodes are stored in
// the scratch once, and for each member all nodes of the set and the links that they name are looked at once: at most
// nine times the whole set.
#[tactic(auto, using(crate::proofs::SetSoundLaws::by_start))]
pub fn set_sound(
    members: &[MemberWords],
    nodes: &[NodeEntry],
    links: &[PathLink],
    refs: &[NodeJunctionRef],
    scratch: &mut [u32],
) -> Result<bool, Refusal>
    ensures { (junctions : List JunctionEntry) (heights : List ℕ) → sound_left result scratch.new
        ≡ set_sound_call (cell_set members.now nodes.now links.now junctions heights refs.now) scratch.old }
{
    sound_answer(members, nodes.len(), links.len(), refs.len(), scratch.len())?;
    judge_set(members, nodes, links, refs, scratch)
}
