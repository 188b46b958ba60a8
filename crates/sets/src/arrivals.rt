// Whether the links that name a member name nodes of it (T-09).
ghost use Rattle.std.specs.Prelude.{◌≡◌, ◌≤◌, ◌<◌, ◌+◌, length, map, take, drop};
ghost use Rattle.cells.specs.Lists.{every};
ghost use Rattle.cells.specs.LookupCall.{numbers_in};
ghost use Rattle.cells.specs.Nodes.{number_of};
ghost use Rattle.cells.specs.RenumberParts.{Leads};
ghost use Rattle.sets.specs.Leave.{start_of};
ghost use Rattle.sets.specs.SetParts.{count_of};
ghost use Rattle.sets.specs.SetSoundParts.{all_below, word_meets, words_meet, part_meets};

use crate::areas::member_named;
use crate::parts::own_entries;
use crate::world::World;
use cells::link::PathLink;
use cells::node_entry::NodeEntry;
use cells::number_index::Numbers;
use cells::range::part;
use numbers::refusal::Array;

// A member that links may name: its set, its number there, and its nodes, found by their numbers.
#[derive(Clone, Copy)]
pub(crate) struct Target<'a> {
    pub set: World<'a>,
    pub member: usize,
    pub numbers: Numbers<'a>,
}

impl Target<'_> {
    // Whether a link of the member i, if it names this one, names a node here.
    #[tactic(auto, using(crate::proofs::Rules::meet_laws))]
    fn link_meets(&self, i: usize, l: PathLink) -> bool
        requires { i < length self.now.set.members.now }
        ensures { result ≡ word_meets self.now.set.areas.now self.now.member
            (map number_of self.now.numbers.nodes.now) i l }
    {
        member_named(self.set.areas, i, l.area_id) != Some(self.member)
            || self.numbers.has(l.node_id)
    }

    // The same of a node's links.
    fn node_meets(&self, i: usize, links: &[PathLink], n: &NodeEntry) -> bool
        requires { i < length self.now.set.members.now }
        ensures { result ≡ words_meet self.now.set.areas.now self.now.member
            (map number_of self.now.numbers.nodes.now) i links.now n.now }
    {
        part(links, n.link_id as usize, n.link_count as usize)
            .iter()
            .all(|l| self.link_meets(i, *l))
    }

    // The same of all links of the member i.
    fn member_meets(&self, i: usize) -> bool
        requires { i < length self.now.set.members.now }
        ensures { result ≡ every (words_meet self.now.set.areas.now self.now.member
            (map number_of self.now.numbers.nodes.now) i
            (take (count_of 11 self.now.set.members.now i)
            (drop (start_of 16 self.now.set.members.now i) self.now.set.links.now)))
            (take (count_of 10 self.now.set.members.now i)
            (drop (start_of 15 self.now.set.members.now i) self.now.set.nodes.now)) }
    {
        let set = self.set;
        let links = own_entries(set.members, Array::Links, i, set.links);
        own_entries(set.members, Array::Nodes, i, set.nodes)
            .iter()
            .all(|n| self.node_meets(i, links, n))
    }
}

impl World<'_> {
    // Whether all links of all members that name the member k name nodes of it. The scratch leads to that member's
    // nodes.
    #[tactic(auto, unfolding(cells::specs::LookupCall::numbers_in))]
    pub(crate) fn members_meet(&self, scratch: &[u32], k: usize) -> bool
        requires { (k < length self.now.members.now)
            × Leads (numbers_in (count_of 10 self.now.members.now k)
            (drop (start_of 15 self.now.members.now k) self.now.nodes.now)) scratch.now }
        ensures { result ≡ all_below (part_meets self.now.areas.now self.now.members.now self.now.nodes.now
            self.now.links.now k) (length self.now.members.now) }
    {
        let nodes = own_entries(self.members, Array::Nodes, k, self.nodes);
        let target = Target {
            set: *self,
            member: k,
            numbers: Numbers { nodes, scratch },
        };
        (0..self.members.len()).all(|i| target.member_meets(i))
    }
}
