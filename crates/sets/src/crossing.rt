// A walk that crosses the members of a set (T-09).
ghost use Rattle.std.specs.Prelude.{◌≡◌, List, ℕ, length};
ghost use Rattle.numbers.specs.Refusals.{decided, done};
ghost use Rattle.sets.specs.CellSet.{cell_set};
ghost use Rattle.sets.specs.Crossing.{location, world_in};
ghost use Rattle.sets.specs.CrossingCall.{location_words, crossing_left};
ghost use Rattle.sets.specs.CrossMember.{cross_member};
ghost use Rattle.sets.specs.CrossParts.{cells_in, start_causes};
ghost use Rattle.cells.specs.declared.junction_entry.JunctionEntry.{JunctionEntry};
ghost use Rattle.records.specs.declared.junction_ref.NodeJunctionRef.{NodeJunctionRef};

use crate::cross::Location;
use crate::entry::{MemberWords, count_in};
use crate::room::{check_list, over_set};
use crate::world::World;
use cells::link::PathLink;
use cells::node_entry::NodeEntry;
use numbers::refusal::{Array, Refusal};
use walks::walk::{End, Steps, Walked, walk_from};

// A node visited: its member and its place there.
pub type LocationWords = [u32; 2];

impl Steps for World<'_> {
    type Place = Location;

    type Entry = LocationWords;

    ghost world = { λ x. world_in (cells_in x.members.now x.nodes.now x.links.now) };

    ghost entry_of = { location_words };

    fn step(&self, at: Location, choice: u8) -> Result<Location, End> {
        self.step_in(at, choice)
    }

    fn entry(&self, at: Location) -> LocationWords {
        [at.member, at.place]
    }
}

// What a walk is refused for before its first step.
#[tactic(auto, using(crate::proofs::Rules::few_laws), unfolding(crate::specs::CrossParts::start_causes))]
fn start_answer(
    members: &[MemberWords],
    nodes: usize,
    links: usize,
    member: usize,
    place: usize,
) -> Result<(), Refusal>
    ensures { result ≡ decided (start_causes members.now nodes links (location member place)) }
{
    if members.len() <= member {
        return Err(Refusal::NoSuchPlace);
    }
    if count_in(members[member], Array::Nodes) <= place {
        return Err(Refusal::NoSuchPlace);
    }
    if over_set(members) {
        return Err(Refusal::AtLimit);
    }
    check_list(members, Array::Nodes, nodes)?;
    check_list(members, Array::Links, links)
}

// The walk, where nothing refuses its start.
#[tactic(auto, using(crate::proofs::Rules::start_laws))]
fn walk_started(
    members: &[MemberWords],
    nodes: &[NodeEntry],
    links: &[PathLink],
    member: usize,
    place: usize,
    choices: &[u8],
    visited: &mut [LocationWords],
) -> Result<Walked, Refusal>
    requires { done ≡ decided (start_causes members.now (length nodes.now) (length links.now)
        (location member place)) }
    ensures { (junctions : List JunctionEntry) (heights : List ℕ) (refs : List NodeJunctionRef)
        → crossing_left result visited.new
        ≡ cross_member (cell_set members.now nodes.now links.now junctions heights refs) choices.now
        (location member place) visited.old }
{
    let mut areas = [0u16; 9];
    let set = World::new(&mut areas, members, nodes, links);
    let start = Location {
        member: member as u32,
        place: place as u32,
    };
    walk_from(&set, start, choices, visited)
}

// A walk from a member and a place in it, by a byte a choice, that goes on in the member that a link names, whatever
// the lists that are not lent. `visited` gets member and place of each node visited; a refusal changes nothing.
#[tactic(auto, using(crate::proofs::CrossCases::call_split))]
pub fn crossing_walk(
    members: &[MemberWords],
    nodes: &[NodeEntry],
    links: &[PathLink],
    member: usize,
    place: usize,
    choices: &[u8],
    visited: &mut [LocationWords],
) -> Result<Walked, Refusal>
    ensures { (junctions : List JunctionEntry) (heights : List ℕ) (refs : List NodeJunctionRef)
        → crossing_left result visited.new
        ≡ cross_member (cell_set members.now nodes.now links.now junctions heights refs) choices.now
        (location member place) visited.old }
{
    start_answer(members, nodes.len(), links.len(), member, place)?;
    walk_started(members, nodes, links, member, place, choices, visited)
}
