// A walk from link to link.
ghost use Rattle.std.specs.Prelude.{◌≡◌, false, List, ℕ, ◌≤◌, leb, length, map};
ghost use Rattle.cells.specs.Cell.{numbers};
ghost use Rattle.cells.specs.declared.junction_entry.JunctionEntry.{JunctionEntry};
ghost use Rattle.records.specs.declared.junction_ref.NodeJunctionRef.{NodeJunctionRef};
ghost use Rattle.cells.specs.CellOf.{nodes_of};
ghost use Rattle.cells.specs.Lookup.{find};
ghost use Rattle.cells.specs.Memory.{memory, over_limit};
ghost use Rattle.walks.specs.Walk.{World, arrive, walk_in};
ghost use Rattle.walks.specs.Claim.{places};
ghost use Rattle.walks.specs.Parts.{own_number};
ghost use Rattle.walks.specs.WalkCall.{walk_left, walk_call};
ghost use Rattle.walks.specs.WalkParts.{step_of, lent, lent_world, traced, over, trail_left, stored_in};

use crate::part::link_at;
use crate::place::check_place;
use cells::area::{belongs_to, own_area};
use cells::link::PathLink;
use cells::lookup::node;
use cells::node_entry::NodeEntry;
use cells::ynd::Ynd;
use numbers::refusal::{Lent, Refusal};

// How a walk ends. `Left` has the area and the number that the link names.
#[derive(Clone, Copy)]
pub enum End {
    Done,
    NoLink,
    Left(u16, u16),
    NoNode,
}

// The end of a walk, and how many places it visits.
#[derive(Clone, Copy)]
pub struct Walked {
    pub end: End,
    pub count: usize,
}

// What leads from place to place: a cell's links, or those of a set's members.
pub trait Steps {
    type Place: Copy;

    // How a list of places visited holds one.
    type Entry: Copy;

    ghost world: { Self → World Self.Place };

    ghost entry_of: { Self.Place → Self.Entry };

    // Where a choice leads from a place, or how it ends the walk.
    fn step(&self, place: Self::Place, choice: u8) -> Result<Self::Place, End>
        ensures { result ≡ step_of ((world self.now).next place choice) };

    fn entry(&self, place: Self::Place) -> Self::Entry
        ensures { result ≡ entry_of place };
}

// How many places a walk visits. Nothing is stored. The loop isn't shared with `store` by a closure: what that may be
// asked at each place would be longer than the loop.
#[tactic(auto, using(crate::proofs::Reaches::reached_laws))]
fn places_visited<S: Steps>(steps: &S, start: S::Place, choices: &[u8]) -> usize
    ensures { result ≡ length (places (walk_in (S.world steps.now) choices.now start)) }
{
    let mut p = start;
    for (i, b) in choices.iter().enumerate() {
        match steps.step(p, *b) {
            Ok(q) => p = q,
            Err(_) => return i + 1,
        }
    }
    choices.len() + 1
}

// Whether the places that a walk visits go into a list of `room` entries. They are counted only where there are as
// many choices.
#[tactic(auto, using(crate::proofs::Reaches::room_sure))]
fn has_room<S: Steps>(steps: &S, start: S::Place, choices: &[u8], room: usize) -> bool
    ensures { result ≡ leb (length (places (walk_in (S.world steps.now) choices.now start))) room }
{
    choices.len() < room || places_visited(steps, start, choices) <= room
}

// Stores the places that a walk visits.
fn store<S: Steps>(steps: &S, start: S::Place, choices: &[u8], visited: &mut [S::Entry]) -> Walked
    requires { length (places (walk_in (S.world steps.now) choices.now start)) ≤ length visited.old }
    ensures traced { result ≡ traced (walk_in (S.world steps.now) choices.now start) }
    ensures stored { visited.new
        ≡ over (map S.entry_of (places (walk_in (S.world steps.now) choices.now start))) visited.old }
{
    let mut p = start;
    for (i, b) in choices.iter().enumerate() {
        visited[i] = steps.entry(p);
        match steps.step(p, *b) {
            Ok(q) => p = q,
            Err(end) => return Walked { end, count: i + 1 },
        }
    }
    visited[choices.len()] = steps.entry(p);
    Walked {
        end: End::Done,
        count: choices.len() + 1,
    }
}

// A walk from a place, by a byte a choice. `visited` gets the places, if it has room for them.
#[tactic(auto, using(crate::proofs::Storing::left_laws))]
pub fn walk_from<S: Steps>(
    steps: &S,
    start: S::Place,
    choices: &[u8],
    visited: &mut [S::Entry],
) -> Result<Walked, Refusal>
    ensures { trail_left result visited.new
        ≡ stored_in S.entry_of (walk_in (S.world steps.now) choices.now start) visited.old }
{
    if !has_room(steps, start, choices, visited.len()) {
        return Err(Refusal::TooShort(Lent::List));
    }
    Ok(store(steps, start, choices, visited))
}

// The number of the node that a choice leads to in the cell of these nodes, or how it ends the walk there.
#[inline(always)]
#[tactic(auto, unfolding(crate::specs::Parts::own_number))]
pub fn own_number(
    nodes: &[NodeEntry],
    links: &[PathLink],
    place: usize,
    choice: u8,
) -> Result<u16, End>
    ensures { result ≡ own_number nodes.now links.now place choice }
{
    let l = link_at(nodes, links, place, choice).ok_or(End::NoLink)?;
    if belongs_to(own_area(nodes, nodes.len()), l.area_id) {
        return Ok(l.node_id);
    }
    Err(End::Left(l.area_id, l.node_id))
}

// What a walk is lent. The lists hold what the struct counts.
#[derive(Clone, Copy)]
struct Yard<'a> {
    ynd: Ynd,
    nodes: &'a [NodeEntry],
    links: &'a [PathLink],
    ghost within: { over_limit ynd ≡ false },
    ghost nodes_held: { ynd.node_count ≤ length nodes.now },
    ghost links_held: { ynd.link_count ≤ length links.now },
}

impl Yard<'_> {
    // On to the node with the number.
    #[tactic(auto, using(crate::proofs::StepLaws::arrive_laws))]
    fn arrive(&self, number: u16) -> Result<u32, End>
        ensures { result ≡ step_of (arrive (find
            (numbers (nodes_of (lent self.now.ynd self.now.nodes.now self.now.links.now))) number)) }
    {
        match node(self.ynd, self.nodes, number) {
            Ok(Some(q)) => Ok(q as u32),
            _ => Err(End::NoNode),
        }
    }
}

impl Steps for Yard<'_> {
    type Place = u32;

    type Entry = u32;

    ghost world = { λ y. lent_world y.ynd y.nodes.now y.links.now };

    ghost entry_of = { λ p. p };

    #[tactic(auto, using(crate::proofs::StepLaws::next_laws))]
    fn step(&self, place: u32, choice: u8) -> Result<u32, End> {
        let nodes = &self.nodes[..self.ynd.node_count as usize];
        let links = &self.links[..self.ynd.link_count as usize];
        self.arrive(own_number(nodes, links, place as usize, choice)?)
    }

    fn entry(&self, place: u32) -> u32 {
        place
    }
}

// A walk from a place, by a byte a choice, whatever the lists that are not lent. `visited` gets the places; a refusal
// changes nothing.
#[tactic(auto, unfolding(crate::specs::WalkCall::walk_call, crate::specs::PlaceCauses::place_causes))]
pub fn walk(
    ynd: Ynd,
    nodes: &[NodeEntry],
    links: &[PathLink],
    start: usize,
    choices: &[u8],
    visited: &mut [u32],
) -> Result<Walked, Refusal>
    ensures { (junctions : List JunctionEntry) (heights : List ℕ) (refs : List NodeJunctionRef)
        → walk_left result visited.new
        ≡ walk_call (memory ynd nodes.now links.now junctions heights refs) choices.now start visited.old }
{
    check_place(ynd, nodes.len(), links.len(), start)?;
    walk_from(&Yard { ynd, nodes, links }, start as u32, choices, visited)
}
