// A walk in which a node is found by a lent index of the numbers.
ghost use Rattle.std.specs.Prelude.{◌≡◌, List, ℕ, false, ◌<◌, ◌≤◌, length, map, Ok, OnOk};
ghost use Rattle.cells.specs.Cell.{numbers};
ghost use Rattle.cells.specs.CellOf.{nodes_of};
ghost use Rattle.cells.specs.Lookup.{find};
ghost use Rattle.cells.specs.LookupCall.{node_call};
ghost use Rattle.cells.specs.Memory.{memory, over_limit};
ghost use Rattle.cells.specs.Nodes.{number_of};
ghost use Rattle.walks.specs.Walk.{arrive};
ghost use Rattle.walks.specs.WalkCall.{walk_left};
ghost use Rattle.walks.specs.WalkParts.{lent, lent_world, step_of};
ghost use Rattle.indexed.specs.FirstPlaces.{FirstPlaces, has_number};
ghost use Rattle.indexed.specs.WalkIndexed.{asked, first_indexed, index_left, walk_indexed};
ghost use Rattle.cells.specs.declared.junction_entry.JunctionEntry.{JunctionEntry};
ghost use Rattle.records.specs.declared.junction_ref.NodeJunctionRef.{NodeJunctionRef};

use cells::link::PathLink;
use cells::node_entry::NodeEntry;
use cells::ynd::Ynd;
use numbers::refusal::{Lent, Refusal};
use walks::place::check_place;
use walks::walk::{End, Steps, Walked, own_number, walk, walk_from};

// For each number that a node has, the place of the first that has it. Entries of other numbers stay as they were.
#[tactic(auto, using(crate::proofs::IndexLaws::first_laws))]
fn index_numbers(nodes: &[NodeEntry], scratch: &mut [u32])
    requires { (length nodes.now ≤ 4294967295) × (65536 ≤ length scratch.old) }
    ensures { (scratch.new ≡ first_indexed (map number_of nodes.now) 0 scratch.old)
        × FirstPlaces nodes.now 0 (length nodes.now) scratch.new }
{
    for i in (0..nodes.len()).rev() {
        scratch[nodes[i].node_id as usize] = i as u32;
    }
}

// What a walk is lent. The lists hold what the struct counts; the scratch leads from each number that a node has to
// the first that has it.
#[derive(Clone, Copy)]
struct Yard<'a> {
    ynd: Ynd,
    nodes: &'a [NodeEntry],
    links: &'a [PathLink],
    scratch: &'a [u32],
    ghost within: { over_limit ynd ≡ false },
    ghost nodes_held: { ynd.node_count ≤ length nodes.now },
    ghost links_held: { ynd.link_count ≤ length links.now },
    ghost room: { 65536 ≤ length scratch.now },
    ghost places: { FirstPlaces nodes.now 0 ynd.node_count scratch.now },
}

impl Yard<'_> {
    // Whether there is a node at the place, and it has the number.
    fn has(&self, place: usize, number: u16) -> bool
        ensures { result ≡ has_number self.now.nodes.now self.now.ynd.node_count place number }
    {
        place < self.ynd.node_count as usize && self.nodes[place].node_id == number
    }

    // What `node` finds. An entry of the scratch counts only if the node that it leads to has the number.
    #[tactic(auto, using(crate::proofs::PlaceLaws::found_laws))]
    fn find(&self, number: u16) -> Option<usize>
        ensures { Ok result ≡ node_call self.now.ynd self.now.nodes.now number }
    {
        let own = number as usize;
        if self.has(own, number) {
            return Some(own);
        }
        let first = self.scratch[own] as usize;
        if self.has(first, number) {
            return Some(first);
        }
        None
    }

    // On to the node with the number.
    #[tactic(auto, using(walks::proofs::StepLaws::arrive_laws))]
    fn arrive(&self, number: u16) -> Result<u32, End>
        ensures { result ≡ step_of (arrive (find
            (numbers (nodes_of (lent self.now.ynd self.now.nodes.now self.now.links.now))) number)) }
    {
        let q = self.find(number).ok_or(End::NoNode)?;
        Ok(q as u32)
    }
}

impl Steps for Yard<'_> {
    type Place = u32;

    type Entry = u32;

    ghost world = { λ y. lent_world y.ynd y.nodes.now y.links.now };

    ghost entry_of = { λ p. p };

    #[tactic(auto, using(walks::proofs::StepLaws::next_laws))]
    fn step(&self, place: u32, choice: u8) -> Result<u32, End> {
        let nodes = &self.nodes[..self.ynd.node_count as usize];
        let links = &self.links[..self.ynd.link_count as usize];
        self.arrive(own_number(nodes, links, place as usize, choice)?)
    }

    fn entry(&self, place: u32) -> u32 {
        place
    }
}

// What is asked before the walk, of a cell in lists of so many nodes and links, with a scratch of `room` entries.
#[tactic(auto, using(numbers::proofs::Refusing::tests), unfolding(crate::specs::WalkIndexed::indexed_causes, walks::specs::PlaceCauses::place_causes))]
fn check_asked(
    ynd: Ynd,
    nodes: usize,
    links: usize,
    start: usize,
    room: usize,
) -> Result<(), Refusal>
    ensures value { result ≡ asked ynd nodes links start room }
    ensures passed { OnOk result ((over_limit ynd ≡ false) × (start < ynd.node_count)
        × (ynd.node_count ≤ 65536) × (ynd.node_count ≤ nodes) × (ynd.link_count ≤ links) × (65536 ≤ room)) }
{
    check_place(ynd, nodes, links, start)?;
    if room < 65536 {
        return Err(Refusal::TooShort(Lent::Scratch));
    }
    Ok(())
}

// As `walk`, with a scratch by which the node with a number is found at once. The scratch then holds each number's
// first place; a refusal changes nothing. With no more entries than choices the visited list may be too short, and only
// the walk can tell: it is walked without the index first.
#[tactic(auto, using(crate::proofs::WalkLaws::call_laws), unfolding(crate::specs::WalkIndexed::walk_indexed))]
pub fn walk_indexed(
    ynd: Ynd,
    nodes: &[NodeEntry],
    links: &[PathLink],
    start: usize,
    choices: &[u8],
    visited: &mut [u32],
    scratch: &mut [u32],
) -> Result<Walked, Refusal>
    ensures walked { (junctions : List JunctionEntry) (heights : List ℕ) (refs : List NodeJunctionRef)
        → walk_left result visited.new
        ≡ walk_indexed (memory ynd nodes.now links.now junctions heights refs) (length scratch.old)
        choices.now start visited.old }
    ensures index { scratch.new ≡ index_left result ynd nodes.now scratch.old }
{
    check_asked(ynd, nodes.len(), links.len(), start, scratch.len())?;
    let own = &nodes[..ynd.node_count as usize];
    if visited.len() <= choices.len() {
        let walked = walk(ynd, nodes, links, start, choices, visited)?;
        index_numbers(own, scratch);
        return Ok(walked);
    }
    index_numbers(own, scratch);
    let yard = Yard {
        ynd,
        nodes,
        links,
        scratch,
    };
    walk_from(&yard, start as u32, choices, visited)
}
