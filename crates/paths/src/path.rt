// The shortest path between two places.
ghost use Rattle.std.specs.Prelude.{◌≡◌, List, ℕ, ◌+◌, ◌*◌, ◌<◌, ◌≤◌, length};
ghost use Rattle.numbers.specs.Refusals.{decided};
ghost use Rattle.cells.specs.Memory.{memory};
ghost use Rattle.paths.specs.Labels.{choices_to, places_to};
ghost use Rattle.paths.specs.PathCall.{path_causes, Searched, PathLeft};
ghost use Rattle.paths.specs.Search.{ShortCounts, ShortLinks};
ghost use Rattle.paths.specs.Scratch.{from_at, by_at, Traced};
ghost use Rattle.cells.specs.declared.junction_entry.JunctionEntry.{JunctionEntry};
ghost use Rattle.records.specs.declared.junction_ref.NodeJunctionRef.{NodeJunctionRef};

use crate::scratch::{by_of, from_of, label_of};
use crate::search::Search;
use cells::link::PathLink;
use cells::node_entry::NodeEntry;
use cells::ynd::Ynd;
use numbers::refusal::{Lent, Refusal};
use walks::place::check_place;

// The distance, that is the sum of the links' lengths, and the number of links.
#[derive(Clone, Copy)]
pub struct Shortest {
    pub distance: u32,
    pub links: usize,
}

// The remembered path to the place `goal`, backwards, in as many choices as its label says.
#[tactic(auto, using(crate::proofs::FillLaws::fill_start, crate::proofs::FillLaws::fill_places))]
fn fill(scratch: &[u32], goal: usize, choices: &mut [u8], places: &mut [u32])
    requires { Traced scratch.now goal (length choices.old) × (length places.old ≡ length choices.old + 1) }
    ensures { (choices.new
        ≡ choices_to (from_at scratch.now) (by_at scratch.now) (length choices.old) goal)
        × (places.new ≡ places_to (from_at scratch.now) (length choices.old) goal) }
{
    let mut v = goal;
    for i in (0..choices.len()).rev() {
        places[i + 1] = v as u32;
        choices[i] = by_of(scratch, v);
        v = from_of(scratch, v);
    }
    places[0] = v as u32;
}

// A number of 8 bits, by its type.
fn eight_bits(n: u8)
    ensures { n < 256 }
{}

// Every count of links has 8 bits, by its type. There is nothing to run: the loop tells it of the whole list.
fn short_counts(nodes: &[NodeEntry])
    ensures { ShortCounts nodes.now }
{
    for i in 0..nodes.len() {
        eight_bits(nodes[i].link_count);
    }
}

// The same of every length.
fn short_links(links: &[PathLink])
    ensures { ShortLinks links.now }
{
    for i in 0..links.len() {
        eight_bits(links[i].length);
    }
}

// What is asked before the search, of a cell in lists of so many nodes and links, with a scratch of `room` entries.
#[tactic(auto, using(numbers::proofs::Refusing::tests), unfolding(crate::specs::PathCall::path_causes, walks::specs::PlaceCauses::place_causes))]
fn check_asked(
    ynd: Ynd,
    nodes: usize,
    links: usize,
    from: usize,
    to: usize,
    room: usize,
) -> Result<(), Refusal>
    ensures { result ≡ decided (path_causes ynd nodes links from to room) }
{
    let n = ynd.node_count as usize;
    if n <= from {
        return Err(Refusal::NoSuchPlace);
    }
    check_place(ynd, nodes, links, to)?;
    if room < 4 * n {
        return Err(Refusal::TooShort(Lent::PathScratch));
    }
    Ok(())
}

impl Search<'_> {
    ghost use Rattle.paths.specs.Going.{nodes_in};

    // The path from the start to the place `to`, in a scratch that is long enough.
    #[tactic(auto, using(crate::proofs::PathLaws::found_laws))]
    fn find_path(
        &self,
        to: usize,
        scratch: &mut [u32],
        choices: &mut [u8],
        places: &mut [u32],
    ) -> Result<Shortest, Refusal>
        requires { (to < self.now.ynd.node_count) × (4 * self.now.ynd.node_count ≤ length scratch.old) }
        ensures { Searched (nodes_in self.now) self.now.ynd.node_count self.now.start to
            choices.old places.old result choices.new places.new }
    {
        let n = self.nodes.len();
        self.run(scratch);
        let label = label_of(scratch, to);
        if 72057589742960640 <= label {
            return Err(Refusal::NoPath);
        }
        if choices.len() < n {
            return Err(Refusal::TooShort(Lent::List));
        }
        if places.len() < n {
            return Err(Refusal::TooShort(Lent::List));
        }
        let count = (label % 4294967296) as usize;
        fill(scratch, to, &mut choices[..count], &mut places[..count + 1]);
        Ok(Shortest {
            distance: (label / 4294967296) as u32,
            links: count,
        })
    }
}

// A walk from one place to another by the cell's own links whose lengths add up to least, whatever the lists that are
// not lent. `choices` and `places` get it. The scratch has four entries for each node: once that is asked it may hold
// anything; before, a refusal changes nothing.
#[tactic(auto, using(crate::proofs::PathLaws::path_laws))]
pub fn shortest_path(
    ynd: Ynd,
    nodes: &[NodeEntry],
    links: &[PathLink],
    from: usize,
    to: usize,
    scratch: &mut [u32],
    choices: &mut [u8],
    places: &mut [u32],
) -> Result<Shortest, Refusal>
    ensures { (junctions : List JunctionEntry) (heights : List ℕ) (refs : List NodeJunctionRef)
        → PathLeft (memory ynd nodes.now links.now junctions heights refs) from to
        scratch.old choices.old places.old
        result scratch.new choices.new places.new }
{
    check_asked(ynd, nodes.len(), links.len(), from, to, scratch.len())?;
    short_counts(nodes);
    short_links(links);
    let nodes = &nodes[..ynd.node_count as usize];
    let search = Search {
        ynd,
        nodes,
        links,
        start: from,
    };
    search.find_path(to, scratch, choices, places)
}
