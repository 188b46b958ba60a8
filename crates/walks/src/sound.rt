// Whether a cell is sound: one area, numbers that differ, and each own link and own ref names a node.
ghost use Rattle.std.specs.Prelude.{◌≡◌, Bool, List, ℕ, ◌≤◌, length, slice_index};
ghost use Rattle.cells.specs.Lists.{every};
ghost use Rattle.cells.specs.Lookup.{first_with, is_some};
ghost use Rattle.cells.specs.Memory.{memory};
ghost use Rattle.cells.specs.Nodes.{first_area};
ghost use Rattle.cells.specs.declared.junction_entry.JunctionEntry.{JunctionEntry};
ghost use Rattle.cells.specs.RenumberParts.{Indexed, Leads};
ghost use Rattle.walks.specs.Sound.{differing};
ghost use Rattle.walks.specs.SoundCall.{verdict, indexed, sound_left, sound_call};
ghost use Rattle.walks.specs.SoundParts.{all_numbers, named, named_link, named_ref, node_sound, nodes_sound, none_or};

use cells::area::{belongs_to, own_area};
use cells::link::PathLink;
use cells::node_entry::NodeEntry;
use cells::number_index::Numbers;
use cells::range::part;
use cells::relink::Named;
use cells::room::own_nodes;
use cells::ynd::Ynd;
use numbers::refusal::{Lent, Refusal};
use records::junction_ref::NodeJunctionRef;

// The place of the last node that has it, for each number that a node has. Entries of other numbers stay as they were.
#[tactic(auto, using(crate::proofs::ScratchLaws::index_laws), unfolding(crate::specs::SoundCall::indexed))]
fn index_numbers(nodes: &[NodeEntry], scratch: &mut [u32])
    requires { (length nodes.now ≤ 4294967295) × (65536 ≤ length scratch.old) }
    ensures { (scratch.new ≡ indexed (all_numbers nodes.now) 0 scratch.old)
        × Indexed (all_numbers nodes.now) scratch.new }
{
    for (i, n) in nodes.iter().enumerate() {
        scratch[n.node_id as usize] = i as u32;
    }
}

// What links and refs are looked up in: nodes, all of the area `own` if they are sound.
#[derive(Clone, Copy)]
struct Known<'a> {
    numbers: Numbers<'a>,
    own: u16,
}

impl Known<'_> {
    // Whether the numbers differ: each node is the last that has its number.
    fn differ(&self) -> bool
        ensures { result ≡ differing (all_numbers self.now.numbers.nodes.now) }
    {
        let scratch = self.numbers.scratch;
        self.numbers
            .nodes
            .iter()
            .enumerate()
            .all(|(i, n)| scratch[n.node_id as usize] as usize == i)
    }

    // Whether a link or a ref names a node, if it is of the area `own`.
    #[tactic(auto, unfolding(crate::specs::SoundParts::named))]
    fn names(&self, area: u16, number: u16) -> bool
        ensures { result ≡ named (all_numbers self.now.numbers.nodes.now) self.now.own area number }
    {
        !belongs_to(self.own, area) || self.numbers.has(number)
    }

    // The same of each of a list of links or refs.
    fn names_all<T: Named>(&self, list: &[T]) -> bool
        ensures { result ≡ every (λ x. named (all_numbers self.now.numbers.nodes.now) self.now.own
            (T.area x) (T.number x)) list.now }
    {
        list.iter().all(|x| self.names(x.area(), x.number()))
    }

    // Whether a node is of the area `own`, and its links name nodes.
    #[tactic(auto, unfolding(crate::specs::SoundParts::node_sound))]
    fn node_sound(&self, links: &[PathLink], n: &NodeEntry) -> bool
        ensures { result ≡ node_sound (all_numbers self.now.numbers.nodes.now) self.now.own links.now n.now }
    {
        n.area_id == self.own
            && self.names_all(part(links, n.link_id as usize, n.link_count as usize))
    }

    fn nodes_sound(&self, links: &[PathLink]) -> bool
        ensures { result
            ≡ every (node_sound (all_numbers self.now.numbers.nodes.now) self.now.own links.now)
            self.now.numbers.nodes.now }
    {
        self.numbers.nodes.iter().all(|n| self.node_sound(links, n))
    }

    // Whether the nodes with these links and refs are sound.
    #[tactic(auto, unfolding(crate::specs::SoundParts::nodes_sound))]
    fn sound(&self, links: &[PathLink], refs: &[NodeJunctionRef]) -> bool
        ensures { result ≡ nodes_sound self.now.numbers.nodes.now self.now.own links.now refs.now }
    {
        self.nodes_sound(links) && self.differ() && self.names_all(refs)
    }
}

// Whether nodes with these links and refs are sound, by a scratch that leads to the nodes.
fn judge(nodes: &[NodeEntry], links: &[PathLink], refs: &[NodeJunctionRef], scratch: &[u32]) -> bool
    requires { Leads (all_numbers nodes.now) scratch.now }
    ensures { result ≡ none_or nodes.now (nodes_sound nodes.now (first_area nodes.now) links.now refs.now) }
{
    let own = own_area(nodes, nodes.len());
    let known = Known {
        numbers: Numbers { nodes, scratch },
        own,
    };
    nodes.is_empty() || known.sound(links, refs)
}

// Whether the cell is sound, whatever its junctions and heightmaps. The scratch then holds each number's last place;
// a refusal changes nothing.
#[tactic(auto, using(crate::proofs::SoundCases::sound_cases))]
pub fn sound(
    ynd: Ynd,
    nodes: &[NodeEntry],
    links: &[PathLink],
    refs: &[NodeJunctionRef],
    scratch: &mut [u32],
) -> Result<bool, Refusal>
    ensures { (junctions : List JunctionEntry) (heights : List ℕ) → sound_left result scratch.new
        ≡ sound_call (memory ynd nodes.now links.now junctions heights refs.now) scratch.old }
{
    let nodes = own_nodes(ynd, nodes)?;
    let links = links
        .get(..ynd.link_count as usize)
        .ok_or(Refusal::TooShort(Lent::Links))?;
    let refs = refs
        .get(..ynd.ref_count as usize)
        .ok_or(Refusal::TooShort(Lent::Refs))?;
    if scratch.len() < 65536 {
        return Err(Refusal::TooShort(Lent::Scratch));
    }
    index_numbers(nodes, scratch);
    Ok(judge(nodes, links, refs, scratch))
}
