// How much a cell holds, or lists lent for one.
ghost use Rattle.std.specs.Prelude.{◌≡◌, OnOk, ◌≤◌};
ghost use Rattle.cells.specs.Read.{room_check};
ghost use Rattle.cells.specs.RenumberParts.{lengths_of};

use crate::junction_entry::JunctionEntry;
use crate::link::PathLink;
use crate::node_entry::NodeEntry;
use numbers::refusal::{Lent, Refusal};
use records::junction_ref::NodeJunctionRef;

#[derive(Clone, Copy, PartialEq, Eq, Debug, Default)]
pub struct Counts {
    pub nodes: usize,
    pub links: usize,
    pub junctions: usize,
    pub heights: usize,
    pub refs: usize,
}

// How long the lent lists are.
pub fn lengths(
    nodes: &[NodeEntry],
    links: &[PathLink],
    junctions: &[JunctionEntry],
    heights: &[u8],
    refs: &[NodeJunctionRef],
) -> Counts
    ensures { result ≡ lengths_of nodes.now links.now junctions.now heights.now refs.now }
{
    Counts {
        nodes: nodes.len(),
        links: links.len(),
        junctions: junctions.len(),
        heights: heights.len(),
        refs: refs.len(),
    }
}

impl Counts {
    // 7: whether lists of these lengths hold `k` entries.
    #[tactic(auto, using(numbers::proofs::Refusing::tested), unfolding(crate::specs::Read::room_check))]
    pub(crate) fn hold(self, k: Counts) -> Result<(), Refusal>
        ensures value { result ≡ room_check k self.nodes self.links self.junctions self.heights self.refs }
        ensures room { OnOk result ((k.nodes ≤ self.nodes) × (k.links ≤ self.links)
            × (k.junctions ≤ self.junctions) × (k.heights ≤ self.heights) × (k.refs ≤ self.refs)) }
    {
        if self.nodes < k.nodes {
            return Err(Refusal::TooShort(Lent::Nodes));
        }
        if self.links < k.links {
            return Err(Refusal::TooShort(Lent::Links));
        }
        if self.junctions < k.junctions {
            return Err(Refusal::TooShort(Lent::Junctions));
        }
        if self.heights < k.heights {
            return Err(Refusal::TooShort(Lent::Heightmap));
        }
        if self.refs < k.refs {
            return Err(Refusal::TooShort(Lent::Refs));
        }
        Ok(())
    }
}
