// A cell lent for writing: its lists, cut to the struct's counts.
ghost use Rattle.std.specs.Prelude.{◌≡◌};
ghost use Rattle.cells.specs.Memory.{memory};
ghost use Rattle.cells.specs.Write.{held};
ghost use Rattle.cells.specs.WriteCounts.{Cut};

use crate::junction_entry::JunctionEntry;
use crate::link::PathLink;
use crate::node_entry::NodeEntry;
use crate::ynd::Ynd;
use records::junction_ref::NodeJunctionRef;

#[derive(Clone, Copy)]
pub(crate) struct Held<'a> {
    pub ynd: Ynd,
    pub nodes: &'a [NodeEntry],
    pub links: &'a [PathLink],
    pub junctions: &'a [JunctionEntry],
    pub heights: &'a [u8],
    pub refs: &'a [NodeJunctionRef],
    ghost cut: { Cut (memory ynd nodes.now links.now junctions.now heights.now refs.now) },
}

impl<'a> Held<'a> {
    #[tactic(auto, using(crate::proofs::Writing::Ranges::front), unfolding(crate::specs::Write::held))]
    pub(crate) fn new(
        ynd: Ynd,
        nodes: &'a [NodeEntry],
        links: &'a [PathLink],
        junctions: &'a [JunctionEntry],
        heights: &'a [u8],
        refs: &'a [NodeJunctionRef],
    ) -> Held<'a>
        ensures { memory result.ynd result.nodes.now result.links.now result.junctions.now result.heights.now
            result.refs.now ≡ held (memory ynd nodes.now links.now junctions.now heights.now refs.now) }
    {
        let n = nodes.len().min(ynd.node_count as usize);
        let l = links.len().min(ynd.link_count as usize);
        let j = junctions.len().min(ynd.junction_count as usize);
        let h = heights.len().min(ynd.heightmap_count as usize);
        let r = refs.len().min(ynd.ref_count as usize);
        Held {
            ynd,
            nodes: &nodes[..n],
            links: &links[..l],
            junctions: &junctions[..j],
            heights: &heights[..h],
            refs: &refs[..r],
        }
    }
}
