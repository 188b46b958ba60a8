// Where a file's five arrays lie: cause 3, in its order.
ghost use Rattle.std.specs.Prelude.{◌≡◌};
ghost use Rattle.records.specs.Sections.{bytes_of};
ghost use Rattle.cells.specs.Checks.{arrays_found};

use crate::ranged::{FileJunctions, FileNodes};
use numbers::refusal::{Array, Refusal};
use records::root::Root;
use records::section::{Part, locate, named_part};

#[derive(Clone, Copy)]
pub struct Arrays {
    pub nodes: Part,
    pub links: Part,
    pub junctions: Part,
    pub heights: Part,
    pub refs: Part,
}

// Their bytes: nodes and links, junctions and heightmaps, refs.
#[derive(Clone, Copy)]
pub(crate) struct FileBytes<'a> {
    pub nodes: FileNodes<'a>,
    pub junctions: FileJunctions<'a>,
    pub refs: &'a [u8],
}

impl Arrays {
    pub(crate) fn bytes<'a>(self, system: &'a [u8], graphics: &'a [u8]) -> FileBytes<'a>
        ensures { (result.nodes.n.now ≡ bytes_of self.nodes system.now graphics.now)
            × (result.nodes.l.now ≡ bytes_of self.links system.now graphics.now)
            × (result.junctions.j.now ≡ bytes_of self.junctions system.now graphics.now)
            × (result.junctions.h.now ≡ bytes_of self.heights system.now graphics.now)
            × (result.refs.now ≡ bytes_of self.refs system.now graphics.now) }
    {
        FileBytes {
            nodes: FileNodes {
                n: named_part(system, graphics, self.nodes),
                l: named_part(system, graphics, self.links),
            },
            junctions: FileJunctions {
                j: named_part(system, graphics, self.junctions),
                h: named_part(system, graphics, self.heights),
            },
            refs: named_part(system, graphics, self.refs),
        }
    }
}

#[tactic(auto, unfolding(crate::specs::Checks::arrays_found))]
pub(crate) fn find_arrays(root: Root, system: usize, graphics: usize) -> Result<Arrays, Refusal>
    ensures { result ≡ arrays_found root system graphics }
{
    let Some(nodes) = locate(root.nodes, root.node_count, 40, system, graphics) else {
        return Err(Refusal::BadArray(Array::Nodes));
    };
    let Some(links) = locate(root.links, root.link_count, 8, system, graphics) else {
        return Err(Refusal::BadArray(Array::Links));
    };
    let Some(junctions) = locate(root.junctions, root.junction_count, 12, system, graphics) else {
        return Err(Refusal::BadArray(Array::Junctions));
    };
    let Some(heights) = locate(root.heightmap, root.heightmap_count, 1, system, graphics) else {
        return Err(Refusal::BadArray(Array::Heightmap));
    };
    let Some(refs) = locate(root.refs, root.ref_count as u32, 8, system, graphics) else {
        return Err(Refusal::BadArray(Array::Refs));
    };
    Ok(Arrays {
        nodes,
        links,
        junctions,
        heights,
        refs,
    })
}
