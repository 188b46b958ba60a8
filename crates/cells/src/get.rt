// Entries taken out by place.
ghost use Rattle.std.specs.Prelude.{◌≡◌, length};
ghost use Rattle.cells.specs.Edit.{got, got_as, node_entry, link_entry, ref_entry, junction_entry, height_entry};
ghost use Rattle.cells.specs.EntryForms.{entry_as_junction, entry_as_node};
ghost use Rattle.cells.specs.Nodes.{no_entry, no_link, no_map, no_ref};

use crate::entry::{height_entry, junction_entry, link_entry, node_entry, ref_entry};
use crate::junction::PathJunction;
use crate::junction_entry::JunctionEntry;
use crate::link::PathLink;
use crate::node::PathNode;
use crate::node_entry::NodeEntry;
use crate::ynd::Ynd;
use numbers::refusal::Refusal;
use records::junction_ref::NodeJunctionRef;

pub fn get_node(ynd: Ynd, nodes: &[NodeEntry], place: usize) -> Result<PathNode, Refusal>
    ensures { result ≡ got_as entry_as_node no_entry (node_entry ynd nodes.now place) nodes.now }
{
    let i = node_entry(ynd, nodes, place)?;
    Ok(nodes[i].into())
}

// Link k of the node at a place.
pub fn get_link(
    ynd: Ynd,
    nodes: &[NodeEntry],
    links: &[PathLink],
    place: usize,
    k: usize,
) -> Result<PathLink, Refusal>
    ensures { result ≡ got no_link (link_entry ynd nodes.now (length links.now) place k) links.now }
{
    let i = link_entry(ynd, nodes, links.len(), place, k)?;
    Ok(links[i])
}

pub fn get_ref(ynd: Ynd, refs: &[NodeJunctionRef], place: usize) -> Result<NodeJunctionRef, Refusal>
    ensures { result ≡ got no_ref (ref_entry ynd refs.now place) refs.now }
{
    let i = ref_entry(ynd, refs, place)?;
    Ok(refs[i])
}

pub fn get_junction(
    ynd: Ynd,
    junctions: &[JunctionEntry],
    place: usize,
) -> Result<PathJunction, Refusal>
    ensures { result ≡ got_as entry_as_junction no_map (junction_entry ynd junctions.now place) junctions.now }
{
    let i = junction_entry(ynd, junctions, place)?;
    Ok(junctions[i].into())
}

// Value k of the junction at a place.
pub fn get_height(
    ynd: Ynd,
    junctions: &[JunctionEntry],
    heights: &[u8],
    place: usize,
    k: usize,
) -> Result<u8, Refusal>
    ensures { result ≡ got 0 (height_entry ynd junctions.now (length heights.now) place k) heights.now }
{
    let i = height_entry(ynd, junctions, heights.len(), place, k)?;
    Ok(heights[i])
}
