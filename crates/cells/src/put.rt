// Entries stored by place.
ghost use Rattle.std.specs.Prelude.{◌≡◌};
ghost use Rattle.cells.specs.Edit.{stored, range_kept, put_node, set_position, put_link, put_ref, put_junction};
ghost use Rattle.cells.specs.Edit.{put_height};

use crate::entry::{height_entry, link_entry, node_entry, ref_entry, sized_entry};
use crate::junction::PathJunction;
use crate::junction_entry::JunctionEntry;
use crate::link::PathLink;
use crate::node::PathNode;
use crate::node_entry::NodeEntry;
use crate::range::{map_size, start_at};
use crate::ynd::Ynd;
use numbers::math::Vec3;
use numbers::position::stored_position;
use numbers::refusal::Refusal;
use records::junction_ref::NodeJunctionRef;

// A node with the range of links that its entry has.
#[tactic(auto, unfolding(crate::specs::Edit::range_kept))]
fn range_kept(n: NodeEntry, old: NodeEntry) -> NodeEntry
    ensures { result ≡ range_kept n old }
{
    NodeEntry {
        link_id: old.link_id,
        link_count: old.link_count,
        ..n
    }
}

// Stores every field but where the node's links are.
#[tactic(auto, unfolding(crate::specs::Edit::put_node))]
pub fn put_node(ynd: Ynd, nodes: &mut [NodeEntry], place: usize, n: PathNode) -> Result<(), Refusal>
    ensures { stored result nodes.new ≡ put_node ynd nodes.old place n }
{
    let i = node_entry(ynd, nodes, place)?;
    nodes[i] = range_kept(n.into(), nodes[i]);
    Ok(())
}

// As `PathNode::set_position`.
#[tactic(auto, unfolding(crate::specs::Edit::set_position))]
pub fn set_position(ynd: Ynd, nodes: &mut [NodeEntry], place: usize, p: Vec3) -> Result<(), Refusal>
    ensures { stored result nodes.new ≡ set_position ynd nodes.old place p }
{
    let i = node_entry(ynd, nodes, place)?;
    nodes[i].position = stored_position(p).into();
    Ok(())
}

// Link k of the node at a place.
#[tactic(auto, unfolding(crate::specs::Edit::put_link))]
pub fn put_link(
    ynd: Ynd,
    nodes: &[NodeEntry],
    links: &mut [PathLink],
    place: usize,
    k: usize,
    l: PathLink,
) -> Result<(), Refusal>
    ensures { stored result links.new ≡ put_link ynd nodes.now links.old place k l }
{
    let i = link_entry(ynd, nodes, links.len(), place, k)?;
    links[i] = l;
    Ok(())
}

#[tactic(auto, unfolding(crate::specs::Edit::put_ref))]
pub fn put_ref(
    ynd: Ynd,
    refs: &mut [NodeJunctionRef],
    place: usize,
    r: NodeJunctionRef,
) -> Result<(), Refusal>
    ensures { stored result refs.new ≡ put_ref ynd refs.old place r }
{
    let i = ref_entry(ynd, refs, place)?;
    refs[i] = r;
    Ok(())
}

// Stores every field but where the heightmap starts. It keeps as many values.
#[tactic(auto, unfolding(crate::specs::Edit::put_junction))]
pub fn put_junction(
    ynd: Ynd,
    junctions: &mut [JunctionEntry],
    place: usize,
    j: PathJunction,
) -> Result<(), Refusal>
    ensures { stored result junctions.new ≡ put_junction ynd junctions.old place j }
{
    let i = sized_entry(ynd, junctions, place, map_size(j.width, j.height))?;
    junctions[i] = start_at(j.into(), junctions[i].heightmap_ptr);
    Ok(())
}

// Value k of the junction at a place.
#[tactic(auto, unfolding(crate::specs::Edit::put_height))]
pub fn put_height(
    ynd: Ynd,
    junctions: &[JunctionEntry],
    heights: &mut [u8],
    place: usize,
    k: usize,
    v: u8,
) -> Result<(), Refusal>
    ensures { stored result heights.new ≡ put_height ynd junctions.now heights.old place k v }
{
    let i = height_entry(ynd, junctions, heights.len(), place, k)?;
    heights[i] = v;
    Ok(())
}
