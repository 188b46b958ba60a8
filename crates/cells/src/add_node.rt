// Adding a node.
ghost use Rattle.std.specs.Prelude.{◌≡◌, List, ℕ};
ghost use Rattle.cells.specs.Memory.{memory, left};
ghost use Rattle.cells.specs.Add.{add_node};
ghost use Rattle.cells.specs.declared.link.PathLink.{PathLink};
ghost use Rattle.cells.specs.declared.junction_entry.JunctionEntry.{JunctionEntry};
ghost use Rattle.records.specs.declared.junction_ref.NodeJunctionRef.{NodeJunctionRef};

use crate::node::PathNode;
use crate::node_entry::NodeEntry;
use crate::room::room_for;
use crate::ynd::Ynd;
use numbers::math::Vec3;
use numbers::refusal::{Lent, Refusal};

// A node without links behind all others; its number is its place.
#[tactic(auto, unfolding(crate::specs::Add::add_node, crate::specs::Add::with_counts))]
pub fn add_node(
    ynd: Ynd,
    nodes: &mut [NodeEntry],
    area_id: u16,
    position: Vec3,
) -> Result<Ynd, Refusal>
    ensures { (links : List PathLink) (junctions : List JunctionEntry) (refs : List NodeJunctionRef)
        (heights : List ℕ) →
        left ynd result nodes.new links junctions heights refs
        ≡ add_node (memory ynd nodes.old links junctions heights refs) area_id position }
{
    let n = ynd.node_count as usize;
    room_for(ynd, 65536, n, nodes.len(), Lent::Nodes)?;
    nodes[n] = PathNode::new(area_id, n as u16, position).into();
    Ok(Ynd {
        node_count: (n + 1) as u32,
        ..ynd
    })
}
