// Lookups: the cell's area, a node by its number, a node's junction.
ghost use Rattle.std.specs.Prelude.{◌≡◌, length};
ghost use Rattle.cells.specs.Area.{ref_for};
ghost use Rattle.cells.specs.Lookup.{ref_matches};
ghost use Rattle.cells.specs.LookupCall.{area_id_call, find_in, node_call, place_of, ref_in};
ghost use Rattle.cells.specs.LookupCall.{junction_of_call};

use crate::area::{own_area, ref_for};
use crate::node_entry::NodeEntry;
use crate::room::own_nodes;
use crate::ynd::Ynd;
use numbers::refusal::{Lent, Refusal};
use records::junction_ref::NodeJunctionRef;

// The first node's area.
#[tactic(auto, using(numbers::proofs::Refusing::tested), unfolding(crate::specs::LookupCall::area_id_call))]
pub fn area_id(ynd: Ynd, nodes: &[NodeEntry]) -> Result<Option<u32>, Refusal>
    ensures { result ≡ area_id_call ynd nodes.now }
{
    let own = own_nodes(ynd, nodes)?;
    Ok(own.first().map(|n| n.area_id as u32))
}

// The node at the place of that number if it has it, else the first that has it.
#[tactic(auto, using(crate::proofs::Rules::find_laws))]
fn find_in(nodes: &[NodeEntry], node_id: u16) -> Option<usize>
    ensures { result ≡ find_in (length nodes.now) nodes.now node_id }
{
    let k = node_id as usize;
    if k < nodes.len() && nodes[k].node_id == node_id {
        return Some(k);
    }
    nodes.iter().position(|n| n.node_id == node_id)
}

// The place of the node numbered `node_id`.
#[tactic(auto, using(numbers::proofs::Refusing::tested, crate::proofs::Lookups::LookupLaws::find_front), unfolding(crate::specs::LookupCall::node_call))]
pub fn node(ynd: Ynd, nodes: &[NodeEntry], node_id: u16) -> Result<Option<usize>, Refusal>
    ensures { result ≡ node_call ynd nodes.now node_id }
{
    let own = own_nodes(ynd, nodes)?;
    Ok(find_in(own, node_id))
}

fn ref_matches(r: &NodeJunctionRef, own: u16, area_id: u16, node_id: u16) -> bool
    ensures { result ≡ ref_matches own area_id node_id r.now }
{
    ref_for(own, r.area_id, area_id) && r.node_id == node_id
}

// The junction number of the first ref that names the node.
fn first_ref(refs: &[NodeJunctionRef], own: u16, area_id: u16, node_id: u16) -> Option<usize>
    ensures { result ≡ place_of (ref_in own refs.now area_id node_id) }
{
    refs.iter()
        .find(|r| ref_matches(r, own, area_id, node_id))
        .map(|r| r.junction_id as usize)
}

// The place of the junction that the refs give the node.
#[tactic(auto, using(numbers::proofs::Refusing::tested), unfolding(crate::specs::LookupCall::junction_of_call))]
pub fn junction_of(
    ynd: Ynd,
    nodes: &[NodeEntry],
    refs: &[NodeJunctionRef],
    area_id: u16,
    node_id: u16,
) -> Result<Option<usize>, Refusal>
    ensures { result ≡ junction_of_call ynd nodes.now refs.now area_id node_id }
{
    let own = own_nodes(ynd, nodes)?;
    let refs = refs
        .get(..ynd.ref_count as usize)
        .ok_or(Refusal::TooShort(Lent::Refs))?;
    let first = first_ref(refs, own_area(own, own.len()), area_id, node_id);
    Ok(first.filter(|j| *j < ynd.junction_count as usize))
}
