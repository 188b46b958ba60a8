// Renumbering: nodes, links and refs, with the cell's two node counts.
ghost use Rattle.std.specs.Prelude.{◌≡◌, map, OnOk, ◌≤◌, length};
ghost use Rattle.cells.specs.Memory.{memory, over_limit, short_of};
ghost use Rattle.cells.specs.Nodes.{is_ped, is_vehicle, old_of, relinked, rereffed, reordered};
ghost use Rattle.cells.specs.Order.{keep, new_places};
ghost use Rattle.cells.specs.Renumber.{renumbered_by, recounted, answer_of, renumber, scratch_left};

use crate::counts::{Counts, lengths};
use crate::junction_entry::JunctionEntry;
use crate::link::PathLink;
use crate::node_entry::NodeEntry;
use crate::order::{count_vehicles, fill_places};
use crate::permute::move_nodes;
use crate::relink::relink_lists;
use crate::room::{check_lent, over_limit};
use crate::ynd::Ynd;
use numbers::refusal::{Lent, Refusal};
use records::junction_ref::NodeJunctionRef;

// All lists; answers how many nodes are no ped nodes.
fn renumber_lists(
    nodes: &mut [NodeEntry],
    links: &mut [PathLink],
    refs: &mut [NodeJunctionRef],
    scratch: &mut [u32],
    places: &mut [u32],
) -> usize
    requires { (length nodes.old ≤ 65536) × (65536 ≤ length scratch.old)
        × (length places.old ≡ length nodes.old) }
    ensures count { (result ≡ length (keep is_vehicle nodes.old)) × (result ≤ length nodes.old) }
    ensures lists { (nodes.new ≡ reordered nodes.old)
        × (links.new ≡ map (relinked (old_of (length nodes.old) nodes.old)) links.old)
        × (refs.new ≡ map (rereffed (old_of (length nodes.old) nodes.old)) refs.old)
        × (places.new ≡ new_places (map is_ped nodes.old)) }
{
    let v = count_vehicles(nodes);
    fill_places(nodes, places, v);
    relink_lists(nodes, links, refs, scratch, places);
    move_nodes(nodes, &mut scratch[..nodes.len()], places);
    v
}

// Whether the call is accepted, with lists of these lengths.
#[tactic(auto, using(numbers::proofs::Refusing::tested, crate::proofs::Forms::Limits::within), unfolding(crate::specs::Renumber::answer_of, crate::specs::Memory::short_of, crate::specs::Read::room_check))]
fn check_call(ynd: Ynd, lent: Counts, scratch: usize, places: usize) -> Result<(), Refusal>
    ensures value { result ≡ answer_of (over_limit ynd) ynd.node_count
        (short_of ynd lent.nodes lent.links lent.junctions lent.heights lent.refs) scratch places }
    ensures room { OnOk result ((ynd.node_count ≤ 65536) × (ynd.node_count ≤ lent.nodes)
        × (ynd.link_count ≤ lent.links) × (ynd.ref_count ≤ lent.refs) × (65536 ≤ scratch)
        × (ynd.node_count ≤ places)) }
{
    if over_limit(ynd) {
        return Err(Refusal::AtLimit);
    }
    check_lent(ynd, lent)?;
    if scratch < 65536 {
        return Err(Refusal::TooShort(Lent::Scratch));
    }
    if places < ynd.node_count as usize {
        return Err(Refusal::TooShort(Lent::NewPlaces));
    }
    Ok(())
}

// The cell with new counts of nodes.
#[tactic(auto, unfolding(crate::specs::Renumber::recounted))]
fn recount(ynd: Ynd, v: u32, p: u32) -> Ynd
    ensures { result ≡ recounted ynd v p }
{
    Ynd {
        vehicle_node_count: v,
        ped_node_count: p,
        ..ynd
    }
}

// Renumbers the cell, and fills `places` with each node's new place. The scratch holds anything after an accepted
// call; a refusal changes nothing.
#[tactic(auto, using(crate::proofs::Rules::renumber_laws), unfolding(crate::specs::Renumber::renumber, crate::specs::Renumber::renumber_memory, crate::specs::Renumber::new_lists, crate::specs::Renumber::renumber_lists, crate::specs::Renumber::vehicles))]
pub fn recalculate_node_indices(
    ynd: Ynd,
    nodes: &mut [NodeEntry],
    links: &mut [PathLink],
    junctions: &[JunctionEntry],
    heights: &[u8],
    refs: &mut [NodeJunctionRef],
    scratch: &mut [u32],
    places: &mut [u32],
) -> Result<Ynd, Refusal>
    ensures places_after { renumbered_by ynd result nodes.new links.new junctions.now heights.now refs.new places.new
        ≡ renumber (memory ynd nodes.old links.old junctions.now heights.now refs.old) (length scratch.old)
        places.old }
    ensures scratch_left { scratch_left result scratch.old scratch.new }
{
    let n = ynd.node_count as usize;
    let l = ynd.link_count as usize;
    let r = ynd.ref_count as usize;
    let lent = lengths(nodes, links, junctions, heights, refs);
    check_call(ynd, lent, scratch.len(), places.len())?;
    let v = renumber_lists(
        &mut nodes[..n],
        &mut links[..l],
        &mut refs[..r],
        scratch,
        &mut places[..n],
    );
    Ok(recount(ynd, v as u32, (n - v) as u32))
}
