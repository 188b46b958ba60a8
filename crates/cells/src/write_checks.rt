// The checks before writing: 14, 12, 8 and 9 node by node, 10 junction by junction, then 11.
ghost use Rattle.std.specs.Prelude.{◌≡◌, ◌<◌, ◌≤◌, All, IfOk, OnOk};
ghost use Rattle.cells.specs.WriteChecks.{links_within, values_within, maps_cut, check_nodes, check_junctions};
ghost use Rattle.cells.specs.WriteCounts.{write_counts, Counted, Sized, SizedIfCounted};
ghost use Rattle.cells.specs.Held.{memory_of};

use crate::counts::Counts;
use crate::held::Held;
use crate::junction_entry::JunctionEntry;
use crate::node_entry::NodeEntry;
use crate::range::{cut, stored_start, value_count};
use crate::room::over_limit;
use numbers::refusal::Refusal;

// How many of `pool` links a node has.
#[tactic(auto, unfolding(crate::specs::WriteChecks::links_within))]
pub(crate) fn links_within(n: &NodeEntry, pool: usize) -> usize
    ensures { (result ≡ links_within pool n.now) × (result < 256) }
{
    cut(n.link_id as usize, n.link_count as usize, pool)
}

// How many of `pool` heightmap bytes a junction has.
#[tactic(auto, unfolding(crate::specs::WriteChecks::values_within))]
pub(crate) fn values_within(j: &JunctionEntry, pool: usize) -> usize
    ensures { (result ≡ values_within pool j.now) × (result < 65536) × (j.now.width < 256) × (j.now.height < 256) }
{
    cut(j.heightmap_ptr as usize, value_count(j), pool)
}

// Whether some junction has fewer than width × height of `pool` values.
fn maps_cut(junctions: &[JunctionEntry], pool: usize) -> bool
    ensures { result ≡ maps_cut pool junctions.now }
{
    junctions
        .iter()
        .any(|j| values_within(j, pool) < value_count(j))
}

#[tactic(auto, using(crate::proofs::Rules::node_turns))]
fn check_nodes(nodes: &[NodeEntry], pool: usize) -> Result<usize, Refusal>
    ensures { result ≡ check_nodes (links_within pool) 0 0 nodes.now }
{
    let mut before: usize = 0;
    for (i, n) in nodes.iter().enumerate() {
        let count = links_within(n, pool);
        if 31 < count {
            return Err(Refusal::TooManyLinks(i));
        }
        if 65535 < stored_start(before, count) {
            return Err(Refusal::LinksStartTooHigh(i));
        }
        before += count;
    }
    Ok(before)
}

#[tactic(auto, using(crate::proofs::Rules::junction_turns))]
fn check_junctions(junctions: &[JunctionEntry], pool: usize) -> Result<usize, Refusal>
    ensures value { result ≡ check_junctions (values_within pool) 0 0 junctions.now }
    ensures few { IfOk result (λ n. n ≤ 131070) }
    ensures sized { OnOk result (All Sized junctions.now) }
{
    let mut before: usize = 0;
    for (i, j) in junctions.iter().enumerate() {
        if 65535 < before {
            return Err(Refusal::ValuesStartTooHigh(i));
        }
        before += values_within(j, pool);
    }
    Ok(before)
}

// 14, 12 and 8 to 11, of a cell. Else how much there is to write.
#[tactic(auto, using(crate::proofs::Rules::counts_laws), unfolding(crate::specs::WriteCounts::write_counts))]
pub(crate) fn write_counts(h: Held) -> Result<Counts, Refusal>
    ensures value { result ≡ write_counts (memory_of h.entry) }
    ensures ready { IfOk result (λ k. Counted (memory_of h.entry) k) }
    ensures sized { SizedIfCounted (memory_of h.entry) }
{
    if over_limit(h.ynd) {
        return Err(Refusal::AtLimit);
    }
    if maps_cut(h.junctions, h.ynd.heightmap_count as usize) {
        return Err(Refusal::WrongSize);
    }
    let links = check_nodes(h.nodes, h.links.len())?;
    let heights = check_junctions(h.junctions, h.heights.len())?;
    if 65535 < h.ynd.ref_count {
        return Err(Refusal::TooManyRefs);
    }
    Ok(Counts {
        nodes: h.nodes.len(),
        links,
        junctions: h.junctions.len(),
        heights,
        refs: h.refs.len(),
    })
}
