// Nodes, junctions and refs cut off at the end, as `Vec::truncate` of the Rust's lists.
ghost use Rattle.std.specs.Prelude.{◌≡◌, List, ℕ, IfOk};
ghost use Rattle.cells.specs.Memory.{memory, left, over_limit};
ghost use Rattle.numbers.specs.Refusals.{answered};
ghost use Rattle.cells.specs.Truncate.{fewer, truncate_nodes, truncate_junctions, truncate_refs};
ghost use Rattle.cells.specs.declared.node_entry.NodeEntry.{NodeEntry};
ghost use Rattle.cells.specs.declared.link.PathLink.{PathLink};
ghost use Rattle.cells.specs.declared.junction_entry.JunctionEntry.{JunctionEntry};
ghost use Rattle.records.specs.declared.junction_ref.NodeJunctionRef.{NodeJunctionRef};

use crate::room::over_limit;
use crate::ynd::Ynd;
use numbers::refusal::Refusal;

// How many are left, if k entries can be left of n.
#[tactic(auto, using(numbers::proofs::Refusing::tested), unfolding(crate::specs::Truncate::fewer))]
fn fewer_of(ynd: Ynd, n: u32, k: usize) -> Result<u32, Refusal>
    ensures value { answered result ≡ fewer (over_limit ynd) n k }
    ensures left { IfOk result (λ left. left ≡ k) }
{
    if (n as usize) < k {
        return Err(Refusal::NoSuchPlace);
    }
    if over_limit(ynd) {
        return Err(Refusal::AtLimit);
    }
    Ok(k as u32)
}

// The first k nodes stay. Both counts of kinds stay too: renumbering sets them.
#[tactic(auto, unfolding(crate::specs::Truncate::truncate_nodes, crate::specs::Add::with_counts))]
pub fn truncate_nodes(ynd: Ynd, k: usize) -> Result<Ynd, Refusal>
    ensures { (nodes : List NodeEntry) (links : List PathLink) (junctions : List JunctionEntry)
        (refs : List NodeJunctionRef) (heights : List ℕ) →
        left ynd result nodes links junctions heights refs
        ≡ truncate_nodes (memory ynd nodes links junctions heights refs) k }
{
    let node_count = fewer_of(ynd, ynd.node_count, k)?;
    Ok(Ynd { node_count, ..ynd })
}

// The first k junctions stay.
#[tactic(auto, unfolding(crate::specs::Truncate::truncate_junctions, crate::specs::Add::with_counts))]
pub fn truncate_junctions(ynd: Ynd, k: usize) -> Result<Ynd, Refusal>
    ensures { (nodes : List NodeEntry) (links : List PathLink) (junctions : List JunctionEntry)
        (refs : List NodeJunctionRef) (heights : List ℕ) →
        left ynd result nodes links junctions heights refs
        ≡ truncate_junctions (memory ynd nodes links junctions heights refs) k }
{
    let junction_count = fewer_of(ynd, ynd.junction_count, k)?;
    Ok(Ynd {
        junction_count,
        ..ynd
    })
}

// The first k refs stay.
#[tactic(auto, unfolding(crate::specs::Truncate::truncate_refs, crate::specs::Add::with_counts))]
pub fn truncate_refs(ynd: Ynd, k: usize) -> Result<Ynd, Refusal>
    ensures { (nodes : List NodeEntry) (links : List PathLink) (junctions : List JunctionEntry)
        (refs : List NodeJunctionRef) (heights : List ℕ) →
        left ynd result nodes links junctions heights refs
        ≡ truncate_refs (memory ynd nodes links junctions heights refs) k }
{
    let ref_count = fewer_of(ynd, ynd.ref_count, k)?;
    Ok(Ynd { ref_count, ..ynd })
}
