// Adding a ref.
ghost use Rattle.std.specs.Prelude.{◌≡◌, List, ℕ};
ghost use Rattle.cells.specs.Memory.{memory, left};
ghost use Rattle.cells.specs.Add.{add_ref};
ghost use Rattle.cells.specs.declared.node_entry.NodeEntry.{NodeEntry};
ghost use Rattle.cells.specs.declared.link.PathLink.{PathLink};
ghost use Rattle.cells.specs.declared.junction_entry.JunctionEntry.{JunctionEntry};

use crate::room::room_for;
use crate::ynd::Ynd;
use numbers::refusal::{Lent, Refusal};
use records::junction_ref::NodeJunctionRef;

// A ref behind all others.
#[tactic(auto, unfolding(crate::specs::Add::add_ref, crate::specs::Add::with_counts))]
pub fn add_ref(ynd: Ynd, refs: &mut [NodeJunctionRef], r: NodeJunctionRef) -> Result<Ynd, Refusal>
    ensures { (nodes : List NodeEntry) (links : List PathLink) (junctions : List JunctionEntry) (heights : List ℕ) →
        left ynd result nodes links junctions heights refs.new
        ≡ add_ref (memory ynd nodes links junctions heights refs.old) r }
{
    let n = ynd.ref_count as usize;
    room_for(ynd, 4294967295, n, refs.len(), Lent::Refs)?;
    refs[n] = r;
    Ok(Ynd {
        ref_count: (n + 1) as u32,
        ..ynd
    })
}
