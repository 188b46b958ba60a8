// Whether the cell keeps to the limits, and the lent lists hold what its counts say or have room for more.
ghost use Rattle.std.specs.Prelude.{◌≡◌, false, IfOk, OnOk, ◌<◌, ◌≤◌, length, take};
ghost use Rattle.numbers.specs.Refusals.{answered, decided};
ghost use Rattle.cells.specs.Memory.{over_limit, nodes_causes, short_of};
ghost use Rattle.cells.specs.Add.{room_for};

use crate::counts::Counts;
use crate::node_entry::NodeEntry;
use crate::ynd::Ynd;
use numbers::refusal::{Lent, Refusal};

// Over 65,536 nodes or 4,096 junctions: a struct made by hand.
#[tactic(auto, using(numbers::proofs::Refusing::tested), unfolding(crate::specs::Memory::over_limit))]
pub fn over_limit(ynd: Ynd) -> bool
    ensures { result ≡ over_limit ynd }
{
    65536 < ynd.node_count || 4096 < ynd.junction_count
}

// The nodes that the cell has, of those lent: 14, then 7.
#[tactic(auto, using(numbers::proofs::Refusing::tests, crate::proofs::Forms::Limits::within), unfolding(crate::specs::Memory::nodes_causes))]
pub fn own_nodes<'a>(ynd: Ynd, nodes: &'a [NodeEntry]) -> Result<&'a [NodeEntry], Refusal>
    ensures value { answered result ≡ decided (nodes_causes ynd (length nodes.now)) }
    ensures own { IfOk result (λ own. own.now ≡ take ynd.node_count nodes.now) }
    ensures passed { OnOk result ((over_limit ynd ≡ false) × (ynd.node_count ≤ 65536)
        × (ynd.node_count ≤ length nodes.now)) }
{
    if over_limit(ynd) {
        return Err(Refusal::AtLimit);
    }
    nodes
        .get(..ynd.node_count as usize)
        .ok_or(Refusal::TooShort(Lent::Nodes))
}

// 7: whether lists of these lengths have as many entries as the cell's counts say.
#[tactic(auto, unfolding(crate::specs::Memory::short_of, crate::specs::Read::room_check))]
pub fn check_lent(ynd: Ynd, lent: Counts) -> Result<(), Refusal>
    ensures { result ≡ short_of ynd lent.nodes lent.links lent.junctions lent.heights lent.refs }
{
    lent.hold(ynd.counts())
}

// Whether there is room for one more entry, behind n entries of a list.
#[tactic(auto, using(numbers::proofs::Refusing::tested), unfolding(crate::specs::Add::room_for))]
pub(crate) fn room_for(
    ynd: Ynd,
    limit: usize,
    n: usize,
    len: usize,
    list: Lent,
) -> Result<(), Refusal>
    ensures value { result ≡ room_for (over_limit ynd) limit n len list }
    ensures room { OnOk result ((n < limit) × (n < len)) }
{
    if over_limit(ynd) {
        return Err(Refusal::AtLimit);
    }
    if limit <= n {
        return Err(Refusal::AtLimit);
    }
    if len <= n {
        return Err(Refusal::TooShort(list));
    }
    Ok(())
}
