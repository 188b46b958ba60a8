// What is asked before the node at a place is looked at, with its links.
ghost use Rattle.std.specs.Prelude.{◌≡◌, false, ◌<◌, ◌≤◌, OnOk};
ghost use Rattle.numbers.specs.Refusals.{decided};
ghost use Rattle.cells.specs.Memory.{over_limit};
ghost use Rattle.walks.specs.PlaceCauses.{place_causes};

use cells::room::over_limit;
use cells::ynd::Ynd;
use numbers::refusal::{Lent, Refusal};

// What is asked of a cell in lists of so many nodes and links, and a place in it.
#[tactic(auto, using(numbers::proofs::Refusing::tests, cells::proofs::Forms::Limits::within), unfolding(crate::specs::PlaceCauses::place_causes))]
pub fn check_place(ynd: Ynd, nodes: usize, links: usize, place: usize) -> Result<(), Refusal>
    ensures value { result ≡ decided (place_causes ynd nodes links place) }
    ensures passed { OnOk result ((over_limit ynd ≡ false) × (place < ynd.node_count)
        × (ynd.node_count ≤ 65536) × (ynd.node_count ≤ nodes) × (ynd.link_count ≤ links)) }
{
    if ynd.node_count as usize <= place {
        return Err(Refusal::NoSuchPlace);
    }
    if over_limit(ynd) {
        return Err(Refusal::AtLimit);
    }
    if nodes < ynd.node_count as usize {
        return Err(Refusal::TooShort(Lent::Nodes));
    }
    if links < ynd.link_count as usize {
        return Err(Refusal::TooShort(Lent::Links));
    }
    Ok(())
}
