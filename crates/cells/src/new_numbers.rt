// Which number each number becomes, before the nodes move: for links that lead here from other cells.
ghost use Rattle.std.specs.Prelude.{◌≡◌, map, ℕ, ◌<◌, length, get_or};
ghost use Rattle.cells.specs.Order.{new_number, new_places};
ghost use Rattle.cells.specs.Nodes.{is_ped, old_of};
ghost use Rattle.cells.specs.NewNumbers.{numbers_left, numbers_call};

use crate::node_entry::NodeEntry;
use crate::order::{count_vehicles, fill_places};
use numbers::refusal::{Lent, Refusal};

// Each number stays, as one that no node has.
fn keep_numbers(table: &mut [u32])
    requires { length table.old ≡ 65536 }
    ensures { (k : ℕ) → k < 65536 → get_or table.new k 0 ≡ k }
{
    for (k, number) in table.iter_mut().enumerate() {
        *number = k as u32;
    }
}

// The numbers that nodes have; the last node with a number counts.
#[tactic(auto, using(crate::proofs::Rules::table_laws), unfolding(crate::specs::Order::last_with))]
fn put_numbers(nodes: &[NodeEntry], table: &mut [u32], places: &[u32])
    requires { (length table.old ≡ 65536) × (places.now ≡ new_places (map is_ped nodes.now))
        × ((k : ℕ) → k < 65536 → get_or table.old k 0 ≡ k) }
    ensures { (k : ℕ) → k < 65536
        → get_or table.new k 0 ≡ new_number (old_of (length nodes.now) nodes.now) k }
{
    for (n, place) in nodes.iter().zip(places) {
        table[n.node_id as usize] = *place;
    }
}

// Fills the table with the new number of each number, and `places` with each node's new place. A refusal changes
// nothing.
#[tactic(auto, using(numbers::proofs::Refusing::tested), unfolding(crate::specs::NewNumbers::numbers_call, crate::specs::NewNumbers::numbers_causes))]
pub fn new_numbers(
    nodes: &[NodeEntry],
    n: usize,
    table: &mut [u32],
    places: &mut [u32],
) -> Result<(), Refusal>
    ensures { numbers_left result table.new places.new ≡ numbers_call n nodes.now table.old places.old }
{
    if 65536 < n {
        return Err(Refusal::AtLimit);
    }
    if nodes.len() < n {
        return Err(Refusal::TooShort(Lent::Nodes));
    }
    if table.len() < 65536 {
        return Err(Refusal::TooShort(Lent::Scratch));
    }
    if places.len() < n {
        return Err(Refusal::TooShort(Lent::NewPlaces));
    }
    let nodes = &nodes[..n];
    let places = &mut places[..n];
    let table = &mut table[..65536];
    let v = count_vehicles(nodes);
    fill_places(nodes, places, v);
    keep_numbers(table);
    put_numbers(nodes, table, places);
    Ok(())
}
