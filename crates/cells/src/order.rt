// Where renumbering sends each node: those that are no ped nodes first, then the ped nodes, each group in its old
// order.
ghost use Rattle.std.specs.Prelude.{◌≡◌, map, ◌≤◌, length};
ghost use Rattle.cells.specs.Order.{keep, new_places};
ghost use Rattle.cells.specs.Nodes.{is_ped, is_vehicle};

use crate::node_entry::{NodeEntry, is_ped};

// How many of the nodes are no ped nodes.
#[tactic(auto, using(crate::proofs::Sequences::Tests::keep_counted))]
pub(crate) fn count_vehicles(nodes: &[NodeEntry]) -> usize
    ensures value { result ≡ length (keep is_vehicle nodes.now) }
    ensures few { result ≤ length nodes.now }
{
    nodes.iter().filter(|n| !is_ped(n)).count()
}

// Each node's new place: `first` is the first ped node's.
#[tactic(auto, using(crate::proofs::Renumbering::Placed::vehicles_all))]
pub(crate) fn fill_places(nodes: &[NodeEntry], places: &mut [u32], first: usize)
    requires { (length nodes.now ≤ 65536) × (length places.old ≡ length nodes.now)
        × (first ≡ length (keep is_vehicle nodes.now)) }
    ensures { places.new ≡ new_places (map is_ped nodes.now) }
{
    let mut v: usize = 0;
    let mut p = first;
    for (i, place) in places.iter_mut().enumerate() {
        if is_ped(&nodes[i]) {
            *place = p as u32;
            p += 1;
        } else {
            *place = v as u32;
            v += 1;
        }
    }
}
