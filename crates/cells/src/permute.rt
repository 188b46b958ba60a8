// Nodes moved to their new places, in place, and numbered there.
ghost use Rattle.std.specs.Prelude.{◌≡◌, List, [], map, ℕ, ◌≤◌, ◌<◌, length, get_or};
ghost use Rattle.cells.specs.Order.{new_places};
ghost use Rattle.cells.specs.Nodes.{is_ped, no_entry, number_from, reordered};
ghost use Rattle.cells.specs.Moves.{Places};
ghost use Rattle.cells.specs.declared.node_entry.NodeEntry.{NodeEntry};

use crate::copy::copy_over;
use crate::node_entry::NodeEntry;

// The nodes moved: `to[i]` is where node i goes. The nodes are then those of any list that has them so.
#[tactic(auto, using(crate::proofs::Rules::permute_laws))]
fn permute(nodes: &mut [NodeEntry], to: &mut [u32])
    requires { (length to.old ≡ length nodes.old) × Places (length nodes.old) to.old }
    ensures { (f : List NodeEntry) → length f ≡ length nodes.old
        → ((k : ℕ) → k < length nodes.old → get_or f (get_or to.old k 0) no_entry ≡ get_or nodes.old k no_entry)
        → nodes.new ≡ f }
{
    let mut i = 0;
    while i < nodes.len() {
        let t = to[i] as usize;
        if t == i {
            i += 1;
        } else {
            nodes.swap(i, t);
            to.swap(i, t);
        }
    }
}

// The nodes numbered by place.
#[tactic(auto, using(crate::proofs::Rules::number_laws))]
fn number_all(nodes: &mut [NodeEntry])
    requires { length nodes.old ≤ 65536 }
    ensures { nodes.new ≡ number_from 0 nodes.old }
{
    for (i, n) in nodes.iter_mut().enumerate() {
        n.node_id = i as u16;
    }
}

// The nodes in their new order, numbered by place. A copy of the places is used up.
#[tactic(auto, using(crate::proofs::Rules::move_laws))]
pub(crate) fn move_nodes(nodes: &mut [NodeEntry], scratch: &mut [u32], places: &[u32])
    requires { (length nodes.old ≤ 65536) × (length scratch.old ≡ length nodes.old)
        × (places.now ≡ new_places (map is_ped nodes.old)) }
    ensures { nodes.new ≡ reordered nodes.old }
{
    copy_over(scratch, places);
    permute(nodes, scratch);
    number_all(nodes);
}
