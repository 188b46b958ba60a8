// Nodes found by their numbers, through a lent scratch that is never cleared.
ghost use Rattle.std.specs.Prelude.{◌≡◌, map, ◌≤◌, length};
ghost use Rattle.cells.specs.Nodes.{number_of};
ghost use Rattle.cells.specs.Lookup.{first_with, is_some};
ghost use Rattle.cells.specs.LookupCall.{place_of};
ghost use Rattle.cells.specs.Order.{last_with};
ghost use Rattle.cells.specs.RenumberParts.{Indexed, Leads};

use crate::node_entry::NodeEntry;

// The place of the last node that has it, for each number that a node has. Entries of other numbers stay as they were.
#[tactic(auto, using(crate::proofs::Rules::index_laws))]
pub(crate) fn index_numbers(nodes: &[NodeEntry], scratch: &mut [u32])
    requires { (length nodes.now ≤ 65536) × (65536 ≤ length scratch.old) }
    ensures { Indexed (map number_of nodes.now) scratch.new }
{
    for (i, n) in nodes.iter().enumerate() {
        scratch[n.node_id as usize] = i as u32;
    }
}

// Nodes, and a scratch that leads from each number that one has to the last node that has it.
#[derive(Clone, Copy)]
pub struct Numbers<'a> {
    pub nodes: &'a [NodeEntry],
    pub scratch: &'a [u32],
    ghost leads: { Leads (map number_of nodes.now) scratch.now },
}

impl Numbers<'_> {
    // The last node that has the number. An entry of the scratch counts only if the node that it leads to has it.
    #[tactic(auto, using(crate::proofs::Rules::last_laws))]
    pub fn last_with(&self, k: u16) -> Option<usize>
        ensures { result ≡ place_of (last_with (map number_of self.now.nodes.now) k) }
    {
        let t = self.scratch[k as usize] as usize;
        if t < self.nodes.len() && self.nodes[t].node_id == k {
            return Some(t);
        }
        None
    }

    // Whether a node has it.
    #[tactic(auto, using(crate::proofs::Renumbering::Named::has_last))]
    pub fn has(&self, k: u16) -> bool
        ensures { result ≡ is_some (first_with (map number_of self.now.nodes.now) k) }
    {
        self.last_with(k).is_some()
    }
}
