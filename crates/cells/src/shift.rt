// Nodes' ranges of links, moved up by one.
ghost use Rattle.std.specs.Prelude.{◌≡◌, ◌++◌, map, ◌<◌, length, take, drop};
ghost use Rattle.cells.specs.AddLink.{shifted};

use crate::node_entry::NodeEntry;

// The nodes, each with its range moved if it starts at or behind a place of l.
#[tactic(auto, using(crate::proofs::Rules::shifted_laws), unfolding(crate::specs::AddLink::shifted))]
pub(crate) fn shift_all(nodes: &mut [NodeEntry], at: usize, l: usize)
    requires { l < 4294967295 }
    ensures { nodes.new ≡ map (shifted at l) nodes.old }
{
    for n in nodes.iter_mut() {
        let s = n.link_id as usize;
        if at <= s && s < l {
            n.link_id += 1;
        }
    }
}
