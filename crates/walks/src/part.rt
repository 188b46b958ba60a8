// What a byte chooses of a node's links.
ghost use Rattle.std.specs.Prelude.{◌≡◌, get_or};
ghost use Rattle.cells.specs.Nodes.{no_entry};
ghost use Rattle.walks.specs.Parts.{chosen};

use cells::link::PathLink;
use cells::node_entry::NodeEntry;

// The link that a byte chooses at a node.
#[tactic(auto, unfolding(crate::specs::Parts::chosen))]
fn chosen(links: &[PathLink], n: &NodeEntry, choice: u8) -> Option<PathLink>
    ensures { result ≡ chosen links.now n.now choice }
{
    if n.link_count <= choice {
        return None;
    }
    links.get(n.link_id as usize + choice as usize).copied()
}

// The link that a byte chooses at a place, where that is one of the nodes.
#[tactic(auto, unfolding(crate::specs::Parts::chosen))]
pub fn link_at(
    nodes: &[NodeEntry],
    links: &[PathLink],
    place: usize,
    choice: u8,
) -> Option<PathLink>
    ensures { result ≡ chosen links.now (get_or nodes.now place no_entry) choice }
{
    chosen(links, nodes.get(place)?, choice)
}
