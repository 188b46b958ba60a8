// Shortest paths between two places (T-06).
ghost use Rattle.std.specs.Prelude.{List, ℕ};
ghost use Rattle.exports.specs.Found.{told};
ghost use Rattle.exports.specs.Paths.{measured, PathTold};
ghost use Rattle.cells.specs.declared.junction_entry.JunctionEntry.{JunctionEntry};
ghost use Rattle.records.specs.declared.junction_ref.NodeJunctionRef.{NodeJunctionRef};
ghost use Rattle.cells.specs.Memory.{memory};

use crate::answers::answer;
use cells::link::PathLink;
use cells::node_entry::NodeEntry;
use cells::ynd::Ynd;

// A walk from one place to another whose links' lengths add up to least. `distance` gets their sum, `count` the number
// of links; `choices` gets as many bytes, `places` one place more. The scratch has four entries for each node.
#[unsafe(no_mangle)]
pub extern "C" fn ynd_shortest_path(
    ynd: &Ynd,
    nodes: &[NodeEntry],
    links: &[PathLink],
    from: usize,
    to: usize,
    scratch: &mut [u32],
    choices: &mut [u8],
    places: &mut [u32],
    distance: &mut u32,
    count: &mut usize,
    place: &mut usize,
) -> u32
    ensures { (junctions : List JunctionEntry) (heights : List ℕ) (refs : List NodeJunctionRef)
        → PathTold (memory ynd.now nodes.now links.now junctions heights refs) from to
        scratch.old choices.old places.old distance.old count.old
        (told result place.new (measured distance.new count.new))
        scratch.new choices.new places.new }
{
    let r = paths::path::shortest_path(*ynd, nodes, links, from, to, scratch, choices, places);
    if let Ok(path) = r {
        *distance = path.distance;
        *count = path.links;
    }
    answer(r, place)
}
