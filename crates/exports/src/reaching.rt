// Nodes within reach of a point, the nearest first, and the nearest (T-01, T-08). Steps of a quarter metre.
ghost use Rattle.std.specs.Prelude.{◌≡◌};
ghost use Rattle.reach.specs.Reach.{within_call, nearest_call};
ghost use Rattle.exports.specs.Found.{told, value_told, whether, whether_told};
ghost use Rattle.exports.specs.Near.{near};

use crate::answers::{answer, tell};
use cells::node_entry::NodeEntry;
use cells::ynd::Ynd;

// The places of the nodes at most the radius away, as many as `count` says, ascending by squared distance, equal
// distances by place.
#[unsafe(no_mangle)]
pub extern "C" fn ynd_within(
    ynd: &Ynd,
    nodes: &[NodeEntry],
    x: i16,
    y: i16,
    radius: u16,
    places: &mut [u32],
    count: &mut usize,
    place: &mut usize,
) -> u32
    ensures answer { told result place.new count.new
        ≡ value_told
        (within_call ynd.now nodes.now x y radius places.old).answer
        count.old }
    ensures places_after { places.new
        ≡ (within_call ynd.now nodes.now x y radius places.old).places }
{
    let r = reach::reach::within(*ynd, nodes, x, y, radius, places);
    tell(r, count, place)
}

// The node with the least squared distance, the lowest place where equal. `found` is false in a cell without nodes.
#[unsafe(no_mangle)]
pub extern "C" fn ynd_nearest(
    ynd: &Ynd,
    nodes: &[NodeEntry],
    x: i16,
    y: i16,
    found: &mut bool,
    at: &mut usize,
    square: &mut u64,
    place: &mut usize,
) -> u32
    ensures { told result place.new (whether found.new (near at.new square.new))
        ≡ whether_told (nearest_call ynd.now nodes.now x y)
        found.old (near at.old square.old) }
{
    let r = reach::reach::nearest(*ynd, nodes, x, y);
    if let Ok(held) = r {
        *found = held.is_some();
        if let Some(node) = held {
            *at = node.place;
            *square = node.square;
        }
    }
    answer(r, place)
}
