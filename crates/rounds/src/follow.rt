// A round followed in a cell (docs/FORMAT.md, Following a round).
ghost use Rattle.std.specs.Prelude.{◌≡◌, List, ℕ, take};
ghost use Rattle.cells.specs.Memory.{memory};
ghost use Rattle.cells.specs.Nodes.{first_area};
ghost use Rattle.walks.specs.WalkCall.{walk_left};
ghost use Rattle.rounds.specs.Follow.{follow_round, area_answer, follow_version};
ghost use Rattle.cells.specs.declared.junction_entry.JunctionEntry.{JunctionEntry};
ghost use Rattle.records.specs.declared.junction_ref.NodeJunctionRef.{NodeJunctionRef};

use crate::file::Version;
use cells::area::own_area;
use cells::link::PathLink;
use cells::lookup::node;
use cells::node_entry::NodeEntry;
use cells::ynd::Ynd;
use numbers::refusal::Refusal;
use walks::walk::{Walked, walk};

// The walk from what `node` finds for the start number, whatever the lists that are not lent. `visited` gets the
// places; a refusal changes nothing.
#[tactic(auto, unfolding(crate::specs::Follow::follow_round))]
pub fn follow_round(
    ynd: Ynd,
    nodes: &[NodeEntry],
    links: &[PathLink],
    start: u16,
    choices: &[u8],
    visited: &mut [u32],
) -> Result<Walked, Refusal>
    ensures { (junctions : List JunctionEntry) (heights : List ℕ) (refs : List NodeJunctionRef)
        → walk_left result visited.new
        ≡ follow_round (memory ynd nodes.now links.now junctions heights refs) start
        choices.now visited.old }
{
    let i = node(ynd, nodes, start)?.ok_or(Refusal::NoSuchPlace)?;
    walk(ynd, nodes, links, i, choices, visited)
}

// 19 where a version 2 round names another area than the cell's, which is 0 for an empty cell. It comes before what is
// asked of the lists: the area is that of the cell which they hold, where they end.
pub fn area_check(ynd: Ynd, nodes: &[NodeEntry], version: Version) -> Result<(), Refusal>
    ensures { result ≡ area_answer version (first_area (take ynd.node_count nodes.now)) }
{
    let Version::Two(area) = version else {
        return Ok(());
    };
    if area == own_area(nodes, ynd.node_count as usize) {
        return Ok(());
    }
    Err(Refusal::OtherArea)
}

// A round of either version, as `follow_round` follows one of version 1.
#[tactic(auto, unfolding(crate::specs::Follow::follow_version))]
pub fn follow_version(
    ynd: Ynd,
    nodes: &[NodeEntry],
    links: &[PathLink],
    version: Version,
    start: u16,
    choices: &[u8],
    visited: &mut [u32],
) -> Result<Walked, Refusal>
    ensures { (junctions : List JunctionEntry) (heights : List ℕ) (refs : List NodeJunctionRef)
        → walk_left result visited.new
        ≡ follow_version (memory ynd nodes.now links.now junctions heights refs) version start
        choices.now visited.old }
{
    area_check(ynd, nodes, version)?;
    follow_round(ynd, nodes, links, start, choices, visited)
}
