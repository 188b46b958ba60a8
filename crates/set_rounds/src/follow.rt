// A round followed in a set of cells (T-11): in the member of its area, and on into the others.
ghost use Rattle.std.specs.Prelude.{◌≡◌, List, ℕ};
ghost use Rattle.sets.specs.CellSet.{cell_set};
ghost use Rattle.sets.specs.CrossingCall.{crossing_left};
ghost use Rattle.sets.specs.Lent.{Unlent};
ghost use Rattle.cells.specs.declared.link.PathLink.{PathLink};
ghost use Rattle.cells.specs.declared.junction_entry.JunctionEntry.{JunctionEntry};
ghost use Rattle.records.specs.declared.junction_ref.NodeJunctionRef.{NodeJunctionRef};
ghost use Rattle.set_rounds.specs.FollowInSet.{round_member, follow_in_set};

use cells::link::PathLink;
use cells::node_entry::NodeEntry;
use numbers::refusal::Refusal;
use rounds::file::Version;
use sets::crossing::{LocationWords, crossing_walk};
use sets::entry::MemberWords;
use sets::lookup_member::start_in_member;
use sets::named::member_of_area;
use walks::walk::Walked;

// The member that a round belongs to: of version 2 that of its area, of version 1 the caller's.
fn round_member(
    members: &[MemberWords],
    nodes: &[NodeEntry],
    version: Version,
    member: usize,
) -> Result<usize, Refusal>
    ensures { (links : List PathLink) (junctions : List JunctionEntry) (refs : List NodeJunctionRef)
        (heights : List ℕ) → result
        ≡ round_member (cell_set members.now nodes.now links junctions heights refs) version member }
{
    let Version::Two(area) = version else {
        return Ok(member);
    };
    member_of_area(members, nodes, area).ok_or(Refusal::OtherArea)
}

// The crossing walk from what `node` finds for the start number in the member that the round belongs to, whatever the
// lists that are not lent. `visited` gets member and place of each node visited; a refusal changes nothing.
#[tactic(auto, unfolding(crate::specs::FollowInSet::follow_in_set))]
pub fn follow_round_in_set(
    members: &[MemberWords],
    nodes: &[NodeEntry],
    links: &[PathLink],
    version: Version,
    member: usize,
    start: u16,
    choices: &[u8],
    visited: &mut [LocationWords],
) -> Result<Walked, Refusal>
    ensures { (u : Unlent members.now)
        → crossing_left result visited.new
        ≡ follow_in_set (cell_set members.now nodes.now links.now u.junctions u.heights u.refs) version member start
        choices.now visited.old }
{
    let j = round_member(members, nodes, version, member)?;
    let p = start_in_member(members, nodes, links, j, start)?;
    crossing_walk(members, nodes, links, j, p, choices, visited)
}
