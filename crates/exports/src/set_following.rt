// Rounds followed across a set of cells (T-11, T-09). `members` are the set's entries alone.
ghost use Rattle.std.specs.Prelude.{◌≡◌, List, ℕ};
ghost use Rattle.cells.specs.LookupCall.{place_of};
ghost use Rattle.sets.specs.CellSet.{cell_set};
ghost use Rattle.sets.specs.CrossingCall.{crossing_left};
ghost use Rattle.sets.specs.Leave.{first_of_area};
ghost use Rattle.sets.specs.Lent.{Unlent};
ghost use Rattle.exports.specs.Found.{told, trail, walk_told, whether, found_at};
ghost use Rattle.exports.specs.SetTold.{set_followed_as};
ghost use Rattle.cells.specs.declared.link.PathLink.{PathLink};
ghost use Rattle.cells.specs.declared.junction_entry.JunctionEntry.{JunctionEntry};
ghost use Rattle.records.specs.declared.junction_ref.NodeJunctionRef.{NodeJunctionRef};

use crate::round_versions::version_of;
use crate::walking::tell_walk;
use cells::link::PathLink;
use cells::node_entry::NodeEntry;
use numbers::refusal::Refusal;
use set_rounds::follow::follow_round_in_set;
use sets::crossing::LocationWords;
use sets::entry::MemberWords;
use walks::walk::Walked;

// The member that has the area, the first joined of several.
#[unsafe(no_mangle)]
pub extern "C" fn ynd_set_member_of_area(
    members: &[[u32; 20]],
    nodes: &[NodeEntry],
    area: u16,
    found: &mut bool,
    member: &mut usize,
)
    ensures { (links : List PathLink) (junctions : List JunctionEntry) (refs : List NodeJunctionRef)
        (heights : List ℕ) → whether found.new member.new
        ≡ found_at member.old
        (place_of (first_of_area (cell_set members.now nodes.now links junctions heights refs) area)) }
{
    match sets::named::member_of_area(members, nodes, area) {
        Some(of_area) => {
            *found = true;
            *member = of_area;
        }
        None => *found = false,
    }
}

// Where a round begins, as C says it: its version, the area of version 2, the member of version 1 and the start node's
// number.
#[derive(Clone, Copy)]
struct BegunInSet {
    version: u16,
    area: u16,
    member: usize,
    start: u16,
}

fn follow_as(
    members: &[MemberWords],
    nodes: &[NodeEntry],
    links: &[PathLink],
    round: BegunInSet,
    choices: &[u8],
    visited: &mut [LocationWords],
) -> Result<Walked, Refusal>
    ensures { (u : Unlent members.now)
        → crossing_left result visited.new
        ≡ set_followed_as (cell_set members.now nodes.now links.now u.junctions u.heights u.refs) round.version
        round.area round.member round.start choices.now visited.old }
{
    let version = version_of(round.version, round.area)?;
    follow_round_in_set(
        members,
        nodes,
        links,
        version,
        round.member,
        round.start,
        choices,
        visited,
    )
}

// Walks a round across the set, as `ynd_set_crossing_walk` walks: from its start number in the member of its area
// (version 2) or in the member named (version 1).
#[unsafe(no_mangle)]
pub extern "C" fn ynd_set_follow_round(
    members: &[[u32; 20]],
    nodes: &[NodeEntry],
    links: &[PathLink],
    version: u16,
    area: u16,
    member: usize,
    start: u16,
    choices: &[u8],
    visited: &mut [[u32; 2]],
    end: &mut [u32; 3],
    count: &mut usize,
    place: &mut usize,
) -> u32
    ensures by_index { (u : Unlent members.now)
        → told result place.new (trail end.new count.new)
        ≡ walk_told (set_followed_as (cell_set members.now nodes.now links.now u.junctions u.heights u.refs) version
        area member start choices.now visited.old).answer end.old count.old }
    ensures by_index_2 { (u : Unlent members.now)
        → visited.new
        ≡ (set_followed_as (cell_set members.now nodes.now links.now u.junctions u.heights u.refs) version area member
        start choices.now visited.old).visited }
{
    let round = BegunInSet {
        version,
        area,
        member,
        start,
    };
    let r = follow_as(members, nodes, links, round, choices, visited);
    tell_walk(r, end, count, place)
}
