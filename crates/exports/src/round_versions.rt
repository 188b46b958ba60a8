// Round files of both versions, and rounds of either followed in a cell (T-11).
ghost use Rattle.std.specs.Prelude.{◌≡◌, List, ℕ};
ghost use Rattle.cells.specs.Memory.{memory};
ghost use Rattle.walks.specs.WalkCall.{walk_left};
ghost use Rattle.rounds.specs.Round.{version_read, written_left};
ghost use Rattle.exports.specs.Found.{told, value_told, trail, walk_told};
ghost use Rattle.exports.specs.Versions.{version_number, version_area, version_head, version_told};
ghost use Rattle.exports.specs.Versions.{version_of, written_as, followed_as};
ghost use Rattle.cells.specs.declared.junction_entry.JunctionEntry.{JunctionEntry};
ghost use Rattle.records.specs.declared.junction_ref.NodeJunctionRef.{NodeJunctionRef};

use crate::answers::{answer, tell};
use crate::walking::tell_walk;
use cells::link::PathLink;
use cells::node_entry::NodeEntry;
use cells::ynd::Ynd;
use numbers::refusal::Refusal;
use rounds::file::{Version, read_version, write_version};
use rounds::follow::follow_version;
use walks::walk::Walked;

fn version_number(version: Version) -> u16
    ensures { result ≡ version_number version }
{
    match version {
        Version::One => 1,
        Version::Two(_) => 2,
    }
}

fn version_area(version: Version) -> u16
    ensures { result ≡ version_area version }
{
    match version {
        Version::One => 0,
        Version::Two(area) => area,
    }
}

pub(crate) fn version_of(number: u16, area: u16) -> Result<Version, Refusal>
    ensures { result ≡ version_of number area }
{
    match number {
        1 => Ok(Version::One),
        2 => Ok(Version::Two(area)),
        _ => Err(Refusal::NoRoundFile),
    }
}

// Reads a round file of version 1 or 2: `version` gets which, `area` the area of version 2 (0 for version 1), the
// others what `ynd_read_round` leaves.
#[unsafe(no_mangle)]
pub extern "C" fn ynd_read_round_versioned(
    file: &[u8],
    choices: &mut [u8],
    version: &mut u16,
    area: &mut u16,
    start: &mut u16,
    count: &mut usize,
    place: &mut usize,
) -> u32
    ensures count_after { told result place.new (version_head version.new area.new start.new count.new)
        ≡ version_told (version_read file.now choices.old).answer
        (version_head version.old area.old start.old count.old) }
    ensures choices_after { choices.new ≡ (version_read file.now choices.old).choices }
{
    let r = read_version(file, choices);
    if let Ok(round) = r {
        *version = version_number(round.version);
        *area = version_area(round.version);
        *start = round.start;
        *count = round.count;
    }
    answer(r, place)
}

fn write_as(
    version: u16,
    area: u16,
    start: u16,
    choices: &[u8],
    file: &mut [u8],
) -> Result<usize, Refusal>
    ensures { written_left result file.new
        ≡ written_as version area start choices.now file.old }
{
    write_version(version_of(version, area)?, start, choices, file)
}

// Writes a round file of the version named, as `ynd_write_round` writes version 1. A version 1 file has no area.
#[unsafe(no_mangle)]
pub extern "C" fn ynd_write_round_versioned(
    version: u16,
    area: u16,
    start: u16,
    choices: &[u8],
    file: &mut [u8],
    length: &mut usize,
    place: &mut usize,
) -> u32
    ensures length_after { told result place.new length.new
        ≡ value_told (written_as version area start choices.now file.old).answer length.old }
    ensures file_after { file.new ≡ (written_as version area start choices.now file.old).file }
{
    tell(write_as(version, area, start, choices, file), length, place)
}

// Where a round begins, as C says it: its version, the area of version 2 and the start node's number.
#[derive(Clone, Copy)]
struct Begun {
    version: u16,
    area: u16,
    start: u16,
}

fn follow_as(
    ynd: Ynd,
    nodes: &[NodeEntry],
    links: &[PathLink],
    round: Begun,
    choices: &[u8],
    visited: &mut [u32],
) -> Result<Walked, Refusal>
    ensures { (junctions : List JunctionEntry) (heights : List ℕ) (refs : List NodeJunctionRef)
        → walk_left result visited.new
        ≡ followed_as (memory ynd nodes.now links.now junctions heights refs) round.version round.area round.start
        choices.now visited.old }
{
    let version = version_of(round.version, round.area)?;
    follow_version(ynd, nodes, links, version, round.start, choices, visited)
}

// Walks a round of the version named, as `ynd_follow_round` walks one of version 1.
#[unsafe(no_mangle)]
pub extern "C" fn ynd_follow_round_versioned(
    ynd: &Ynd,
    nodes: &[NodeEntry],
    links: &[PathLink],
    version: u16,
    area: u16,
    start: u16,
    choices: &[u8],
    visited: &mut [u32],
    end: &mut [u32; 3],
    count: &mut usize,
    place: &mut usize,
) -> u32
    ensures answer { (junctions : List JunctionEntry) (heights : List ℕ) (refs : List NodeJunctionRef) →
        told result place.new (trail end.new count.new)
        ≡ walk_told
        (followed_as (memory ynd.now nodes.now links.now junctions heights refs) version area start
        choices.now visited.old).answer
        end.old count.old }
    ensures visited_after { (junctions : List JunctionEntry) (heights : List ℕ) (refs : List NodeJunctionRef) →
        visited.new
        ≡ (followed_as (memory ynd.now nodes.now links.now junctions heights refs) version area start
        choices.now visited.old).visited }
{
    let round = Begun {
        version,
        area,
        start,
    };
    let r = follow_as(*ynd, nodes, links, round, choices, visited);
    tell_walk(r, end, count, place)
}
