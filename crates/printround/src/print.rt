// From the program's input to the text that it prints.
ghost use Rattle.std.specs.Prelude.{◌≡◌, List, [], ℕ, IfOk, length, string_bytes};
ghost use Rattle.cells.specs.Memory.{memory, left};
ghost use Rattle.cells.specs.NewYnd.{new_ynd};
ghost use Rattle.cells.specs.declared.junction_entry.JunctionEntry.{JunctionEntry};
ghost use Rattle.records.specs.declared.junction_ref.NodeJunctionRef.{NodeJunctionRef};
ghost use Rattle.cells.specs.Read.{read_of};
ghost use Rattle.rounds.specs.Round.{version_read};
ghost use Rattle.rounds.specs.Follow.{follow_version};
ghost use Rattle.printround.specs.Printed.{walk_of, file_of, section_of, printed, choices_lent, visited_lent};

use crate::text::{bad_input, refused, round};
use cells::junction_entry::JunctionEntry;
use cells::link::PathLink;
use cells::node_entry::NodeEntry;
use cells::read::read;
use cells::ynd::Ynd;
use numbers::refusal::Refusal;
use records::bytes::u32_at;
use records::junction_ref::NodeJunctionRef;
use rounds::file::{VersionRound, read_version};
use rounds::follow::follow_version;
use std::alloc::{AllocError, Global};

// The round is followed.
fn followed(
    alloc: Global,
    ynd: Ynd,
    nodes: &[NodeEntry],
    links: &[PathLink],
    round_file: VersionRound,
    choices: &[u8],
) -> Result<String, AllocError>
    ensures { IfOk result (λ text. (junctions : List JunctionEntry) (heights : List ℕ)
        (refs : List NodeJunctionRef)
        → string_bytes text ≡ walk_of (memory ynd nodes.now links.now junctions heights refs) round_file.count
        (follow_version (memory ynd nodes.now links.now junctions heights refs) round_file.version
        round_file.start choices.now visited_lent)) }
{
    let mut visited = vec![in alloc; 0u32; 16_384]?;
    let walked = follow_version(
        ynd,
        nodes,
        links,
        round_file.version,
        round_file.start,
        choices,
        visited.as_mut_slice(),
    );
    match walked {
        Ok(walk) => {
            visited.truncate(walk.count);
            let own = &nodes[..(ynd.node_count as usize).min(nodes.len())];
            round(alloc, own, round_file.count, walk.end, visited.as_slice())
        }
        Err(refusal) => refused(alloc, refusal.number()),
    }
}

// The round file is read.
fn file_read(
    alloc: Global,
    ynd: Ynd,
    nodes: &[NodeEntry],
    links: &[PathLink],
    file: &[u8],
) -> Result<String, AllocError>
    ensures { IfOk result (λ text. (junctions : List JunctionEntry) (heights : List ℕ)
        (refs : List NodeJunctionRef)
        → string_bytes text ≡ file_of (memory ynd nodes.now links.now junctions heights refs)
        (version_read file.now choices_lent)) }
{
    let mut choices = vec![in alloc; 0u8; 65_536]?;
    let read = read_version(file, choices.as_mut_slice());
    match read {
        Ok(round) => {
            choices.truncate(round.count);
            followed(alloc, ynd, nodes, links, round, choices.as_slice())
        }
        Err(refusal) => refused(alloc, refusal.number()),
    }
}

// The section is read, graphics empty, into a new cell.
fn cell_read(
    section: &[u8],
    nodes: &mut [NodeEntry],
    links: &mut [PathLink],
    junctions: &mut [JunctionEntry],
    heights: &mut [u8],
    refs: &mut [NodeJunctionRef],
) -> Result<Ynd, Refusal>
    ensures { left new_ynd result nodes.new links.new junctions.new heights.new refs.new
        ≡ read_of section.now [] (memory new_ynd nodes.old links.old junctions.old heights.old refs.old) }
{
    read(
        Ynd::new(),
        section,
        &[],
        nodes,
        links,
        junctions,
        heights,
        refs,
    )
}

// The section is read, and then the round file.
fn section_read(alloc: Global, section: &[u8], file: &[u8]) -> Result<String, AllocError>
    ensures { IfOk result (λ text. string_bytes text ≡ section_of section.now file.now) }
{
    let mut nodes = vec![in alloc; NodeEntry::default(); 1024]?;
    let mut links = vec![in alloc; PathLink::default(); 8192]?;
    let mut junctions = vec![in alloc; JunctionEntry::default(); 256]?;
    let mut heights = vec![in alloc; 0u8; 65_536]?;
    let mut refs = vec![in alloc; NodeJunctionRef::default(); 1024]?;
    let read = cell_read(
        section,
        nodes.as_mut_slice(),
        links.as_mut_slice(),
        junctions.as_mut_slice(),
        heights.as_mut_slice(),
        refs.as_mut_slice(),
    );
    match read {
        Ok(ynd) => file_read(alloc, ynd, nodes.as_slice(), links.as_slice(), file),
        Err(refusal) => refused(alloc, refusal.number()),
    }
}

// The text for the whole input.
#[tactic(auto, using(crate::proofs::Frame::frame_laws))]
pub(crate) fn text_of(alloc: Global, input: &[u8]) -> Result<String, AllocError>
    ensures { IfOk result (λ text. string_bytes text ≡ printed input.now) }
{
    if 65_536 < input.len() {
        return bad_input(alloc);
    }
    if input.len() < 4 {
        return bad_input(alloc);
    }
    let stated = u32_at(input, 0) as usize;
    if input.len() - 4 < stated {
        return bad_input(alloc);
    }
    let end = 4 + stated;
    section_read(alloc, &input[4..end], &input[end..])
}
