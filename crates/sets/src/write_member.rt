// Writing a member of a set, and write-then-read of one (T-09).
ghost use Rattle.std.specs.Prelude.{◌≡◌, []};
ghost use Rattle.records.specs.Put.{put};
ghost use Rattle.cells.specs.Write.{left, write_call};
ghost use Rattle.cells.specs.WriteRead.{write_read_of, written_of, ynd_after};
ghost use Rattle.sets.specs.CellSet.{cell_set};
ghost use Rattle.sets.specs.ListParts.{Same, set_of, set_given, lengths_in, lengths_given};
ghost use Rattle.sets.specs.MemberParts.{part_memory, PartsLie};
ghost use Rattle.sets.specs.WriteMember.{set_written, write_read_member, write_member};

use crate::entry::MemberWords;
use crate::lists::{Given, Lists};
use crate::member::{MemberPart, open_member, store_ynd};
use cells::counts::lengths;
use cells::junction_entry::JunctionEntry;
use cells::link::PathLink;
use cells::node_entry::NodeEntry;
use cells::write::write;
use cells::write_read::{WroteRead, write_then_read};
use numbers::refusal::Refusal;
use records::junction_ref::NodeJunctionRef;

// The cell whose lists are the parts of p.
#[tactic(auto, using(crate::proofs::MemberPartLaws::put_part))]
fn write_read_part(
    p: MemberPart,
    lists: &mut Lists,
    section: &mut [u8],
) -> Result<WroteRead, Refusal>
    requires { PartsLie p.a p.e (lengths_in lists.old) }
    ensures same { Same lists.new lists.old }
    ensures value { let b = write_read_of (part_memory p.ynd p.a p.e (set_of [] lists.old)) section.old in
        (written_of result ≡ b.answer) × (ynd_after p.ynd result ≡ b.memory.ynd)
        × (lists.new.nodes.now ≡ put lists.old.nodes.now p.a.nodes b.memory.nodes)
        × (lists.new.links.now ≡ put lists.old.links.now p.a.links b.memory.links)
        × (lists.new.junctions.now ≡ put lists.old.junctions.now p.a.junctions b.memory.junctions)
        × (lists.new.heights.now ≡ put lists.old.heights.now p.a.heights b.memory.heights)
        × (lists.new.refs.now ≡ put lists.old.refs.now p.a.refs b.memory.refs)
        × (section.new ≡ b.section) }
{
    let (a, e) = (p.a, p.e);
    write_then_read(
        p.ynd,
        &mut lists.nodes[a.nodes..e.nodes],
        &mut lists.links[a.links..e.links],
        &mut lists.junctions[a.junctions..e.junctions],
        &mut lists.heights[a.heights..e.heights],
        &mut lists.refs[a.refs..e.refs],
        section,
    )
}

// Writes a member, and reads the bytes just written into its own memory. A refusal changes nothing.
pub fn write_then_read_member(
    members: &mut [MemberWords],
    nodes: &mut [NodeEntry],
    links: &mut [PathLink],
    junctions: &mut [JunctionEntry],
    heights: &mut [u8],
    refs: &mut [NodeJunctionRef],
    section: &mut [u8],
    member: usize,
) -> Result<usize, Refusal>
    ensures { set_written result (cell_set members.new nodes.new links.new junctions.new
        heights.new refs.new) section.new
        ≡ write_read_member (cell_set members.old nodes.old links.old junctions.old
        heights.old refs.old) member section.old }
{
    let lens = lengths(nodes, links, junctions, heights, refs);
    let p = open_member(members, lens, member)?;
    let mut lists = Lists {
        nodes,
        links,
        junctions,
        heights,
        refs,
    };
    let r = write_read_part(p, &mut lists, section)?;
    store_ynd(members, member, r.ynd);
    Ok(r.written)
}

// The cell whose lists are the parts of p.
fn write_part(p: MemberPart, from: Given, section: &mut [u8]) -> Result<usize, Refusal>
    requires { PartsLie p.a p.e (lengths_given from) }
    ensures { left result section.new
        ≡ write_call (part_memory p.ynd p.a p.e (set_given [] from.entry)) section.old }
{
    let part = from.between(p.a, p.e);
    write(
        p.ynd,
        part.nodes,
        part.links,
        part.junctions,
        part.heights,
        part.refs,
        section,
    )
}

// Writes a member into a lent section.
pub fn write_member(
    members: &[MemberWords],
    nodes: &[NodeEntry],
    links: &[PathLink],
    junctions: &[JunctionEntry],
    heights: &[u8],
    refs: &[NodeJunctionRef],
    section: &mut [u8],
    member: usize,
) -> Result<usize, Refusal>
    ensures { left result section.new
        ≡ write_member (cell_set members.now nodes.now links.now junctions.now
        heights.now refs.now) member section.old }
{
    let lens = lengths(nodes, links, junctions, heights, refs);
    let p = open_member(members, lens, member)?;
    let from = Given {
        nodes,
        links,
        junctions,
        heights,
        refs,
    };
    write_part(p, from, section)
}
