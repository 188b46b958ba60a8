// A cell handed back before it leaves its set (T-09).
ghost use Rattle.std.specs.Prelude.{◌≡◌, []};
ghost use Rattle.cells.specs.Memory.{memory, left};
ghost use Rattle.sets.specs.CellSet.{cell_set};
ghost use Rattle.sets.specs.HandBack.{copied, hand_back};
ghost use Rattle.sets.specs.ListParts.{Same, memory_of, set_given, lengths_in, lengths_given};
ghost use Rattle.sets.specs.MemberParts.{part_memory, Giving};

use crate::entry::MemberWords;
use crate::lists::{Given, Lists};
use crate::member::{MemberPart, open_member};
use crate::named::member_of_area;
use cells::counts::{Counts, lengths};
use cells::junction_entry::JunctionEntry;
use cells::link::PathLink;
use cells::node_entry::NodeEntry;
use cells::room::check_lent;
use cells::ynd::Ynd;
use numbers::refusal::Refusal;
use records::junction_ref::NodeJunctionRef;

// The cell whose lists are the parts of p, into lists that have room for it.
fn give_part(p: MemberPart, from: Given, to: &mut Lists)
    requires { Giving p (lengths_given from) (lengths_in to.old) }
    ensures same { Same to.new to.old }
    ensures value { memory_of p.ynd to.new
        ≡ copied (part_memory p.ynd p.a p.e (set_given [] from.entry)) (memory_of p.ynd to.old) }
{
    let part = from.between(p.a, p.e);
    to.append(Counts::default(), p.ynd.counts(), part);
}

// The cell that `leave` would take out, copied into the caller's lists. A refusal changes nothing, and neither does
// the set change: `leave` follows.
#[tactic(auto, using(crate::proofs::HandBackLaws::hand_nobody))]
pub fn hand_back(
    members: &[MemberWords],
    nodes: &[NodeEntry],
    links: &[PathLink],
    junctions: &[JunctionEntry],
    heights: &[u8],
    refs: &[NodeJunctionRef],
    area: u16,
    ynd: Ynd,
    to_nodes: &mut [NodeEntry],
    to_links: &mut [PathLink],
    to_junctions: &mut [JunctionEntry],
    to_heights: &mut [u8],
    to_refs: &mut [NodeJunctionRef],
) -> Result<Ynd, Refusal>
    ensures { left ynd result to_nodes.new to_links.new to_junctions.new to_heights.new to_refs.new
        ≡ hand_back (cell_set members.now nodes.now links.now junctions.now heights.now refs.now)
        area (memory ynd to_nodes.old to_links.old to_junctions.old to_heights.old to_refs.old) }
{
    let j = member_of_area(members, nodes, area).ok_or(Refusal::NoSuchPlace)?;
    let lens = lengths(nodes, links, junctions, heights, refs);
    let p = open_member(members, lens, j)?;
    check_lent(
        p.ynd,
        lengths(to_nodes, to_links, to_junctions, to_heights, to_refs),
    )?;
    let from = Given {
        nodes,
        links,
        junctions,
        heights,
        refs,
    };
    let mut to = Lists {
        nodes: to_nodes,
        links: to_links,
        junctions: to_junctions,
        heights: to_heights,
        refs: to_refs,
    };
    give_part(p, from, &mut to);
    Ok(p.ynd)
}
