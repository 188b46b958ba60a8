// A cell leaves a set (T-09).
ghost use Rattle.std.specs.Prelude.{◌≡◌, ◌≤◌, ◌<◌, length};
ghost use Rattle.sets.specs.CellSet.{cell_set};
ghost use Rattle.sets.specs.SetParts.{Holds};
ghost use Rattle.sets.specs.ListParts.{Same, set_of};
ghost use Rattle.sets.specs.Leave.{left_after, without, leave_area};

use crate::entry::MemberWords;
use crate::lists::Lists;
use crate::moves::close;
use crate::named::member_of_area;
use crate::parts::starts_of;
use crate::room::check_set;
use cells::counts::lengths;
use cells::junction_entry::JunctionEntry;
use cells::link::PathLink;
use cells::node_entry::NodeEntry;
use numbers::refusal::Refusal;
use records::junction_ref::NodeJunctionRef;

// Closes the gap that the member j leaves in each list.
fn take_out(members: &mut [MemberWords], lists: &mut Lists, j: usize)
    requires { (j < length members.old) × (length members.old ≤ 9) × Holds (set_of members.old lists.old) }
    ensures same { Same lists.new lists.old }
    ensures value { set_of members.new lists.new ≡ without (set_of members.old lists.old) j }
{
    let m = members.len();
    let k = j + 1;
    let a = starts_of(members, j);
    let e = starts_of(members, k);
    let t = starts_of(members, m);
    close(lists.nodes, a.nodes, e.nodes, t.nodes);
    close(lists.links, a.links, e.links, t.links);
    close(lists.junctions, a.junctions, e.junctions, t.junctions);
    close(lists.heights, a.heights, e.heights, t.heights);
    close(lists.refs, a.refs, e.refs, t.refs);
    close(members, j, k, m);
}

// Takes the member with this area out, the first joined of several. `members` are all entries of the set; gives how
// many of them are after it. A refusal changes nothing.
#[tactic(auto, using(crate::proofs::LeaveLaws::nobody))]
pub fn leave(
    members: &mut [MemberWords],
    nodes: &mut [NodeEntry],
    links: &mut [PathLink],
    junctions: &mut [JunctionEntry],
    heights: &mut [u8],
    refs: &mut [NodeJunctionRef],
    area: u16,
) -> Result<usize, Refusal>
    ensures { left_after (length members.old) result (cell_set members.new nodes.new links.new
        junctions.new heights.new refs.new)
        ≡ leave_area (cell_set members.old nodes.old links.old junctions.old
        heights.old refs.old) area }
{
    let m = members.len();
    let j = member_of_area(members, nodes, area).ok_or(Refusal::NoSuchPlace)?;
    check_set(members, lengths(nodes, links, junctions, heights, refs))?;
    let mut lists = Lists {
        nodes,
        links,
        junctions,
        heights,
        refs,
    };
    take_out(members, &mut lists, j);
    Ok(m - 1)
}
