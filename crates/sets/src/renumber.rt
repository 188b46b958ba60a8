// Renumbering one member of a set (T-09): its own entries, and the links of the others that name it.
ghost use Rattle.std.specs.Prelude.{◌≡◌, false, ◌≤◌, ◌<◌, length, take, drop, get_or, []};
ghost use Rattle.cells.specs.Memory.{memory, over_limit};
ghost use Rattle.cells.specs.NewNumbers.{numbers_left, numbers_call};
ghost use Rattle.cells.specs.Renumber.{renumbered_by, renumber, scratch_left};
ghost use Rattle.sets.specs.CellSet.{cell_set, ynd_of};
ghost use Rattle.sets.specs.SetParts.{Holds, starts_of};
ghost use Rattle.sets.specs.SetStored.{member_in};
ghost use Rattle.sets.specs.NumberedParts.{SameNumbered, numbered_set};
ghost use Rattle.sets.specs.RenumberMember.{member_renumbered, renumbered_at, renumber_member};

use crate::correct::correct_others;
use crate::entry::MemberWords;
use crate::member::{MemberPart, open_member, store_ynd};
use cells::counts::{Counts, lengths};
use cells::junction_entry::JunctionEntry;
use cells::link::PathLink;
use cells::new_numbers::new_numbers;
use cells::node_entry::NodeEntry;
use cells::renumber::recalculate_node_indices;
use cells::ynd::Ynd;
use numbers::refusal::Refusal;
use records::junction_ref::NodeJunctionRef;

// The new numbers of the nodes from `start` on, n of them.
fn numbers_at(
    nodes: &[NodeEntry],
    start: usize,
    n: usize,
    scratch: &mut [u32],
    places: &mut [u32],
) -> Result<(), Refusal>
    requires { start ≤ length nodes.now }
    ensures { numbers_left result scratch.new places.new
        ≡ numbers_call n (drop start nodes.now) scratch.old places.old }
{
    new_numbers(&nodes[start..], n, scratch, places)
}

// The five lists, those of them to be written that renumbering changes.
#[derive(Drop)]
struct Numbered<'a> {
    nodes: &'a mut [NodeEntry],
    links: &'a mut [PathLink],
    junctions: &'a [JunctionEntry],
    heights: &'a [u8],
    refs: &'a mut [NodeJunctionRef],
}

impl<'a> Numbered<'a> {
    // The own entries of a member, which start at these places.
    fn renumber_part(
        &mut self,
        ynd: Ynd,
        at: Counts,
        scratch: &mut [u32],
        places: &mut [u32],
    ) -> Result<Ynd, Refusal>
        requires { (at.nodes ≤ length self.old.nodes.now) × (at.links ≤ length self.old.links.now)
            × (at.refs ≤ length self.old.refs.now) }
        ensures same { SameNumbered self.new self.old }
        ensures called { renumbered_by ynd result (drop at.nodes self.new.nodes.now) (drop at.links self.new.links.now)
            self.old.junctions.now self.old.heights.now (drop at.refs self.new.refs.now) places.new
            ≡ renumber (memory ynd (drop at.nodes self.old.nodes.now) (drop at.links self.old.links.now)
            self.old.junctions.now self.old.heights.now (drop at.refs self.old.refs.now)) (length scratch.old)
            places.old }
        ensures before { (take at.nodes self.new.nodes.now ≡ take at.nodes self.old.nodes.now)
            × (take at.links self.new.links.now ≡ take at.links self.old.links.now)
            × (take at.refs self.new.refs.now ≡ take at.refs self.old.refs.now) }
        ensures scratch_left { scratch_left result scratch.old scratch.new }
    {
        recalculate_node_indices(
            ynd,
            &mut self.nodes[at.nodes..],
            &mut self.links[at.links..],
            self.junctions,
            self.heights,
            &mut self.refs[at.refs..],
            scratch,
            places,
        )
    }
}

// The member j, whose part is p, in lists that hold the set. At `exit` the lists stand in their order.
fn renumber_held(
    p: MemberPart,
    members: &mut [MemberWords],
    lists: Numbered,
    scratch: &mut [u32],
    places: &mut [u32],
    j: usize,
) -> Result<(), Refusal>
    requires { (j < length members.old) × (length members.old ≤ 9) × (over_limit p.ynd ≡ false)
        × (p.ynd ≡ ynd_of (get_or members.old j [])) × (p.a ≡ starts_of members.old j)
        × Holds (numbered_set members.old lists) }
    ensures called { member_renumbered result (cell_set members.new lists.exit.0.now lists.exit.1.0.now
        lists.entry.junctions.now lists.entry.heights.now lists.exit.1.1.1.1.0.now) places.new
        ≡ renumbered_at (numbered_set members.old lists.entry) j
        (renumber (member_in (numbered_set members.old lists.entry) j) (length scratch.old) places.old) }
    ensures scratch_left { scratch_left result scratch.old scratch.new }
{
    let Numbered {
        nodes,
        links,
        junctions,
        heights,
        refs,
    } = lists;
    numbers_at(nodes, p.a.nodes, p.ynd.node_count as usize, scratch, places)?;
    correct_others(members, nodes, links, scratch, j);
    let mut corrected = Numbered {
        nodes,
        links,
        junctions,
        heights,
        refs,
    };
    let next = corrected.renumber_part(p.ynd, p.a, scratch, places)?;
    store_ynd(members, j, next);
    Ok(())
}

// Renumbers a member as `recalculate_node_indices` does a cell, and corrects the links of the others that name its
// area and that their own rule doesn't claim, where the member is the first of its area. `places` gets each of its
// nodes' new place; the scratch holds anything after an accepted call; a refusal changes nothing.
pub fn renumber_member(
    members: &mut [MemberWords],
    nodes: &mut [NodeEntry],
    links: &mut [PathLink],
    junctions: &[JunctionEntry],
    heights: &[u8],
    refs: &mut [NodeJunctionRef],
    scratch: &mut [u32],
    places: &mut [u32],
    member: usize,
) -> Result<(), Refusal>
    ensures called { member_renumbered result
        (cell_set members.new nodes.new links.new junctions.now heights.now refs.new) places.new
        ≡ renumber_member (cell_set members.old nodes.old links.old junctions.now heights.now refs.old) member
        (length scratch.old) places.old }
    ensures scratch_left { scratch_left result scratch.old scratch.new }
{
    let lens = lengths(nodes, links, junctions, heights, refs);
    let p = open_member(members, lens, member)?;
    let lists = Numbered {
        nodes,
        links,
        junctions,
        heights,
        refs,
    };
    renumber_held(p, members, lists, scratch, places, member)
}
