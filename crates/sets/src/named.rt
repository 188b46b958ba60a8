// Which member has an area, the first joined of several. Nothing is asked of the set: parts are cut where the list
// ends.
ghost use Rattle.std.specs.Prelude.{◌≡◌, List, ℕ};
ghost use Rattle.cells.specs.Lookup.{first_with};
ghost use Rattle.cells.specs.LookupCall.{place_of};
ghost use Rattle.sets.specs.CellSet.{cell_set};
ghost use Rattle.sets.specs.Leave.{first_of_area};
ghost use Rattle.sets.specs.SetParts.{named_of, areas_of};
ghost use Rattle.cells.specs.declared.link.PathLink.{PathLink};
ghost use Rattle.cells.specs.declared.junction_entry.JunctionEntry.{JunctionEntry};
ghost use Rattle.records.specs.declared.junction_ref.NodeJunctionRef.{NodeJunctionRef};

use crate::entry::{MemberWords, count_in, size_in};
use cells::area::own_area;
use cells::node_entry::NodeEntry;
use cells::range::{cut, part};
use numbers::refusal::Array;

// The place of the member with this area among the members, whatever the lists that are not lent.
#[tactic(auto, using(crate::proofs::Rules::area_laws), unfolding(crate::specs::CellSet::total))]
pub fn member_of_area(members: &[MemberWords], nodes: &[NodeEntry], area: u16) -> Option<usize>
    ensures value { result ≡ named_of (first_with (areas_of members.now nodes.now) area) }
    ensures of_set { (links : List PathLink) (junctions : List JunctionEntry) (refs : List NodeJunctionRef)
        (heights : List ℕ) → result
        ≡ place_of (first_of_area (cell_set members.now nodes.now links junctions heights refs) area) }
{
    let mut start = 0;
    for (i, w) in members.iter().enumerate() {
        let room = size_in(*w, Array::Nodes);
        let own = part(nodes, start, room);
        if own_area(own, count_in(*w, Array::Nodes)) == area {
            return Some(i);
        }
        start += cut(start, room, nodes.len());
    }
    None
}
