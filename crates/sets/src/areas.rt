// The members' areas, and which member a link names (T-09).
ghost use Rattle.std.specs.Prelude.{◌≡◌, ◌≤◌, ◌<◌, length, take};
ghost use Rattle.cells.specs.Lookup.{first_with};
ghost use Rattle.sets.specs.Members.{member_for};
ghost use Rattle.sets.specs.SetParts.{named_of, Holding, areas_of};

use crate::entry::{MemberWords, count_in, size_in};
use cells::area::{belongs_to, own_area};
use cells::node_entry::NodeEntry;
use numbers::refusal::Array;

// Stores the members' areas, in the order of joining.
#[tactic(auto, using(crate::proofs::AreasFilled::areas_stored))]
pub(crate) fn fill_areas(members: &[MemberWords], nodes: &[NodeEntry], areas: &mut [u16])
    requires { (length members.now ≤ length areas.old) × Holding 10 15 members.now (length nodes.now) }
    ensures { take (length members.now) areas.new ≡ areas_of members.now nodes.now }
{
    let mut start = 0;
    for (i, w) in members.iter().enumerate() {
        areas[i] = own_area(&nodes[start..], count_in(*w, Array::Nodes));
        start += size_in(*w, Array::Nodes);
    }
}

// The first of the areas that is this one.
#[tactic(auto, using(crate::proofs::CellSetLaws::place_laws))]
fn first_with(areas: &[u16], area: u16) -> Option<usize>
    ensures { result ≡ named_of (first_with areas.now area) }
{
    areas.iter().position(|a| *a == area)
}

// The member that a link of this area in the member i names. Its cell's own rule has its say first.
#[tactic(auto, using(crate::proofs::MemberLaws::member_laws))]
pub(crate) fn member_named(areas: &[u16], i: usize, area: u16) -> Option<usize>
    requires { i < length areas.now }
    ensures { result ≡ named_of (member_for areas.now i area) }
{
    if belongs_to(areas[i], area) {
        return Some(i);
    }
    first_with(areas, area)
}
