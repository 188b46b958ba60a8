// The links of the other members, as one member of a set is renumbered (T-09).
ghost use Rattle.std.specs.Prelude.{◌≡◌, true, map, ℕ, ◌≤◌, ◌<◌, length, get_or};
ghost use Rattle.std.proofs.Math.Option.{Option};
ghost use Rattle.cells.specs.Lookup.{first_with};
ghost use Rattle.cells.specs.Order.{Old};
ghost use Rattle.sets.specs.SetRenumber.{is_member};
ghost use Rattle.sets.specs.SetParts.{Holding, areas_of, named_of};
ghost use Rattle.sets.specs.CorrectParts.{Table, Tells, relabelled, change_in, part_corrected};
ghost use Rattle.sets.specs.RenumberMember.{correct_parts};

use crate::entry::{MemberWords, count_in};
use crate::named::member_of_area;
use crate::parts::{count_before, own_entries};
use cells::area::{belongs_to, own_area};
use cells::link::PathLink;
use cells::node_entry::NodeEntry;
use numbers::refusal::Array;

// The new numbers of an area's nodes, in a table.
#[derive(Clone, Copy)]
struct Renamed<'a> {
    area: u16,
    table: &'a [u32],
    ghost long: { 65536 ≤ length table.now },
    ghost few: { Table table.now },
}

impl<'a> Renamed<'a> {
    // A link, as it is after the numbers in the table became the new ones: it is changed if it names the area.
    #[tactic(auto, unfolding(crate::specs::CorrectParts::relabelled))]
    fn relabel(self, l: PathLink) -> PathLink
        ensures { (o : Old) → Tells o self.entry.table.now → result ≡ relabelled o self.entry.area l }
    {
        if l.area_id == self.area {
            return PathLink {
                node_id: self.table[l.node_id as usize] as u16,
                ..l
            };
        }
        l
    }

    // All these links.
    #[tactic(auto, using(crate::proofs::Rules::map_laws))]
    fn relabel_all(self, links: &mut [PathLink])
        ensures { (o : Old) → Tells o self.entry.table.now
            → links.new ≡ map (relabelled o self.entry.area) links.old }
    {
        for l in links.iter_mut() {
            *l = self.relabel(*l);
        }
    }
}

// The area of the member i.
fn area_of_member(members: &[MemberWords], nodes: &[NodeEntry], i: usize) -> u16
    requires { (i < length members.now) × (length members.now ≤ 9) × Holding 10 15 members.now (length nodes.now) }
    ensures { result ≡ get_or (areas_of members.now nodes.now) i 0 }
{
    let own = own_entries(members, Array::Nodes, i, nodes);
    own_area(own, own.len())
}

fn is_member(n: Option<usize>, j: usize) -> bool
    ensures { (r : Option ℕ) → n ≡ named_of r → result ≡ is_member j r }
{
    n == Some(j)
}

// The links of the member i that name the area of the member j, the first of its area, unless its own rule claims
// them.
#[tactic(auto, using(crate::proofs::CorrectLaws::lent_links))]
fn correct_member(
    members: &[MemberWords],
    nodes: &[NodeEntry],
    links: &mut [PathLink],
    renamed: Renamed,
    i: usize,
    j: usize,
)
    requires { (i < length members.now) × (length members.now ≤ 9) × Holding 10 15 members.now (length nodes.now)
        × Holding 11 16 members.now (length links.old)
        × (renamed.area ≡ get_or (areas_of members.now nodes.now) j 0)
        × (is_member j (first_with (areas_of members.now nodes.now) renamed.area) ≡ true) }
    ensures { (o : Old) → Tells o renamed.entry.table.now
        → links.new ≡ part_corrected (change_in members.now nodes.now j o) members.now i links.old }
{
    if i == j {
        return;
    }
    if belongs_to(area_of_member(members, nodes, i), renamed.area) {
        return;
    }
    let start = count_before(members, Array::Links, i);
    let count = count_in(members[i], Array::Links);
    renamed.relabel_all(&mut links[start..start + count]);
}

// The links of all members but the member j, by a table of the new numbers. Nothing is to be done where j is not the
// first member of its area.
#[tactic(auto, using(crate::proofs::CorrectLaws::turn_laws))]
pub(crate) fn correct_others(
    members: &[MemberWords],
    nodes: &[NodeEntry],
    links: &mut [PathLink],
    table: &[u32],
    j: usize,
)
    requires { (j < length members.now) × (length members.now ≤ 9) × Holding 10 15 members.now (length nodes.now)
        × Holding 11 16 members.now (length links.old) × (65536 ≤ length table.now) × Table table.now }
    ensures { (o : Old) → Tells o table.now
        → links.new ≡ correct_parts (change_in members.now nodes.now j o) 0 members.now links.old }
{
    let area = area_of_member(members, nodes, j);
    if !is_member(member_of_area(members, nodes, area), j) {
        return;
    }
    let renamed = Renamed { area, table };
    for i in 0..members.len() {
        correct_member(members, nodes, links, renamed, i, j);
    }
}
