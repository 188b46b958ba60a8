// One step of a walk that crosses the members of a set (T-09).
ghost use Rattle.std.specs.Prelude.{◌≡◌, ◌<◌, length};
ghost use Rattle.cells.specs.Cell.{numbers};
ghost use Rattle.cells.specs.Lookup.{find};
ghost use Rattle.walks.specs.WalkParts.{step_of};
ghost use Rattle.sets.specs.Members.{cell_at, member_for};
ghost use Rattle.sets.specs.Crossing.{arrive_in, enter, next_in};
ghost use Rattle.sets.specs.CrossParts.{cells_in};

use crate::areas::member_named;
use crate::entry::ynd_of;
use crate::parts::{count_before, own_entries};
use crate::world::World;
use cells::lookup::node;
use numbers::refusal::Array;
use walks::part::link_at;
use walks::walk::End;

// A member and a place in it.
#[derive(Clone, Copy)]
pub struct Location {
    pub member: u32,
    pub place: u32,
}

impl World<'_> {
    // On to the node with this number in the member k.
    #[tactic(auto, using(crate::proofs::PartLaws::total_below, crate::proofs::CrossLaws::arrive_laws))]
    fn arrive_in(&self, k: usize, number: u16) -> Result<Location, End>
        requires { k < length self.now.members.now }
        ensures { result ≡ step_of (arrive_in k (find (numbers
            (cell_at (cells_in self.now.members.now self.now.nodes.now self.now.links.now) k).nodes) number)) }
    {
        let start = count_before(self.members, Array::Nodes, k);
        let ynd = ynd_of(self.members[k]);
        match node(ynd, &self.nodes[start..], number) {
            Ok(Some(q)) => Ok(Location {
                member: k as u32,
                place: q as u32,
            }),
            _ => Err(End::NoNode),
        }
    }

    // By a link of the member i, to this number of this area.
    #[tactic(auto, using(crate::proofs::CrossLaws::named_laws))]
    fn enter_by(&self, i: usize, area: u16, number: u16) -> Result<Location, End>
        requires { i < length self.now.members.now }
        ensures { result ≡ step_of (enter (cells_in self.now.members.now self.now.nodes.now self.now.links.now)
            area number (member_for self.now.areas.now i area)) }
    {
        let k = member_named(self.areas, i, area).ok_or(End::Left(area, number))?;
        self.arrive_in(k, number)
    }

    // Where a choice leads, or how it ends the walk.
    #[tactic(auto, using(crate::proofs::CrossLaws::step_laws))]
    pub(crate) fn step_in(&self, at: Location, choice: u8) -> Result<Location, End>
        ensures { result ≡ step_of (next_in
            (cells_in self.now.members.now self.now.nodes.now self.now.links.now) at choice) }
    {
        let i = at.member as usize;
        if self.members.len() <= i {
            return Err(End::NoLink);
        }
        let nodes = own_entries(self.members, Array::Nodes, i, self.nodes);
        let links = own_entries(self.members, Array::Links, i, self.links);
        let l = link_at(nodes, links, at.place as usize, choice).ok_or(End::NoLink)?;
        self.enter_by(i, l.area_id, l.node_id)
    }
}
