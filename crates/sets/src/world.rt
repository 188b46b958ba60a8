// A set that links lead through (T-09).
ghost use Rattle.std.specs.Prelude.{◌≡◌, length};
ghost use Rattle.sets.specs.SetParts.{Holding, areas_of};
ghost use Rattle.sets.specs.CrossParts.{Lent};

use crate::areas::fill_areas;
use crate::entry::MemberWords;
use cells::link::PathLink;
use cells::node_entry::NodeEntry;

// The members' areas and entries, and lists that hold their nodes and links.
#[derive(Clone, Copy)]
pub(crate) struct World<'a> {
    pub areas: &'a [u16],
    pub members: &'a [MemberWords],
    pub nodes: &'a [NodeEntry],
    pub links: &'a [PathLink],
    ghost lent: { Lent areas.now members.now nodes.now },
    ghost links_hold: { Holding 11 16 members.now (length links.now) },
}

impl<'a> World<'a> {
    // The members' areas are stored in the list that is lent for them.
    pub(crate) fn new(
        areas: &'a mut [u16; 9],
        members: &'a [MemberWords],
        nodes: &'a [NodeEntry],
        links: &'a [PathLink],
    ) -> World<'a>
        requires { Lent (areas_of members.now nodes.now) members.now nodes.now
            × Holding 11 16 members.now (length links.now) }
        ensures { (result.members.now ≡ members.now) × (result.nodes.now ≡ nodes.now)
            × (result.links.now ≡ links.now) }
    {
        fill_areas(members, nodes, areas);
        World {
            areas: &areas[..members.len()],
            members,
            nodes,
            links,
        }
    }
}
