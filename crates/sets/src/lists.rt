// The five lists that a set or a cell is lent, which go together.
ghost use Rattle.std.specs.Prelude.{◌≡◌, ◌+◌, ◌≤◌, length, take};
ghost use Rattle.sets.specs.Join.{stored};
ghost use Rattle.sets.specs.ListParts.{Same, lengths_given};
ghost use Rattle.sets.specs.MemberParts.{PartsLie, between};

use cells::counts::Counts;
use cells::junction_entry::JunctionEntry;
use cells::link::PathLink;
use cells::node_entry::NodeEntry;
use cells::replace::put_at;
use records::junction_ref::NodeJunctionRef;

// The part of a list from a up to e.
fn part<T>(list: &[T], a: usize, e: usize) -> &[T]
    requires { (a ≤ e) × (e ≤ length list.now) }
    ensures { result.now ≡ between a e list.now }
{
    &list[a..e]
}

// To be read.
#[derive(Clone, Copy)]
pub(crate) struct Given<'a> {
    pub nodes: &'a [NodeEntry],
    pub links: &'a [PathLink],
    pub junctions: &'a [JunctionEntry],
    pub heights: &'a [u8],
    pub refs: &'a [NodeJunctionRef],
}

// To be written.
#[derive(Drop)]
pub(crate) struct Lists<'a> {
    pub nodes: &'a mut [NodeEntry],
    pub links: &'a mut [PathLink],
    pub junctions: &'a mut [JunctionEntry],
    pub heights: &'a mut [u8],
    pub refs: &'a mut [NodeJunctionRef],
}

impl<'a> Given<'a> {
    // The parts from a up to e.
    pub(crate) fn between(self, a: Counts, e: Counts) -> Given<'a>
        requires { PartsLie a e (lengths_given self) }
        ensures { (result.nodes.now ≡ between a.nodes e.nodes self.entry.nodes.now)
            × (result.links.now ≡ between a.links e.links self.entry.links.now)
            × (result.junctions.now ≡ between a.junctions e.junctions self.entry.junctions.now)
            × (result.heights.now ≡ between a.heights e.heights self.entry.heights.now)
            × (result.refs.now ≡ between a.refs e.refs self.entry.refs.now) }
    {
        Given {
            nodes: part(self.nodes, a.nodes, e.nodes),
            links: part(self.links, a.links, e.links),
            junctions: part(self.junctions, a.junctions, e.junctions),
            heights: part(self.heights, a.heights, e.heights),
            refs: part(self.refs, a.refs, e.refs),
        }
    }
}

impl<'a> Lists<'a> {
    // What the counts say of these lists, stored from these places on.
    #[tactic(auto, using(crate::proofs::PartLaws::stored_in))]
    pub(crate) fn append(&mut self, at: Counts, counts: Counts, given: Given)
        requires { ((counts.nodes ≤ length given.nodes.now)
            × (at.nodes + counts.nodes ≤ length self.old.nodes.now))
            × ((counts.links ≤ length given.links.now) × (at.links + counts.links ≤ length self.old.links.now))
            × ((counts.junctions ≤ length given.junctions.now)
            × (at.junctions + counts.junctions ≤ length self.old.junctions.now))
            × ((counts.heights ≤ length given.heights.now)
            × (at.heights + counts.heights ≤ length self.old.heights.now))
            × ((counts.refs ≤ length given.refs.now) × (at.refs + counts.refs ≤ length self.old.refs.now)) }
        ensures same { Same self.new self.old }
        ensures value { (self.new.nodes.now
            ≡ stored at.nodes (take counts.nodes given.entry.nodes.now) self.old.nodes.now)
            × (self.new.links.now ≡ stored at.links (take counts.links given.entry.links.now) self.old.links.now)
            × (self.new.junctions.now
            ≡ stored at.junctions (take counts.junctions given.entry.junctions.now) self.old.junctions.now)
            × (self.new.heights.now
            ≡ stored at.heights (take counts.heights given.entry.heights.now) self.old.heights.now)
            × (self.new.refs.now ≡ stored at.refs (take counts.refs given.entry.refs.now) self.old.refs.now) }
    {
        put_at(self.nodes, at.nodes, &given.nodes[..counts.nodes]);
        put_at(self.links, at.links, &given.links[..counts.links]);
        put_at(
            self.junctions,
            at.junctions,
            &given.junctions[..counts.junctions],
        );
        put_at(self.heights, at.heights, &given.heights[..counts.heights]);
        put_at(self.refs, at.refs, &given.refs[..counts.refs]);
    }
}
