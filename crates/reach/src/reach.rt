// Which nodes are within reach of a point, the nearest first, and which is the nearest (T-01, T-08).
ghost use Rattle.std.specs.Prelude.{◌≡◌, ◌++◌, ◌<◌, ◌≤◌, leb, length, drop, Ok, Some};
ghost use Rattle.reach.specs.Reach.{within, nearest_of, left, within_call, nearest_answer, nearest_call};
ghost use Rattle.reach.specs.Parts.{distances_from};

use crate::distance::{Point, beyond};
use cells::node_entry::NodeEntry;
use cells::room::own_nodes;
use cells::ynd::Ynd;
use numbers::refusal::{Lent, Refusal};

// The nearest node's place, and its squared distance in quarter-metre steps.
#[derive(Clone, Copy)]
pub struct NearestNode {
    pub place: usize,
    pub square: u64,
}

impl Point<'_> {
    // How many nodes are within reach. Nothing is stored.
    fn count_within(&self, radius: u16) -> usize
        ensures { result ≡ length (within (distances_from self.now) radius (length self.now.nodes.now)) }
    {
        let limit = beyond(radius);
        self.nodes
            .iter()
            .filter(|n| self.distance_up_to(*n, limit) < limit)
            .count()
    }

    // Whether they go into a list of `room` entries. They are counted only where there are more nodes than that.
    #[tactic(auto, using(crate::proofs::TurnLaws::within_few))]
    fn has_room(&self, radius: u16, room: usize) -> bool
        ensures { result ≡ leb (length (within (distances_from self.now) radius (length self.now.nodes.now))) room }
    {
        self.nodes.len() <= room || self.count_within(radius) <= room
    }

    // Lists them, and counts them.
    #[tactic(auto, using(crate::proofs::TurnLaws::within_none))]
    fn fill_within(&self, radius: u16, places: &mut [u32]) -> usize
        requires { (length self.now.nodes.now ≤ 65536)
            × (length (within (distances_from self.now) radius (length self.now.nodes.now)) ≤ length places.old) }
        ensures { (result ≡ length (within (distances_from self.now) radius (length self.now.nodes.now)))
            × (places.new ≡ within (distances_from self.now) radius (length self.now.nodes.now)
            ++ drop (length (within (distances_from self.now) radius (length self.now.nodes.now))) places.old) }
    {
        let limit = beyond(radius);
        let mut count = 0;
        for (i, n) in self.nodes.iter().enumerate() {
            if self.distance_up_to(n, limit) < limit {
                places[count] = i as u32;
                count += 1;
            }
        }
        count
    }

    // The nearest node.
    #[tactic(auto, using(crate::proofs::TurnLaws::nearest_laws), unfolding(crate::specs::Parts::far))]
    fn nearest_of(&self) -> NearestNode
        requires { 0 < length self.now.nodes.now }
        ensures { Ok (Some result) ≡ nearest_answer (distances_from self.now)
            (nearest_of (distances_from self.now) (length self.now.nodes.now)) }
    {
        let mut best = 0;
        let mut least = self.square_distance(&self.nodes[0]);
        for (i, n) in self.nodes[1..].iter().enumerate() {
            let d = self.distance_up_to(n, least);
            if d < least {
                best = i + 1;
                least = d;
            }
        }
        NearestNode {
            place: best,
            square: least,
        }
    }
}

// Fills the first entries with the place of every node whose stored x and y lie at most the radius away, each once and
// no other, ascending by squared distance, equal distances by place; later entries stay. Answers how many.
#[tactic(auto, using(crate::proofs::Answers::within_laws), unfolding(crate::specs::Reach::within_call, crate::specs::Reach::within_causes, cells::specs::Memory::nodes_causes))]
pub fn within(
    ynd: Ynd,
    nodes: &[NodeEntry],
    x: i16,
    y: i16,
    radius: u16,
    places: &mut [u32],
) -> Result<usize, Refusal>
    ensures { left result places.new
        ≡ within_call ynd nodes.now x y radius places.old }
{
    let own = own_nodes(ynd, nodes)?;
    let point = Point::new(own, x, y);
    if !point.has_room(radius, places.len()) {
        return Err(Refusal::TooShort(Lent::List));
    }
    let count = point.fill_within(radius, places);
    point.sort(&mut places[..count]);
    Ok(count)
}

// The node with the least squared distance, the lowest place where equal; nothing in a cell without nodes.
#[tactic(auto, using(crate::proofs::Answers::nearest_laws), unfolding(crate::specs::Reach::nearest_call, crate::specs::Reach::nearest_of))]
pub fn nearest(
    ynd: Ynd,
    nodes: &[NodeEntry],
    x: i16,
    y: i16,
) -> Result<Option<NearestNode>, Refusal>
    ensures { result ≡ nearest_call ynd nodes.now x y }
{
    let own = own_nodes(ynd, nodes)?;
    if own.is_empty() {
        return Ok(None);
    }
    Ok(Some(Point::new(own, x, y).nearest_of()))
}
