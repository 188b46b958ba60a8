// How far nodes lie from a point, by the square, in whole steps.
ghost use Rattle.std.specs.Prelude.{◌≡◌, ◌+◌, ◌*◌, ◌<◌, ◌≤◌, length};
ghost use Rattle.std.specs.Float.{binary32};
ghost use Rattle.std.specs.Float.Ieee.{of_bits};
ghost use Rattle.numbers.specs.Steps.{step_of};
ghost use Rattle.reach.specs.Reach.{distances};
ghost use Rattle.reach.specs.Parts.{raised_step, square_apart, far_from, distances_from, bounded};
ghost use Rattle.reach.specs.Heap.{key_of, Place};

use cells::node_entry::NodeEntry;
use numbers::steps::steps_xy_of_bits;

// Nodes, and a point whose distance from them is asked, in steps counted from the lowest.
#[derive(Clone, Copy)]
pub(crate) struct Point<'a> {
    pub(crate) nodes: &'a [NodeEntry],
    x: u16,
    y: u16,
}

// A step, counted from the lowest.
#[tactic(auto, using(crate::proofs::DistanceLaws::raised_up, crate::proofs::Casts::stored_sum))]
fn raised(n: i16) -> u16
    ensures { result ≡ raised_step n }
{
    (n as i32 + 32768) as u16
}

// The least square that is beyond the radius.
pub(crate) fn beyond(radius: u16) -> u64
    ensures { result ≡ radius * radius + 1 }
{
    radius as u64 * radius as u64 + 1
}

// The square of the steps between a, counted from the lowest, and a coordinate, given by its bits.
#[tactic(auto, using(crate::proofs::Casts::apart_cast))]
fn square_apart(a: u16, bits: u32) -> u64
    ensures { (result ≡ square_apart a (raised_step (step_of 2 (of_bits binary32 bits))))
        × (result ≤ 4294836225) }
{
    let b = steps_xy_of_bits(bits) as i32 + 32768;
    let d = (a as i32 - b) as i64;
    (d * d) as u64
}

impl<'a> Point<'a> {
    #[tactic(auto, using(crate::proofs::DistanceLaws::far_of))]
    pub(crate) fn new(nodes: &'a [NodeEntry], x: i16, y: i16) -> Self
        ensures { (result.nodes.now ≡ nodes.now) × (distances_from result ≡ distances x y nodes.now) }
    {
        Point {
            nodes,
            x: raised(x),
            y: raised(y),
        }
    }

    // The squared distance of a node, as far as the limit. Where x alone reaches it, y is not looked at. The sum of
    // two squares passes 32 bits.
    #[inline(always)]
    #[tactic(auto, using(crate::proofs::TurnLaws::bounded_laws))]
    pub(crate) fn distance_up_to(&self, n: &NodeEntry, limit: u64) -> u64
        ensures { result ≡ bounded limit (far_from self.now.x self.now.y n.now) }
    {
        let x = square_apart(self.x, n.position.x);
        if limit <= x {
            return limit;
        }
        limit.min(x + square_apart(self.y, n.position.y))
    }

    // The whole squared distance.
    #[tactic(auto, unfolding(crate::specs::Reach::stored, crate::specs::Parts::far_from))]
    pub(crate) fn square_distance(&self, n: &NodeEntry) -> u64
        ensures { (result ≡ far_from self.now.x self.now.y n.now) × (result ≤ 8589672450) }
    {
        square_apart(self.x, n.position.x) + square_apart(self.y, n.position.y)
    }

    // The squared distance of the node at p, with the place below it.
    #[tactic(auto, unfolding(crate::specs::Parts::far, crate::specs::Heap::key_of))]
    pub(crate) fn key_of(&self, p: u32) -> u64
        requires { Place (length self.now.nodes.now) p }
        ensures { result ≡ key_of (distances_from self.now) p }
    {
        self.square_distance(&self.nodes[p as usize]) * 65536 + p as u64
    }
}
