// The search for the least sums from a place.
ghost use Rattle.std.specs.Prelude.{◌≡◌, ℕ, ◌+◌, ◌*◌, ◌<◌, ◌≤◌, length};
ghost use Rattle.paths.specs.Labels.{unlabelled};
ghost use Rattle.paths.specs.Scratch.{label_at, Fits, Kept};
ghost use Rattle.paths.specs.Search.{Lent, edge_of, Offered, work};

use crate::index::{enter_all, node_in};
use crate::queue::Queue;
use crate::scratch::{clear, label_of, put_label};
use cells::area::{belongs_to, own_area};
use cells::link::PathLink;
use cells::node_entry::NodeEntry;
use cells::ynd::Ynd;
use walks::part::link_at;

// Where a choice leads, and the length of its link.
#[derive(Clone, Copy)]
struct Edge {
    to: usize,
    length: u8,
}

// A cell's own lists, its nodes and no more, and the place that the search begins at.
#[derive(Clone, Copy)]
pub(crate) struct Search<'a> {
    pub(crate) ynd: Ynd,
    pub(crate) nodes: &'a [NodeEntry],
    pub(crate) links: &'a [PathLink],
    pub(crate) start: usize,
    ghost lent: { Lent ynd nodes.now links.now },
    ghost whole: { length nodes.now ≡ ynd.node_count },
    ghost inside: { start < ynd.node_count },
}

// The label k, by the choice b from the place u, for the place v: it takes it, and waits, if it is smaller.
#[tactic(auto, using(crate::proofs::ScratchLaws::put, crate::proofs::SearchLaws::taken_by))]
fn offer(queue: &mut Queue, scratch: &mut [u32], v: usize, k: u64, u: usize, b: u8)
    requires { Kept queue.old.n scratch.old × (v < queue.old.n) × (u < queue.old.n)
        × (k < label_at scratch.old v → Fits k) }
    ensures { (queue.new.n ≡ queue.old.n)
        × Offered queue.old.n queue.old.size v k u b queue.new.size scratch.old scratch.new }
{
    if label_of(scratch, v) <= k {
        return;
    }
    put_label(scratch, v, k, u, b);
    queue.push(scratch, v);
}

impl Search<'_> {
    ghost use Rattle.paths.specs.Search.{Searching};
    ghost use Rattle.paths.specs.Going.{nodes_in, Ready, Going};

    // Where the choice b leads from the node at place p.
    #[tactic(auto, using(crate::proofs::EdgeLaws::edge_laws))]
    fn follow(&self, scratch: &[u32], p: usize, b: u8) -> Option<Edge>
        requires { Ready self.now scratch.now × (p < length self.now.nodes.now) }
        ensures { result ≡ edge_of (nodes_in self.now) p b }
    {
        let links = &self.links[..self.ynd.link_count as usize];
        let l = link_at(self.nodes, links, p, b)?;
        if !belongs_to(own_area(self.nodes, self.nodes.len()), l.area_id) {
            return None;
        }
        let to = node_in(self.nodes, scratch, l.node_id)?;
        Some(Edge {
            to,
            length: l.length,
        })
    }

    // One link of the place u, whose label is key.
    fn relax_one(&self, queue: &mut Queue, scratch: &mut [u32], u: usize, key: u64, b: u8)
        requires { Ready self.now scratch.old × Going self.now queue.old scratch.old u b
            × (u < self.now.ynd.node_count) × (label_at scratch.old u ≡ key) × (key < unlabelled) }
        ensures { Ready self.now scratch.new × Going self.now queue.new scratch.new u (b + 1)
            × (label_at scratch.new u ≡ key)
            × (work queue.new.n scratch.new queue.new.size ≤ work queue.old.n scratch.old queue.old.size) }
    {
        if let Some(edge) = self.follow(scratch, u, b) {
            offer(
                queue,
                scratch,
                edge.to,
                key + edge.length as u64 * 4294967296 + 1,
                u,
                b,
            );
        }
    }

    // All links of the place u, which waits no longer.
    fn relax(&self, queue: &mut Queue, scratch: &mut [u32], u: usize)
        requires { Ready self.now scratch.old × Going self.now queue.old scratch.old u 0
            × (u < self.now.ynd.node_count) × (label_at scratch.old u < unlabelled) }
        ensures { Ready self.now scratch.new × Going self.now queue.new scratch.new (self.now.ynd.node_count) 0
            × (work queue.new.n scratch.new queue.new.size ≤ work queue.old.n scratch.old queue.old.size) }
    {
        let key = label_of(scratch, u);
        for b in 0..self.nodes[u].link_count {
            self.relax_one(queue, scratch, u, key, b);
        }
    }

    // The labels of all places that a walk from the start reaches.
    #[tactic(auto, using(crate::proofs::RelaxLaws::search_laws))]
    pub(crate) fn run(&self, scratch: &mut [u32])
        requires { 4 * self.now.ynd.node_count ≤ length scratch.old }
        ensures { Searching (nodes_in self.now) self.now.start
            self.now.ynd.node_count scratch.new 0 self.now.ynd.node_count 0 }
    {
        enter_all(self.nodes, scratch);
        clear(scratch, self.nodes.len());
        let mut queue = Queue::new(self.nodes.len());
        offer(&mut queue, scratch, self.start, 0, self.start, 0);
        while !queue.is_empty() {
            let u = queue.pop(scratch);
            self.relax(&mut queue, scratch, u);
        }
    }
}
