// The range of links that a node has, and of heightmap values that a junction has.
ghost use Rattle.std.specs.Prelude.{◌≡◌, ◌-◌, ◌*◌, ◌<◌, min, take, drop};
ghost use Rattle.cells.specs.Nodes.{value_count};
ghost use Rattle.cells.specs.Edit.{start_at, link_range, value_range, held_in};
ghost use Rattle.cells.specs.Entries.{stored_start};

use crate::junction_entry::JunctionEntry;
use crate::node_entry::NodeEntry;

#[derive(Clone, Copy, PartialEq, Eq, Debug)]
pub struct Range {
    pub start: usize,
    pub count: usize,
}

pub(crate) fn map_size(width: u8, height: u8) -> usize
    ensures { (result ≡ width * height) × (result < 65536) × (width < 256) × (height < 256) }
{
    width as usize * height as usize
}

pub fn value_count(j: &JunctionEntry) -> usize
    ensures { (result ≡ value_count j.now) × (result < 65536) × (j.now.width < 256) × (j.now.height < 256) }
{
    map_size(j.width, j.height)
}

// A junction whose heightmap starts at a place.
pub(crate) fn start_at(j: JunctionEntry, start: u32) -> JunctionEntry
    ensures { result ≡ start_at j start }
{
    JunctionEntry {
        heightmap_ptr: start,
        ..j
    }
}

// The links of the node at a place, none where the list ends before it.
pub(crate) fn link_range(nodes: &[NodeEntry], place: usize) -> Range
    ensures { result ≡ link_range nodes.now place }
{
    match nodes.get(place) {
        Some(n) => Range {
            start: n.link_id as usize,
            count: n.link_count as usize,
        },
        None => Range { start: 0, count: 0 },
    }
}

// The values of the junction at a place, likewise.
pub(crate) fn value_range(junctions: &[JunctionEntry], place: usize) -> Range
    ensures { result ≡ value_range junctions.now place }
{
    match junctions.get(place) {
        Some(j) => Range {
            start: j.heightmap_ptr as usize,
            count: value_count(j),
        },
        None => Range { start: 0, count: 0 },
    }
}

// How many of `count` entries from `start` on are among the first `pool`.
pub fn cut(start: usize, count: usize, pool: usize) -> usize
    ensures { result ≡ min count (pool - start) }
{
    count.min(pool.saturating_sub(start))
}

// `count` entries of a pool from `start` on, cut where the pool ends.
pub fn part<T>(pool: &[T], start: usize, count: usize) -> &[T]
    ensures { result.now ≡ take count (drop start pool.now) }
{
    let from = start.min(pool.len());
    &pool[from..from + cut(from, count, pool.len())]
}

// The start that a node with `count` links stores behind `before` links of other nodes (T-05: 0 if it has none).
pub fn stored_start(before: usize, count: usize) -> usize
    ensures { result ≡ stored_start before count }
{
    if count == 0 {
        return 0;
    }
    before
}

// How many of a range are among the first l.
#[tactic(auto, unfolding(crate::specs::Edit::held_in))]
pub(crate) fn held_in(r: Range, l: usize) -> usize
    ensures { result ≡ held_in r l }
{
    cut(r.start, r.count, l)
}
