// The entry of a lent list that a place names.
ghost use Rattle.std.specs.Prelude.{◌≡◌, not, ◌&&◌, eqb, ltb, leb, IfOk, ◌<◌, length};
ghost use Rattle.cells.specs.Memory.{over_limit};
ghost use Rattle.cells.specs.Edit.{entry_at, node_entry, junction_entry, ref_entry, range_entry, link_entry};
ghost use Rattle.cells.specs.Edit.{sized_entry, height_entry, value_range};

use crate::junction_entry::JunctionEntry;
use crate::node_entry::NodeEntry;
use crate::range::{Range, held_in, link_range, value_range};
use crate::room::over_limit;
use crate::ynd::Ynd;
use numbers::refusal::{Lent, Refusal};
use records::junction_ref::NodeJunctionRef;

// A lent list: how many entries it has by the cell's count, how many are lent, and its name.
#[derive(Clone, Copy)]
struct LentList {
    count: usize,
    len: usize,
    list: Lent,
}

// The entry at a place of a list.
#[tactic(auto, using(numbers::proofs::Refusing::tested), unfolding(crate::specs::Edit::entry_at))]
fn entry_at(ynd: Ynd, held: LentList, place: usize) -> Result<usize, Refusal>
    ensures value { result ≡ entry_at (over_limit ynd) held.count held.len held.list place }
    ensures inside { IfOk result (λ i. i < held.len) }
{
    if held.count <= place {
        return Err(Refusal::NoSuchPlace);
    }
    if over_limit(ynd) {
        return Err(Refusal::AtLimit);
    }
    if held.len < held.count {
        return Err(Refusal::TooShort(held.list));
    }
    Ok(place)
}

// The node, the junction and the ref at a place.
#[tactic(auto, unfolding(crate::specs::Edit::node_entry))]
pub(crate) fn node_entry(ynd: Ynd, nodes: &[NodeEntry], place: usize) -> Result<usize, Refusal>
    ensures value { result ≡ node_entry ynd nodes.now place }
    ensures inside { IfOk result (λ i. i < length nodes.now) }
{
    let held = LentList {
        count: ynd.node_count as usize,
        len: nodes.len(),
        list: Lent::Nodes,
    };
    entry_at(ynd, held, place)
}

#[tactic(auto, unfolding(crate::specs::Edit::junction_entry))]
pub fn junction_entry(ynd: Ynd, junctions: &[JunctionEntry], place: usize) -> Result<usize, Refusal>
    ensures value { result ≡ junction_entry ynd junctions.now place }
    ensures inside { IfOk result (λ i. i < length junctions.now) }
{
    let held = LentList {
        count: ynd.junction_count as usize,
        len: junctions.len(),
        list: Lent::Junctions,
    };
    entry_at(ynd, held, place)
}

#[tactic(auto, unfolding(crate::specs::Edit::ref_entry))]
pub(crate) fn ref_entry(ynd: Ynd, refs: &[NodeJunctionRef], place: usize) -> Result<usize, Refusal>
    ensures value { result ≡ ref_entry ynd refs.now place }
    ensures inside { IfOk result (λ i. i < length refs.now) }
{
    let held = LentList {
        count: ynd.ref_count as usize,
        len: refs.len(),
        list: Lent::Refs,
    };
    entry_at(ynd, held, place)
}

// Whether the place is lent, and its range has no entry k.
fn none_there(place: usize, len: usize, held: usize, k: usize) -> bool
    ensures { result ≡ (ltb place len && leb held k) }
{
    place < len && held <= k
}

// Whether the place is lent, and has another number of values.
fn resized(place: usize, len: usize, values: usize, held: usize) -> bool
    ensures { result ≡ (ltb place len && not (eqb values held)) }
{
    place < len && values != held
}

// Entry k of a range that belongs to a place of a list and lies in a pool.
#[tactic(auto, using(crate::proofs::Rules::range_laws), unfolding(crate::specs::Edit::range_entry))]
fn range_entry(
    ynd: Ynd,
    held: LentList,
    pool: LentList,
    place: usize,
    r: Range,
    k: usize,
) -> Result<usize, Refusal>
    ensures value { result ≡ range_entry (over_limit ynd) held.count held.len held.list pool.count pool.len
        pool.list place r k }
    ensures inside { IfOk result (λ i. i < pool.len) }
{
    if held.count <= place {
        return Err(Refusal::NoSuchPlace);
    }
    if none_there(place, held.len, held_in(r, pool.count), k) {
        return Err(Refusal::NoSuchPlace);
    }
    if over_limit(ynd) {
        return Err(Refusal::AtLimit);
    }
    if held.len < held.count {
        return Err(Refusal::TooShort(held.list));
    }
    if pool.len < pool.count {
        return Err(Refusal::TooShort(pool.list));
    }
    Ok(r.start + k)
}

// Link k of the node at a place.
#[tactic(auto, unfolding(crate::specs::Edit::link_entry))]
pub(crate) fn link_entry(
    ynd: Ynd,
    nodes: &[NodeEntry],
    links: usize,
    place: usize,
    k: usize,
) -> Result<usize, Refusal>
    ensures value { result ≡ link_entry ynd nodes.now links place k }
    ensures inside { IfOk result (λ i. i < links) }
{
    let held = LentList {
        count: ynd.node_count as usize,
        len: nodes.len(),
        list: Lent::Nodes,
    };
    let pool = LentList {
        count: ynd.link_count as usize,
        len: links,
        list: Lent::Links,
    };
    range_entry(ynd, held, pool, place, link_range(nodes, place), k)
}

// Value k of the junction at a place.
#[tactic(auto, unfolding(crate::specs::Edit::height_entry))]
pub(crate) fn height_entry(
    ynd: Ynd,
    junctions: &[JunctionEntry],
    heights: usize,
    place: usize,
    k: usize,
) -> Result<usize, Refusal>
    ensures value { result ≡ height_entry ynd junctions.now heights place k }
    ensures inside { IfOk result (λ i. i < heights) }
{
    let held = LentList {
        count: ynd.junction_count as usize,
        len: junctions.len(),
        list: Lent::Junctions,
    };
    let pool = LentList {
        count: ynd.heightmap_count as usize,
        len: heights,
        list: Lent::Heightmap,
    };
    range_entry(ynd, held, pool, place, value_range(junctions, place), k)
}

// The junction at a place, which has as many values.
#[tactic(auto, using(numbers::proofs::Refusing::tested), unfolding(crate::specs::Edit::sized_entry))]
pub(crate) fn sized_entry(
    ynd: Ynd,
    junctions: &[JunctionEntry],
    place: usize,
    values: usize,
) -> Result<usize, Refusal>
    ensures value { result ≡ sized_entry (over_limit ynd) ynd.junction_count (length junctions.now) place values
        (value_range junctions.now place).count }
    ensures inside { IfOk result (λ i. i < length junctions.now) }
{
    let n = ynd.junction_count as usize;
    if n <= place {
        return Err(Refusal::NoSuchPlace);
    }
    if over_limit(ynd) {
        return Err(Refusal::AtLimit);
    }
    if resized(
        place,
        junctions.len(),
        values,
        value_range(junctions, place).count,
    ) {
        return Err(Refusal::WrongSize);
    }
    if junctions.len() < n {
        return Err(Refusal::TooShort(Lent::Junctions));
    }
    Ok(place)
}
