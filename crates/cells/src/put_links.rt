// All links of a node, replaced.
ghost use Rattle.std.specs.Prelude.{◌≡◌, List, [], ℕ, ◌+◌, ◌<◌, ◌≤◌, length, get_or, set, OnOk};
ghost use Rattle.records.specs.Put.{put};
ghost use Rattle.cells.specs.Memory.{memory, left, over_limit};
ghost use Rattle.cells.specs.Nodes.{no_entry};
ghost use Rattle.cells.specs.EntryForms.{with_range};
ghost use Rattle.cells.specs.PutLinks.{room_for_links, LinksRoom, put_links};
ghost use Rattle.cells.specs.declared.junction_entry.JunctionEntry.{JunctionEntry};
ghost use Rattle.records.specs.declared.junction_ref.NodeJunctionRef.{NodeJunctionRef};

use crate::link::PathLink;
use crate::node_entry::NodeEntry;
use crate::range::link_range;
use crate::replace::{Placed, placing, put_at};
use crate::room::over_limit;
use crate::ynd::Ynd;
use numbers::refusal::{Lent, Refusal};

#[tactic(auto, using(numbers::proofs::Refusing::tested), unfolding(crate::specs::PutLinks::room_for_links))]
fn room_for_links(
    ynd: Ynd,
    nodes: &[NodeEntry],
    links: &[PathLink],
    p: usize,
    to: Placed,
) -> Result<(), Refusal>
    ensures value { result ≡ room_for_links (over_limit ynd) ynd.node_count p to.count to.after (length nodes.now)
        (length links.now) }
    ensures room { OnOk result (LinksRoom ynd.node_count p to.count to.after (length nodes.now) (length links.now)) }
{
    let n = ynd.node_count as usize;
    if n <= p {
        return Err(Refusal::NoSuchPlace);
    }
    if over_limit(ynd) {
        return Err(Refusal::AtLimit);
    }
    if 255 < to.count {
        return Err(Refusal::AtLimit);
    }
    if 4294967295 < to.after {
        return Err(Refusal::AtLimit);
    }
    if nodes.len() < n {
        return Err(Refusal::TooShort(Lent::Nodes));
    }
    if links.len() < to.after {
        return Err(Refusal::TooShort(Lent::Links));
    }
    Ok(())
}

// The links of the node at p from `at` on are the new ones.
#[tactic(auto, using(records::proofs::Puts::put_fits))]
fn place_links(
    nodes: &mut [NodeEntry],
    links: &mut [PathLink],
    p: usize,
    at: usize,
    new: &[PathLink],
)
    requires { (p < length nodes.old) × (at < 4294967296) × (length new.now ≤ 255)
        × (at + length new.now ≤ length links.old) }
    ensures { (nodes.new
        ≡ set nodes.old p (with_range (get_or nodes.old p no_entry) at (length new.now)))
        × (links.new ≡ put links.old at new.now) }
{
    let node = &mut nodes[p];
    node.link_id = at as u32;
    node.link_count = new.len() as u8;
    put_at(links, at, new);
}

// The links of the node at a place are the new ones, in their order.
#[tactic(auto, unfolding(crate::specs::PutLinks::put_links, crate::specs::Add::with_counts))]
pub fn put_links(
    ynd: Ynd,
    nodes: &mut [NodeEntry],
    links: &mut [PathLink],
    place: usize,
    new: &[PathLink],
) -> Result<Ynd, Refusal>
    ensures { (junctions : List JunctionEntry) (refs : List NodeJunctionRef) (heights : List ℕ) →
        left ynd result nodes.new links.new junctions heights refs
        ≡ put_links (memory ynd nodes.old links.old junctions heights refs) place
        new.now }
{
    let to = placing(link_range(nodes, place), new.len(), ynd.link_count as usize);
    room_for_links(ynd, nodes, links, place, to)?;
    place_links(nodes, links, place, to.start, new);
    Ok(Ynd {
        link_count: to.after as u32,
        ..ynd
    })
}
