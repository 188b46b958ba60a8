// Adding a link.
ghost use Rattle.std.specs.Prelude.{◌≡◌, List, ℕ, ◌+◌, ◌<◌, ◌≤◌, length, OnOk};
ghost use Rattle.cells.specs.Memory.{memory, left, over_limit};
ghost use Rattle.cells.specs.AddLink.{held_at, behind, at_in, inserted, nodes_after, room_for_link, add_link};
ghost use Rattle.cells.specs.AddLink.{LinkRoom};
ghost use Rattle.cells.specs.declared.junction_entry.JunctionEntry.{JunctionEntry};
ghost use Rattle.records.specs.declared.junction_ref.NodeJunctionRef.{NodeJunctionRef};

use crate::link::PathLink;
use crate::node_entry::NodeEntry;
use crate::range::{held_in, link_range};
use crate::room::over_limit;
use crate::shift::shift_all;
use crate::ynd::Ynd;
use numbers::refusal::{Lent, Refusal};

// Where the new link goes.
#[tactic(auto, using(crate::proofs::Rules::zero_tests), unfolding(crate::specs::AddLink::behind))]
fn behind_of(s: usize, e: usize, l: usize) -> usize
    requires { s + e < 18446744073709551616 }
    ensures { result ≡ behind s e l }
{
    if e == 0 {
        return l;
    }
    s + e
}

// The entries from `at` to l move up by one.
#[tactic(auto, using(crate::proofs::Editing::Inserted::insert_moved))]
fn insert(links: &mut [PathLink], at: usize, l: usize, link: PathLink)
    requires { (at ≤ l) × (l < length links.old) }
    ensures { links.new ≡ inserted at l link links.old }
{
    links.copy_within(at..l, at + 1);
    links[at] = link;
}

// The link put in behind the e links of its node, and the ranges moved.
#[tactic(auto, using(crate::proofs::Rules::behind_laws), unfolding(crate::specs::AddLink::nodes_after))]
fn place_link(
    ynd: Ynd,
    nodes: &mut [NodeEntry],
    links: &mut [PathLink],
    p: usize,
    e: usize,
    link: PathLink,
)
    requires { LinkRoom ynd.node_count ynd.link_count p e (length nodes.old) (length links.old)
        × (e ≡ held_at nodes.old p ynd.link_count) }
    ensures { (nodes.new ≡ nodes_after ynd.node_count ynd.link_count p nodes.old)
        × (links.new ≡ inserted (at_in nodes.old p ynd.link_count) ynd.link_count link links.old) }
{
    let l = ynd.link_count as usize;
    let old = nodes[p];
    let at = behind_of(old.link_id as usize, e, l);
    shift_all(&mut nodes[..ynd.node_count as usize], at, l);
    nodes[p] = NodeEntry {
        link_id: (at - e) as u32,
        link_count: (e + 1) as u8,
        ..old
    };
    insert(links, at, l, link);
}

#[tactic(auto, using(numbers::proofs::Refusing::tested), unfolding(crate::specs::AddLink::room_for_link))]
fn room_for_link(
    ynd: Ynd,
    nodes: &[NodeEntry],
    links: &[PathLink],
    p: usize,
    e: usize,
) -> Result<(), Refusal>
    ensures value { result ≡ room_for_link (over_limit ynd) ynd.node_count ynd.link_count p e (length nodes.now)
        (length links.now) }
    ensures room { OnOk result (LinkRoom ynd.node_count ynd.link_count p e (length nodes.now) (length links.now)) }
{
    let n = ynd.node_count as usize;
    let l = ynd.link_count as usize;
    if n <= p {
        return Err(Refusal::NoSuchPlace);
    }
    if over_limit(ynd) {
        return Err(Refusal::AtLimit);
    }
    if 4294967295 <= l {
        return Err(Refusal::AtLimit);
    }
    if 255 <= e {
        return Err(Refusal::AtLimit);
    }
    if nodes.len() < n {
        return Err(Refusal::TooShort(Lent::Nodes));
    }
    if links.len() <= l {
        return Err(Refusal::TooShort(Lent::Links));
    }
    Ok(())
}

// A link behind those of the node at a place.
#[tactic(auto, unfolding(crate::specs::AddLink::add_link, crate::specs::Add::with_counts))]
pub fn add_link(
    ynd: Ynd,
    nodes: &mut [NodeEntry],
    links: &mut [PathLink],
    place: usize,
    link: PathLink,
) -> Result<Ynd, Refusal>
    ensures { (junctions : List JunctionEntry) (refs : List NodeJunctionRef) (heights : List ℕ) →
        left ynd result nodes.new links.new junctions heights refs
        ≡ add_link (memory ynd nodes.old links.old junctions heights refs) place link }
{
    let e = held_in(link_range(nodes, place), ynd.link_count as usize);
    room_for_link(ynd, nodes, links, place, e)?;
    place_link(ynd, nodes, links, place, e, link);
    Ok(Ynd {
        link_count: ynd.link_count + 1,
        ..ynd
    })
}
