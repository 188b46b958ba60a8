// What a walk shows: of a node, of a junction with its heightmap values, of the link chosen.
ghost use Rattle.std.specs.Prelude.{◌≡◌, List, ℕ, ◌<◌, ◌≤◌, length};
ghost use Rattle.cells.specs.Memory.{memory};
ghost use Rattle.cells.specs.CellOf.{junction_with};
ghost use Rattle.cells.specs.declared.node_entry.NodeEntry.{NodeEntry};
ghost use Rattle.cells.specs.declared.link.PathLink.{PathLink};
ghost use Rattle.records.specs.declared.junction_ref.NodeJunctionRef.{NodeJunctionRef};
ghost use Rattle.walks.specs.Shown.{shown_node, seen_junction, shown_junction, values_at, values_left, shown_values};
ghost use Rattle.walks.specs.Shown.{shown_link};
ghost use Rattle.walks.specs.Walk.{seen_link};
ghost use Rattle.walks.specs.ShownParts.{seen_of};

use crate::part::link_at;
use crate::place::check_place;
use cells::entry::junction_entry;
use cells::junction_entry::JunctionEntry;
use cells::link::PathLink;
use cells::lookup::junction_of;
use cells::node_entry::NodeEntry;
use cells::range::{cut, part, value_count};
use cells::replace::put_at;
use cells::room::over_limit;
use cells::ynd::Ynd;
use numbers::refusal::{Lent, Refusal};
use records::junction_ref::NodeJunctionRef;

// `node` is the node's entry with number and range of links left blank, so that a field is shown unless it is hidden
// here; `junction` is the place of the node's junction.
#[derive(Clone, Copy)]
pub struct SeenNode {
    pub node: NodeEntry,
    pub link_count: usize,
    pub junction: Option<usize>,
}

// Corner and heights by their bits.
#[derive(Clone, Copy)]
pub struct SeenJunction {
    pub x: u32,
    pub y: u32,
    pub min_z: u32,
    pub max_z: u32,
    pub width: u8,
    pub height: u8,
}

#[derive(Clone, Copy)]
pub struct SeenLink {
    pub flags0: u8,
    pub flags1: u8,
    pub flags2: u8,
    pub length: u8,
}

#[tactic(auto, unfolding(crate::specs::ShownParts::seen_of))]
fn seen_of(n: &NodeEntry, count: usize, junction: Option<usize>) -> SeenNode
    ensures { result ≡ seen_of n.now count junction }
{
    SeenNode {
        node: NodeEntry {
            node_id: 0,
            link_count: 0,
            zero: 0,
            link_id: 0,
            zeros: 0,
            ..*n
        },
        link_count: count,
        junction,
    }
}

// What the node at a place shows, whatever the heights.
#[tactic(auto, using(crate::proofs::ShownLaws::node_answered), unfolding(crate::specs::Shown::shown_node, crate::specs::PlaceCauses::place_causes, cells::specs::LookupCall::junction_of_call, cells::specs::Memory::nodes_causes))]
pub fn shown_node(
    ynd: Ynd,
    nodes: &[NodeEntry],
    links: &[PathLink],
    junctions: &[JunctionEntry],
    refs: &[NodeJunctionRef],
    place: usize,
) -> Result<SeenNode, Refusal>
    ensures { (heights : List ℕ) → result
        ≡ shown_node (memory ynd nodes.now links.now junctions.now heights refs.now) place }
{
    check_place(ynd, nodes.len(), links.len(), place)?;
    if junctions.len() < ynd.junction_count as usize {
        return Err(Refusal::TooShort(Lent::Junctions));
    }
    if refs.len() < ynd.ref_count as usize {
        return Err(Refusal::TooShort(Lent::Refs));
    }
    let n = &nodes[place];
    let count = cut(
        n.link_id as usize,
        n.link_count as usize,
        ynd.link_count as usize,
    );
    let junction = junction_of(ynd, nodes, refs, n.area_id, n.node_id)?;
    Ok(seen_of(n, count, junction))
}

impl From<JunctionEntry> for SeenJunction {
    ghost from_gives = { λ j s. (heights : List ℕ) → s ≡ seen_junction (junction_with heights j) };

    fn from(j: JunctionEntry) -> SeenJunction {
        SeenJunction {
            x: j.x,
            y: j.y,
            min_z: j.min_z,
            max_z: j.max_z,
            width: j.width,
            height: j.height,
        }
    }
}

// The junction at a place, whatever the other lists. Its values are those of `shown_values`.
#[tactic(auto, unfolding(crate::specs::Shown::shown_junction))]
pub fn shown_junction(
    ynd: Ynd,
    junctions: &[JunctionEntry],
    place: usize,
) -> Result<SeenJunction, Refusal>
    ensures { (nodes : List NodeEntry) (links : List PathLink) (heights : List ℕ) (refs : List NodeJunctionRef)
        → result
        ≡ shown_junction (memory ynd nodes links junctions.now heights refs) place }
{
    let place = junction_entry(ynd, junctions, place)?;
    Ok(SeenJunction::from(junctions[place]))
}

// The heightmap values of the junction at a place.
fn values_at<'a>(ynd: Ynd, junctions: &[JunctionEntry], heights: &'a [u8], place: usize) -> &'a [u8]
    requires { (place < ynd.junction_count) × (place < length junctions.now)
        × (ynd.heightmap_count ≤ length heights.now) }
    ensures { (nodes : List NodeEntry) (links : List PathLink) (refs : List NodeJunctionRef) → result.now
        ≡ values_at (memory ynd nodes links junctions.now heights.now refs) place }
{
    let j = &junctions[place];
    let held = &heights[..ynd.heightmap_count as usize];
    part(held, j.heightmap_ptr as usize, value_count(j))
}

// The heightmap values of the junction at a place, copied to the front of `values`, whatever the lists that are not
// lent.
#[tactic(auto, using(cells::proofs::Editing::EditLaws::entry_held, records::proofs::Puts::put_fits), unfolding(crate::specs::Shown::shown_values))]
pub fn shown_values(
    ynd: Ynd,
    junctions: &[JunctionEntry],
    heights: &[u8],
    place: usize,
    values: &mut [u8],
) -> Result<usize, Refusal>
    ensures { (nodes : List NodeEntry) (links : List PathLink) (refs : List NodeJunctionRef)
        → values_left result values.new
        ≡ shown_values (memory ynd nodes links junctions.now heights.now refs) place values.old }
{
    let place = junction_entry(ynd, junctions, place)?;
    if heights.len() < ynd.heightmap_count as usize {
        return Err(Refusal::TooShort(Lent::Heightmap));
    }
    let v = values_at(ynd, junctions, heights, place);
    if values.len() < v.len() {
        return Err(Refusal::TooShort(Lent::Heightmap));
    }
    put_at(values, 0, v);
    Ok(v.len())
}

impl From<PathLink> for SeenLink {
    ghost from_gives = { λ l s. s ≡ seen_link l };

    fn from(l: PathLink) -> SeenLink {
        SeenLink {
            flags0: l.flags0,
            flags1: l.flags1,
            flags2: l.flags2,
            length: l.length,
        }
    }
}

// The link that a byte chooses at a place, whatever the lists that are not lent.
#[tactic(auto, using(crate::proofs::ShownLaws::link_cases), unfolding(crate::specs::Shown::shown_link, crate::specs::PlaceCauses::place_causes))]
pub fn shown_link(
    ynd: Ynd,
    nodes: &[NodeEntry],
    links: &[PathLink],
    place: usize,
    choice: u8,
) -> Result<Option<SeenLink>, Refusal>
    ensures { (junctions : List JunctionEntry) (heights : List ℕ) (refs : List NodeJunctionRef) → result
        ≡ shown_link (memory ynd nodes.now links.now junctions heights refs) place choice }
{
    check_place(ynd, nodes.len(), links.len(), place)?;
    let held = &links[..ynd.link_count as usize];
    Ok(link_at(nodes, held, place, choice).map(SeenLink::from))
}
