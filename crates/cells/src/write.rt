// Writing a cell into a lent section.
ghost use Rattle.std.specs.Prelude.{◌≡◌, ◌+◌, ◌<◌, ◌≤◌, ℕ, Ok, [], length, take};
ghost use Rattle.records.specs.Put.{put};
ghost use Rattle.records.specs.Layout.{sizes, places_of, header_size, lay};
ghost use Rattle.cells.specs.Memory.{Memory, memory};
ghost use Rattle.cells.specs.Held.{memory_of};
ghost use Rattle.cells.specs.Blocks.{blocks};
ghost use Rattle.cells.specs.Write.{held, left, stored, write_call};
ghost use Rattle.cells.specs.WriteCounts.{Counted};
ghost use Rattle.cells.specs.Read.{read_of};
ghost use Rattle.cells.specs.BackCheck.{back_tests, held_counts, lengths as lengths_of};

use crate::blocks::{pad, put_heights, put_junctions, put_links, put_nodes, put_records};
use crate::counts::{Counts, lengths};
use crate::held::Held;
use crate::junction_entry::JunctionEntry;
use crate::link::PathLink;
use crate::node_entry::NodeEntry;
use crate::room::check_lent;
use crate::write_checks::write_counts;
use crate::ynd::Ynd;
use numbers::refusal::{Lent, Refusal};
use records::junction_ref::{NodeJunctionRef, ref_bytes};
use records::layout::{
    Blocks, HEADER_SIZE, JUNCTION_SIZE, LINK_SIZE, NODE_SIZE, Places, REF_SIZE, lay_out, put_header,
};
use records::root::Root;

// Where so many entries are written.
pub(crate) fn places_for(k: Counts) -> Places
    requires { (k.nodes < 4294967296) × (k.links < 4294967296) × (k.junctions < 4294967296)
        × (k.heights < 4294967296) × (k.refs < 4294967296) }
    ensures { result ≡ places_of (sizes k.refs k.heights k.junctions k.links k.nodes) }
{
    lay_out(Blocks {
        refs: k.refs as u32,
        heightmap: k.heights as u32,
        junctions: k.junctions as u32,
        links: k.links as u32,
        nodes: k.nodes as u32,
    })
}

fn root_for(ynd: Ynd, k: Counts, places: Places) -> Root
    requires { (k.nodes < 4294967296) × (k.links < 4294967296) × (k.junctions < 4294967296)
        × (k.heights < 4294967296) × (k.refs < 65536) }
    ensures { result ≡ record {
      vft = ynd.vft;
      nodes = places.nodes;
      node_count = k.nodes;
      vehicle_node_count = ynd.vehicle_node_count;
      ped_node_count = ynd.ped_node_count;
      links = places.links;
      link_count = k.links;
      junctions = places.junctions;
      heightmap = places.heightmap;
      refs = places.refs;
      ref_count = k.refs;
      junction_count = k.junctions;
      heightmap_count = k.heights;
      unknowns = ynd.unknowns;
    } }
{
    let unknowns = ynd.unknowns;
    Root {
        vft: ynd.vft,
        nodes: places.nodes,
        node_count: k.nodes as u32,
        vehicle_node_count: ynd.vehicle_node_count,
        ped_node_count: ynd.ped_node_count,
        links: places.links,
        link_count: k.links as u32,
        junctions: places.junctions,
        heightmap: places.heightmap,
        refs: places.refs,
        ref_count: k.refs as u16,
        junction_count: k.junctions as u32,
        heightmap_count: k.heights as u32,
        unknowns,
    }
}

// The five arrays behind the header, where the section has room.
#[tactic(auto, using(crate::proofs::Rules::arrays_laws), unfolding(crate::specs::Blocks::arrays))]
fn put_arrays(section: &mut [u8], h: Held, k: Counts)
    requires room { header_size + length (lay header_size (blocks (memory_of h))) ≤ length section.old }
    requires ready { Counted (memory_of h) k }
    ensures { section.new ≡ put section.old header_size (lay header_size (blocks (memory_of h.entry))) }
{
    let a = pad(section, HEADER_SIZE, REF_SIZE * k.refs);
    let a = put_records(section, a, h.refs, ref_bytes);
    let b = pad(section, a, k.heights);
    let b = put_heights(section, b, h.junctions, h.heights);
    let c = pad(section, b, JUNCTION_SIZE * k.junctions);
    let c = put_junctions(section, c, h.junctions, h.heights);
    let d = pad(section, c, LINK_SIZE * k.links);
    let d = put_links(section, d, h.nodes, h.links);
    let e = pad(section, d, NODE_SIZE * k.nodes);
    put_nodes(section, e, h.nodes, h.links);
}

// The section if it has room; so much is written.
#[tactic(auto, using(crate::proofs::Rules::store_laws), unfolding(crate::specs::Write::stored))]
pub(crate) fn store(h: Held, k: Counts, section: &mut [u8]) -> Result<usize, Refusal>
    requires { Counted (memory_of h) k }
    ensures { left result section.new ≡ stored (memory_of h.entry) section.old }
{
    let places = places_for(k);
    if section.len() < places.total {
        return Err(Refusal::TooShort(Lent::Section));
    }
    put_header(section, root_for(h.ynd, k, places))?;
    put_arrays(section, h, k);
    Ok(places.total)
}

// Writes the cell that stands in the lists lent. What is written is never refused on reading, whatever memory is lent
// for it, but for lists that are too short.
#[tactic(auto, using(crate::proofs::Rules::write_laws, crate::proofs::WritingBack::BackCheck::read_after_write), unfolding(crate::specs::Write::write_call))]
pub fn write(
    ynd: Ynd,
    nodes: &[NodeEntry],
    links: &[PathLink],
    junctions: &[JunctionEntry],
    heights: &[u8],
    refs: &[NodeJunctionRef],
    section: &mut [u8],
) -> Result<usize, Refusal>
    ensures written { left result section.new
        ≡ write_call (memory ynd nodes.now links.now junctions.now heights.now refs.now) section.old }
    ensures reads_back { (n : ℕ) (lent : Memory) → result ≡ Ok n
        → (read_of (take n section.new) [] lent).answer
        ≡ back_tests (held_counts (held (memory ynd nodes.now links.now junctions.now heights.now refs.now)))
        (lengths_of lent) }
{
    let h = Held::new(ynd, nodes, links, junctions, heights, refs);
    let k = write_counts(h)?;
    check_lent(ynd, lengths(nodes, links, junctions, heights, refs))?;
    store(h, k, section)
}
