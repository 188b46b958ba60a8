// Reading a cell from two sections into lent memory.
ghost use Rattle.std.specs.Prelude.{◌≡◌, ◌≤◌, ◌<◌, length, Ok};
ghost use Rattle.cells.specs.Checks.{arrays_check};
ghost use Rattle.cells.specs.Memory.{memory, left};
ghost use Rattle.cells.specs.Read.{cell_read, filled, read_arrays, read_of};

use crate::arrays::{FileBytes, find_arrays};
use crate::checks::{check_arrays, check_sizes};
use crate::counts::{Counts, lengths};
use crate::fill::{fill_ranges, fill_refs};
use crate::junction_entry::JunctionEntry;
use crate::link::PathLink;
use crate::node_entry::NodeEntry;
use crate::root::read_root;
use crate::ynd::Ynd;
use numbers::refusal::Refusal;
use records::junction_ref::NodeJunctionRef;
use records::root::Root;

#[tactic(auto, unfolding(crate::specs::Read::cell_read))]
fn ynd_of(root: Root, k: Counts) -> Ynd
    requires { (k.nodes < 4294967296) × (k.links < 4294967296) × (k.junctions < 4294967296)
        × (k.heights < 4294967296) × (k.refs < 4294967296) }
    ensures { result ≡ cell_read root k }
{
    let unknowns = root.unknowns;
    Ynd {
        vft: root.vft,
        vehicle_node_count: root.vehicle_node_count,
        ped_node_count: root.ped_node_count,
        unknowns,
        node_count: k.nodes as u32,
        link_count: k.links as u32,
        junction_count: k.junctions as u32,
        heightmap_count: k.heights as u32,
        ref_count: k.refs as u32,
    }
}

// Reads what the five arrays hold, of which the counts are known, into lists that have room for it.
#[tactic(auto, using(crate::proofs::Rules::read_laws))]
pub(crate) fn fill_lists(
    root: Root,
    f: FileBytes,
    k: Counts,
    nodes: &mut [NodeEntry],
    links: &mut [PathLink],
    junctions: &mut [JunctionEntry],
    heights: &mut [u8],
    refs: &mut [NodeJunctionRef],
) -> Ynd
    requires counted { arrays_check f.nodes.n.now f.nodes.l.now f.junctions.j.now f.junctions.h.now f.refs.now
        ≡ Ok k }
    requires refs_few { length f.refs.now ≤ 16777216 }
    requires room { (k.nodes ≤ length nodes.old) × (k.links ≤ length links.old)
        × (k.junctions ≤ length junctions.old) × (k.heights ≤ length heights.old) × (k.refs ≤ length refs.old) }
    ensures { (ynd : Ynd) →
        memory result nodes.new links.new junctions.new heights.new refs.new
        ≡ filled root k f.entry.nodes.n.now f.entry.nodes.l.now f.entry.junctions.j.now f.entry.junctions.h.now
        f.entry.refs.now (memory ynd nodes.old links.old junctions.old heights.old refs.old) }
{
    fill_ranges(f.nodes, &mut nodes[..k.nodes], &mut links[..k.links]);
    fill_ranges(
        f.junctions,
        &mut junctions[..k.junctions],
        &mut heights[..k.heights],
    );
    fill_refs(f.refs, &mut refs[..k.refs]);
    ynd_of(root, k)
}

// Reads from the five arrays' bytes.
#[tactic(auto, unfolding(crate::specs::Read::read_arrays))]
fn read_arrays(
    ynd: Ynd,
    root: Root,
    f: FileBytes,
    nodes: &mut [NodeEntry],
    links: &mut [PathLink],
    junctions: &mut [JunctionEntry],
    heights: &mut [u8],
    refs: &mut [NodeJunctionRef],
) -> Result<Ynd, Refusal>
    requires { length f.refs.now ≤ 16777216 }
    ensures { left ynd result nodes.new links.new junctions.new heights.new refs.new
        ≡ read_arrays root f.entry.nodes.n.now f.entry.nodes.l.now f.entry.junctions.j.now
        f.entry.junctions.h.now f.entry.refs.now
        (memory ynd nodes.old links.old junctions.old heights.old refs.old) }
{
    let k = check_arrays(f)?;
    let lent = lengths(nodes, links, junctions, heights, refs);
    lent.hold(k)?;
    Ok(fill_lists(root, f, k, nodes, links, junctions, heights, refs))
}

// Reads a cell from two sections into the memory lent.
#[tactic(auto, using(crate::proofs::Rules::sections_laws), unfolding(crate::specs::Read::read_of))]
pub fn read<'a>(
    ynd: Ynd,
    system: &'a [u8],
    graphics: &'a [u8],
    nodes: &mut [NodeEntry],
    links: &mut [PathLink],
    junctions: &mut [JunctionEntry],
    heights: &mut [u8],
    refs: &mut [NodeJunctionRef],
) -> Result<Ynd, Refusal>
    ensures { left ynd result nodes.new links.new junctions.new heights.new refs.new
        ≡ read_of system.now graphics.now
        (memory ynd nodes.old links.old junctions.old heights.old refs.old) }
{
    check_sizes(system.len(), graphics.len())?;
    let root = read_root(system);
    let a = find_arrays(root, system.len(), graphics.len())?;
    let f = a.bytes(system, graphics);
    read_arrays(ynd, root, f, nodes, links, junctions, heights, refs)
}
