// The cell's own words stored, lists cut off at the end, all links of a node and a heightmap replaced.
ghost use Rattle.std.specs.Prelude.{◌≡◌, List, ℕ};
ghost use Rattle.cells.specs.OwnWords.{with_vft, with_vehicles, with_peds, with_unknowns};
ghost use Rattle.cells.specs.Truncate.{truncate_nodes, truncate_junctions, truncate_refs};
ghost use Rattle.cells.specs.PutLinks.{put_links};
ghost use Rattle.cells.specs.PutHeightmap.{put_heightmap};
ghost use Rattle.exports.specs.Cells.{called, call_of};
ghost use Rattle.cells.specs.declared.node_entry.NodeEntry.{NodeEntry};
ghost use Rattle.cells.specs.declared.link.PathLink.{PathLink};
ghost use Rattle.cells.specs.declared.junction_entry.JunctionEntry.{JunctionEntry};
ghost use Rattle.records.specs.declared.junction_ref.NodeJunctionRef.{NodeJunctionRef};
ghost use Rattle.cells.specs.Memory.{memory};

use crate::answers::tell_ynd;
use cells::junction_entry::JunctionEntry;
use cells::link::PathLink;
use cells::node_entry::NodeEntry;
use cells::ynd::Ynd;

#[unsafe(no_mangle)]
pub extern "C" fn ynd_set_vft(ynd: &mut Ynd, vft: u32)
    ensures { ynd.new ≡ with_vft ynd.old vft }
{
    *ynd = ynd.set_vft(vft);
}

#[unsafe(no_mangle)]
pub extern "C" fn ynd_set_vehicle_node_count(ynd: &mut Ynd, count: u32)
    ensures { ynd.new ≡ with_vehicles ynd.old count }
{
    *ynd = ynd.set_vehicle_node_count(count);
}

#[unsafe(no_mangle)]
pub extern "C" fn ynd_set_ped_node_count(ynd: &mut Ynd, count: u32)
    ensures { ynd.new ≡ with_peds ynd.old count }
{
    *ynd = ynd.set_ped_node_count(count);
}

#[unsafe(no_mangle)]
pub extern "C" fn ynd_set_unknowns(ynd: &mut Ynd, unknowns: &[u32; 7])
    ensures { ynd.new ≡ with_unknowns ynd.old unknowns.now }
{
    *ynd = ynd.set_unknowns(*unknowns);
}

// The first `count` nodes stay.
#[unsafe(no_mangle)]
pub extern "C" fn ynd_truncate_nodes(ynd: &mut Ynd, count: usize, place: &mut usize) -> u32
    ensures { (nodes : List NodeEntry) (links : List PathLink) (junctions : List JunctionEntry)
        (refs : List NodeJunctionRef) (heights : List ℕ) →
        called result place.new ynd.new nodes links junctions heights refs
        ≡ call_of
        (truncate_nodes (memory ynd.old nodes links junctions heights refs) count) }
{
    let r = cells::truncate::truncate_nodes(*ynd, count);
    tell_ynd(r, ynd, place)
}

// The first `count` junctions stay.
#[unsafe(no_mangle)]
pub extern "C" fn ynd_truncate_junctions(ynd: &mut Ynd, count: usize, place: &mut usize) -> u32
    ensures { (nodes : List NodeEntry) (links : List PathLink) (junctions : List JunctionEntry)
        (refs : List NodeJunctionRef) (heights : List ℕ) →
        called result place.new ynd.new nodes links junctions heights refs
        ≡ call_of
        (truncate_junctions (memory ynd.old nodes links junctions heights refs) count) }
{
    let r = cells::truncate::truncate_junctions(*ynd, count);
    tell_ynd(r, ynd, place)
}

// The first `count` refs stay.
#[unsafe(no_mangle)]
pub extern "C" fn ynd_truncate_refs(ynd: &mut Ynd, count: usize, place: &mut usize) -> u32
    ensures { (nodes : List NodeEntry) (links : List PathLink) (junctions : List JunctionEntry)
        (refs : List NodeJunctionRef) (heights : List ℕ) →
        called result place.new ynd.new nodes links junctions heights refs
        ≡ call_of
        (truncate_refs (memory ynd.old nodes links junctions heights refs) count) }
{
    let r = cells::truncate::truncate_refs(*ynd, count);
    tell_ynd(r, ynd, place)
}

// The links of the node at a place are the given ones.
#[unsafe(no_mangle)]
pub extern "C" fn ynd_put_links(
    ynd: &mut Ynd,
    nodes: &mut [NodeEntry],
    links: &mut [PathLink],
    at: usize,
    given: &[PathLink],
    place: &mut usize,
) -> u32
    ensures { (junctions : List JunctionEntry) (refs : List NodeJunctionRef) (heights : List ℕ) →
        called result place.new ynd.new nodes.new links.new junctions heights refs
        ≡ call_of
        (put_links (memory ynd.old nodes.old links.old junctions heights refs) at
        given.now) }
{
    let r = cells::put_links::put_links(*ynd, nodes, links, at, given);
    tell_ynd(r, ynd, place)
}

// The heightmap of the junction at a place is the given one.
#[unsafe(no_mangle)]
pub extern "C" fn ynd_put_heightmap(
    ynd: &mut Ynd,
    junctions: &mut [JunctionEntry],
    heights: &mut [u8],
    at: usize,
    width: u8,
    height: u8,
    values: &[u8],
    place: &mut usize,
) -> u32
    ensures { (nodes : List NodeEntry) (links : List PathLink) (refs : List NodeJunctionRef) →
        called result place.new ynd.new nodes links junctions.new heights.new refs
        ≡ call_of
        (put_heightmap (memory ynd.old nodes links junctions.old heights.old refs) at
        width height values.now) }
{
    let r = cells::put_heightmap::put_heightmap(
        *ynd, junctions, heights, at, width, height, values,
    );
    tell_ynd(r, ynd, place)
}
