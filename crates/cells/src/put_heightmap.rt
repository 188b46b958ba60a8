// A junction's heightmap, replaced by one of any size.
ghost use Rattle.std.specs.Prelude.{◌≡◌, List, [], ℕ, ◌+◌, ◌<◌, ◌≤◌, length, get_or, set, OnOk};
ghost use Rattle.records.specs.Put.{put};
ghost use Rattle.cells.specs.Memory.{memory, left, over_limit};
ghost use Rattle.cells.specs.PutHeightmap.{room_for_map, MapRoom, put_heightmap};
ghost use Rattle.cells.specs.declared.node_entry.NodeEntry.{NodeEntry};
ghost use Rattle.cells.specs.declared.link.PathLink.{PathLink};
ghost use Rattle.records.specs.declared.junction_ref.NodeJunctionRef.{NodeJunctionRef};

use crate::junction_entry::JunctionEntry;
use crate::range::{map_size, value_range};
use crate::replace::{Placed, placing, put_at};
use crate::room::over_limit;
use crate::ynd::Ynd;
use numbers::refusal::{Lent, Refusal};

#[tactic(auto, using(numbers::proofs::Refusing::tested), unfolding(crate::specs::PutHeightmap::room_for_map))]
fn room_for_map(
    ynd: Ynd,
    junctions: &[JunctionEntry],
    heights: &[u8],
    p: usize,
    to: Placed,
    size: usize,
) -> Result<(), Refusal>
    ensures value { result ≡ room_for_map (over_limit ynd) ynd.junction_count p to.count size to.after
        (length junctions.now) (length heights.now) }
    ensures room { OnOk result (MapRoom ynd.junction_count p to.count size to.after (length junctions.now)
        (length heights.now)) }
{
    let n = ynd.junction_count as usize;
    if n <= p {
        return Err(Refusal::NoSuchPlace);
    }
    if over_limit(ynd) {
        return Err(Refusal::AtLimit);
    }
    if 4294967295 < to.after {
        return Err(Refusal::AtLimit);
    }
    if to.count != size {
        return Err(Refusal::WrongSize);
    }
    if junctions.len() < n {
        return Err(Refusal::TooShort(Lent::Junctions));
    }
    if heights.len() < to.after {
        return Err(Refusal::TooShort(Lent::Heightmap));
    }
    Ok(())
}

// The heightmap of the junction at a place is the new one.
#[tactic(auto, using(records::proofs::Puts::put_fits), unfolding(crate::specs::PutHeightmap::put_heightmap, crate::specs::Add::with_counts))]
pub fn put_heightmap(
    ynd: Ynd,
    junctions: &mut [JunctionEntry],
    heights: &mut [u8],
    place: usize,
    width: u8,
    height: u8,
    values: &[u8],
) -> Result<Ynd, Refusal>
    ensures { (nodes : List NodeEntry) (links : List PathLink) (refs : List NodeJunctionRef) →
        left ynd result nodes links junctions.new heights.new refs
        ≡ put_heightmap (memory ynd nodes links junctions.old heights.old refs) place
        width height values.now }
{
    let r = value_range(junctions, place);
    let to = placing(r, values.len(), ynd.heightmap_count as usize);
    room_for_map(ynd, junctions, heights, place, to, map_size(width, height))?;
    junctions[place] = JunctionEntry {
        width,
        height,
        heightmap_ptr: to.start as u32,
        ..junctions[place]
    };
    put_at(heights, to.start, values);
    Ok(Ynd {
        heightmap_count: to.after as u32,
        ..ynd
    })
}
