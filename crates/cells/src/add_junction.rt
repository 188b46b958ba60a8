// Adding a junction with its heightmap.
ghost use Rattle.std.specs.Prelude.{◌≡◌, List, ℕ, ◌+◌, ◌<◌, length, OnOk};
ghost use Rattle.cells.specs.Memory.{memory, left, over_limit};
ghost use Rattle.cells.specs.Add.{room_for_junction, JunctionRoom, add_junction};
ghost use Rattle.cells.specs.declared.node_entry.NodeEntry.{NodeEntry};
ghost use Rattle.cells.specs.declared.link.PathLink.{PathLink};
ghost use Rattle.records.specs.declared.junction_ref.NodeJunctionRef.{NodeJunctionRef};

use crate::junction::PathJunction;
use crate::junction_entry::JunctionEntry;
use crate::range::{map_size, start_at};
use crate::replace::put_at;
use crate::room::over_limit;
use crate::ynd::Ynd;
use numbers::refusal::{Lent, Refusal};

#[tactic(auto, using(numbers::proofs::Refusing::tested), unfolding(crate::specs::Add::room_for_junction))]
fn room_for_junction(
    ynd: Ynd,
    junctions: &[JunctionEntry],
    heights: &[u8],
    size: usize,
    v: usize,
) -> Result<(), Refusal>
    requires { ynd.heightmap_count + v < 18446744073709551616 }
    ensures value { result ≡ room_for_junction (over_limit ynd) ynd.junction_count ynd.heightmap_count size v
        (length junctions.now) (length heights.now) }
    ensures room { OnOk result (JunctionRoom ynd.junction_count ynd.heightmap_count size v (length junctions.now)
        (length heights.now)) }
{
    let n = ynd.junction_count as usize;
    let h = ynd.heightmap_count as usize;
    if over_limit(ynd) {
        return Err(Refusal::AtLimit);
    }
    if 4096 <= n {
        return Err(Refusal::AtLimit);
    }
    if 4294967295 < h + v {
        return Err(Refusal::AtLimit);
    }
    if v != size {
        return Err(Refusal::WrongSize);
    }
    if junctions.len() <= n {
        return Err(Refusal::TooShort(Lent::Junctions));
    }
    if heights.len() < h + v {
        return Err(Refusal::TooShort(Lent::Heightmap));
    }
    Ok(())
}

// A junction behind all others, its values behind all others.
#[tactic(auto, using(records::proofs::Puts::put_fits), unfolding(crate::specs::Add::add_junction, crate::specs::Add::with_counts))]
pub fn add_junction(
    ynd: Ynd,
    junctions: &mut [JunctionEntry],
    heights: &mut [u8],
    j: PathJunction,
    values: &[u8],
) -> Result<Ynd, Refusal>
    ensures { (nodes : List NodeEntry) (links : List PathLink) (refs : List NodeJunctionRef) →
        left ynd result nodes links junctions.new heights.new refs
        ≡ add_junction (memory ynd nodes links junctions.old heights.old refs) j values.now }
{
    let n = ynd.junction_count as usize;
    let h = ynd.heightmap_count as usize;
    let size = map_size(j.width, j.height);
    room_for_junction(ynd, junctions, heights, size, values.len())?;
    junctions[n] = start_at(j.into(), h as u32);
    put_at(heights, h, values);
    Ok(Ynd {
        junction_count: (n + 1) as u32,
        heightmap_count: (h + values.len()) as u32,
        ..ynd
    })
}
