// The grid of cells (docs/FORMAT.md, "Grid and file names"): 32 by 32 cells of 512 metres from (-8192, -8192). A cell's
// area is y * 32 + x.
ghost use Rattle.std.specs.Prelude.{◌≡◌, ◌≤◌};
ghost use Rattle.numbers.specs.Grid.{whole_part, cell_along, cell_for_position};
ghost use Rattle.numbers.specs.Grid.{in_grid, area_id, cell_of_area, is_island_area};
ghost use Rattle.numbers.specs.Grid.{same_cell, lower_bound, cell_bounds};

use crate::refusal::Refusal;

pub const CELL_SIZE: f32 = 512.0;

pub const CELL_ORIGIN: f32 = -8192.0;

pub const CELL_COUNT: u32 = 32;

pub const CELL_MIN_Z: f32 = -2048.0;

pub const CELL_HEIGHT: f32 = 4096.0;

// This bit of an area marks a cell of the island.
pub const ISLAND_FLAG: u32 = 1024;

#[derive(Clone, Copy, PartialEq, Eq, Debug)]
pub struct GridCell {
    pub x: u32,
    pub y: u32,
}

#[derive(Clone, Copy)]
pub struct Bounds {
    pub x0: f32,
    pub y0: f32,
    pub x1: f32,
    pub y1: f32,
}

// The whole part of x, limited to 0..31. What is below zero gives 0, and a NaN too.
//
// IEEE 754, binary32: an f32 has 24 binary digits, so from 2^23 = 8388608 up to 2^24 neighbours are 1 apart, and their
// patterns too: that of 2^23 + n is 0x4b000000 + n. The sum with 2^23 is therefore rounded to the nearest whole number.
// Where that is more than the number was, it is one too many. Numbers from 2^23 on have greater patterns than any of
// these, and fall to the limit.
fn whole_part(x: f32) -> u32
    ensures { result ≡ whole_part x }
{
    let from = if 0.0 < x { x } else { 0.0 };
    let sum = from + 8388608.0;
    let over = if from < sum - 8388608.0 { 1 } else { 0 };
    (sum.to_bits() - 0x4b00_0000 - over).min(31)
}

// The cell along one axis.
#[tactic(auto, using(crate::proofs::GridLaws::cell_of_sum))]
fn cell_along(x: f32) -> u32
    ensures { result ≡ cell_along x }
{
    whole_part((x + 8192.0) / CELL_SIZE)
}

// The cell that holds a position, limited to the grid.
pub fn cell_for_position(x: f32, y: f32) -> GridCell
    ensures { result ≡ cell_for_position x y }
{
    GridCell {
        x: cell_along(x),
        y: cell_along(y),
    }
}

fn in_grid(cx: u32, cy: u32) -> bool
    ensures { result ≡ in_grid cx cy }
{
    cx < CELL_COUNT && cy < CELL_COUNT
}

// A cell's area.
#[tactic(auto, unfolding(crate::specs::Grid::area_id))]
pub fn area_id(cx: u32, cy: u32) -> Result<u32, Refusal>
    ensures { result ≡ area_id cx cy }
{
    if !in_grid(cx, cy) {
        return Err(Refusal::NoSuchPlace);
    }
    Ok(cy * CELL_COUNT + cx)
}

// Whether an area carries the island's bit.
pub fn is_island_area(area: u32) -> bool
    ensures { result ≡ is_island_area area }
{
    area / ISLAND_FLAG % 2 == 1
}

// Whether two areas name the same cell, the island's bit aside.
pub fn same_cell(a: u32, b: u32) -> bool
    ensures { result ≡ same_cell a b }
{
    a % ISLAND_FLAG == b % ISLAND_FLAG
}

// The cell that an area names, the island's bit aside.
pub fn cell_of_area(area: u32) -> GridCell
    ensures { result ≡ cell_of_area area }
{
    let cell = area % ISLAND_FLAG;
    GridCell {
        x: cell % CELL_COUNT,
        y: cell / CELL_COUNT,
    }
}

fn lower_bound(n: u32) -> f32
    requires { n ≤ 31 }
    ensures { result ≡ lower_bound n }
{
    CELL_ORIGIN + n as f32 * CELL_SIZE
}

// The corners of a cell.
#[tactic(auto, unfolding(crate::specs::Grid::cell_bounds))]
pub fn cell_bounds(cx: u32, cy: u32) -> Result<Bounds, Refusal>
    ensures { result ≡ cell_bounds cx cy }
{
    if !in_grid(cx, cy) {
        return Err(Refusal::NoSuchPlace);
    }
    let x0 = lower_bound(cx);
    let y0 = lower_bound(cy);
    Ok(Bounds {
        x0,
        y0,
        x1: x0 + CELL_SIZE,
        y1: y0 + CELL_SIZE,
    })
}
