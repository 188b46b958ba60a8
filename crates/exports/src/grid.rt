// The grid of cells.
ghost use Rattle.std.specs.Prelude.{◌≡◌, [], ◌∷◌};
ghost use Rattle.numbers.specs.Grid.{cell_along, area_id, cell_of_area, is_island_area, same_cell, cell_bounds};
ghost use Rattle.exports.specs.Answers.{answer_number, answer_place, value_or, corners};

use crate::answers::{answer, tell};

// The cell that holds a position: its numbers along x and y.
#[unsafe(no_mangle)]
pub extern "C" fn ynd_cell_for_position(x: f32, y: f32, cell: &mut [u32; 2])
    ensures { cell.new ≡ cell_along x ∷ cell_along y ∷ [] }
{
    let c = numbers::grid::cell_for_position(x, y);
    *cell = [c.x, c.y];
}

// A cell's area.
#[unsafe(no_mangle)]
pub extern "C" fn ynd_area_id(cx: u32, cy: u32, area: &mut u32, place: &mut usize) -> u32
    ensures value { result ≡ answer_number (area_id cx cy) }
    ensures area_after { area.new ≡ value_or (area_id cx cy) (λ n. n) area.old }
    ensures place_after { place.new ≡ answer_place (area_id cx cy) }
{
    tell(numbers::grid::area_id(cx, cy), area, place)
}

// The cell that an area names, the island's bit aside.
#[unsafe(no_mangle)]
pub extern "C" fn ynd_cell_of_area(area: u32, cell: &mut [u32; 2])
    ensures { cell.new ≡ (cell_of_area area).x ∷ (cell_of_area area).y ∷ [] }
{
    let c = numbers::grid::cell_of_area(area);
    *cell = [c.x, c.y];
}

// Whether an area carries the island's bit.
#[unsafe(no_mangle)]
pub extern "C" fn ynd_is_island_area(area: u32) -> bool
    ensures { result ≡ is_island_area area }
{
    numbers::grid::is_island_area(area)
}

// Whether two areas name the same cell, the island's bit aside.
#[unsafe(no_mangle)]
pub extern "C" fn ynd_same_cell(a: u32, b: u32) -> bool
    ensures { result ≡ same_cell a b }
{
    numbers::grid::same_cell(a, b)
}

// The corners of a cell: x0, y0, x1, y1.
#[unsafe(no_mangle)]
pub extern "C" fn ynd_cell_bounds(cx: u32, cy: u32, bounds: &mut [f32; 4], place: &mut usize) -> u32
    ensures value { result ≡ answer_number (cell_bounds cx cy) }
    ensures bounds_after { bounds.new ≡ value_or (cell_bounds cx cy) corners bounds.old }
    ensures place_after { place.new ≡ answer_place (cell_bounds cx cy) }
{
    let r = numbers::grid::cell_bounds(cx, cy);
    if let Ok(b) = r {
        *bounds = [b.x0, b.y0, b.x1, b.y1];
    }
    answer(r, place)
}
