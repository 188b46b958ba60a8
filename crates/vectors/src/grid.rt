// Cells of the grid and areas.
use crate::names::same_name;
use crate::parts::{agrees, number_at};
use numbers::bits::{bits_of, float_of};
use numbers::grid::{Bounds, GridCell, area_id, cell_bounds};
use numbers::names::cell_file_name;
use records::bytes::{byte_at, u32_at};

// bits of x and y; the cell.
pub fn cell_for_position(b: &[u8]) -> bool {
    let c = numbers::grid::cell_for_position(float_of(u32_at(b, 0)), float_of(u32_at(b, 4)));
    c == cell_told(b)
}

// The cell at offset 8 of the record.
fn cell_told(b: &[u8]) -> GridCell {
    GridCell {
        x: byte_at(b, 8) as u32,
        y: byte_at(b, 9) as u32,
    }
}

// By bits: floats have no equality that a record could be held to.
fn same_bounds(b: &[u8], bounds: Bounds) -> bool {
    bits_of(bounds.x0) == u32_at(b, 20)
        && bits_of(bounds.y0) == u32_at(b, 24)
        && bits_of(bounds.x1) == u32_at(b, 28)
        && bits_of(bounds.y1) == u32_at(b, 32)
}

// cx, cy; number and place of the refusal, 0 if accepted; area, bounds, the name's count, its bytes.
pub fn grid_cell(b: &[u8]) -> bool {
    let cx = u32_at(b, 0);
    let cy = u32_at(b, 4);
    let number = u32_at(b, 8);
    let place = if number == 0 { 0 } else { number_at(b, 12) };
    let told = (number, place);
    agrees(told, area_id(cx, cy), |n| n == u32_at(b, 16))
        && agrees(told, cell_bounds(cx, cy), |bounds| same_bounds(b, bounds))
        && agrees(told, cell_file_name(cx, cy), |name| same_name(b, name))
}

// an area and another; the first one's cell, whether it is an island's, whether both name one cell.
pub fn area(b: &[u8]) -> bool {
    let first = u32_at(b, 0);
    numbers::grid::cell_of_area(first) == cell_told(b)
        && numbers::grid::is_island_area(first) == (byte_at(b, 10) == 1)
        && numbers::grid::same_cell(first, u32_at(b, 4)) == (byte_at(b, 11) == 1)
}
