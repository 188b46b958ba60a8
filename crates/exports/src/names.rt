// The names of cell files.
ghost use Rattle.std.specs.Prelude.{◌≡◌};
ghost use Rattle.numbers.specs.Names.{cell_file_name, area_id_from_file_name};
ghost use Rattle.exports.specs.Answers.{answer_number, answer_place, value_or, is_known, known_or};

use crate::answers::answer;

// The file name of a cell: its bytes, zero from `count` on.
#[unsafe(no_mangle)]
pub extern "C" fn ynd_cell_file_name(
    cx: u32,
    cy: u32,
    name: &mut [u8; 13],
    count: &mut usize,
    place: &mut usize,
) -> u32
    ensures value { result ≡ answer_number (cell_file_name cx cy) }
    ensures name_after { name.new ≡ value_or (cell_file_name cx cy) (λ n. n.bytes) name.old }
    ensures count_after { count.new ≡ value_or (cell_file_name cx cy) (λ n. n.count) count.old }
    ensures place_after { place.new ≡ answer_place (cell_file_name cx cy) }
{
    let r = numbers::names::cell_file_name(cx, cy);
    if let Ok(n) = r {
        let bytes = n.bytes;
        *name = bytes;
        *count = n.count;
    }
    answer(r, place)
}

// Whether a file name says an area, and which.
#[unsafe(no_mangle)]
pub extern "C" fn ynd_area_id_from_file_name(name: &[u8], area: &mut u32) -> bool
    ensures value { result ≡ is_known (area_id_from_file_name name.now) }
    ensures area_after { area.new ≡ known_or (area_id_from_file_name name.now) area.old }
{
    let known = numbers::names::area_id_from_file_name(name);
    if let Some(n) = known {
        *area = n;
    }
    known.is_some()
}
