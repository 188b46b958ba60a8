// Entries copied one by one. The library's copies call memcpy and memmove, which the archive for C would then need from
// outside; where a length is known, as for a record's bytes, they don't.
ghost use Rattle.std.specs.Prelude.{◌≡◌, ◌+◌, ◌*◌, ◌/◌, ◌≤◌, length, take, drop};
ghost use Rattle.cells.specs.Read.{links_from, values_from};

use crate::link::PathLink;
use records::layout::LINK_SIZE;
use records::link::link_at;

// The entries of another list of that length.
#[tactic(auto, using(crate::proofs::Sequences::Filled::fill_turn, crate::proofs::Sequences::Filled::fill_all))]
pub(crate) fn copy_over<T: Copy>(list: &mut [T], new: &[T])
    requires { length list.old ≡ length new.now }
    ensures { list.new ≡ new.now }
{
    for (i, x) in new.iter().enumerate() {
        list[i] = *x;
    }
}

// Record i of an array of records of `size` bytes.
pub(crate) fn record(array: &[u8], i: usize, size: usize) -> &[u8]
    requires { i * size + size ≤ length array.now }
    ensures { result.now ≡ take size (drop (i * size) array.now) }
{
    let at = i * size;
    &array[at..at + size]
}

// The links of the file's list from `from` on.
#[tactic(auto, using(crate::proofs::Reading::ReadLaws::fill_turn, records::proofs::Whole::link_whole), unfolding(crate::specs::Read::links_from, crate::specs::Lists::up_to))]
pub(crate) fn copy_links(l: &[u8], from: usize, links: &mut [PathLink])
    requires { from + length links.old ≤ length l.now / 8 }
    ensures { links.new ≡ links_from l.now from (length links.old) }
{
    for (k, w) in links.iter_mut().enumerate() {
        *w = PathLink::from(link_at(record(l, from + k, LINK_SIZE), 0));
    }
}

// The heightmap bytes from `from` on.
#[tactic(auto, using(crate::proofs::Reading::Whole::values_whole))]
pub(crate) fn copy_values(h: &[u8], from: usize, values: &mut [u8])
    requires { from + length values.old ≤ length h.now }
    ensures { values.new ≡ values_from h.now from (length values.old) }
{
    let part = &h[from..from + values.len()];
    copy_over(values, part);
}
