// A large file made from a few numbers: zeros but for some bytes, each set at places that are a stride apart. It is
// counted, read, given refs and written.
//   0 length of the section, 4 refs added, four bytes each; 8 number and place of counting, 11 of reading, 14 of
//   writing;
//   17 nodes, links, junctions, heightmap values and refs counted, 37 the length written, four bytes each;
//   41 the bytes: place, stride and how many, four bytes each, and the value.
use crate::parts::{after, agrees, answer_at, most, number_at, upto, upto_mut};
use crate::room::{Cell, Room};
use cells::counts::Counts;
use records::bytes::byte_at;
use records::junction_ref::NodeJunctionRef;

// The value at each of so many places that are there; with a stride of 0 they are one place.
fn set_bytes(section: &mut [u8], p: &[u8]) {
    let stride = number_at(p, 4);
    let times = most(number_at(p, 8), if stride == 0 { 1 } else { section.len() });
    let from = section.iter_mut().skip(number_at(p, 0));
    for byte in from.step_by(stride.max(1)).take(times) {
        *byte = byte_at(p, 12);
    }
}

fn set_all(section: &mut [u8], patches: &[u8]) {
    for p in patches.chunks_exact(13) {
        set_bytes(section, p);
    }
}

fn counts_told(b: &[u8]) -> Counts {
    Counts {
        nodes: number_at(b, 17),
        links: number_at(b, 21),
        junctions: number_at(b, 25),
        heights: number_at(b, 29),
        refs: number_at(b, 33),
    }
}

// So many refs added, up to the first that is refused.
fn add_refs(cell: &mut Cell<'_>, n: usize) {
    for _ in 0..n {
        if cell.add_ref(NodeJunctionRef::default()).is_err() {
            return;
        }
    }
}

fn written(b: &[u8], cell: &mut Cell<'_>, section: &mut [u8]) -> bool {
    add_refs(cell, number_at(b, 4));
    let w = cell.write(section);
    agrees(answer_at(b, 14), w, |length| length == number_at(b, 37))
}

// The section is counted and read, and then written over.
fn replayed(b: &[u8], cell: &mut Cell<'_>, section: &mut [u8]) -> bool {
    let system = upto(section, number_at(b, 0));
    let counted = cells::count::count(system, &[]);
    if !agrees(answer_at(b, 8), counted, |k| k == counts_told(b)) {
        return false;
    }
    let read = cell.read(system, &[]);
    agrees(answer_at(b, 11), read, |_| true) && (read.is_err() || written(b, cell, section))
}

// Of any length: a check that knows 2,621,600 would count to it.
fn made<const S: usize>(b: &[u8], cell: &mut Cell<'_>, section: &mut [u8; S]) -> bool {
    set_all(upto_mut(section, number_at(b, 0)), after(b, 41));
    replayed(b, cell, section)
}

// The section has room for 65,537 nodes. Never inlined: the other records need no stack of 4 MB.
#[inline(never)]
pub fn large(b: &[u8]) -> bool {
    let mut section = [0u8; 2621600];
    let mut room = Room::<3900, 65600, 300, 66100, 65537>::new();
    made(b, &mut room.cell(), &mut section)
}
