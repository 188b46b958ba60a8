// Where the blocks of a written section lie.
ghost use Rattle.std.specs.Prelude.{◌≡◌, ◌+◌, ◌≤◌, length};
ghost use Rattle.records.specs.Layout.{gap_for, start_of, end_of, address, sizes, places_of, header_size};
ghost use Rattle.records.specs.Layout.{header_bytes};
ghost use Rattle.records.specs.Put.{put_in, stored_to};

use crate::root::{Root, root_words};
use crate::stored::Stored;
use numbers::refusal::{Lent, Refusal};

pub const REF_SIZE: usize = 8;

pub const JUNCTION_SIZE: usize = 12;

pub const LINK_SIZE: usize = 8;

pub const NODE_SIZE: usize = 40;

pub const ROOT_SIZE: usize = 112;

// The root and the page block of 1,040 bytes.
pub const HEADER_SIZE: usize = 1152;

const SYSTEM_BASE: u64 = 0x5000_0000;

// How many entries each block holds, in the order in which the blocks lie.
#[derive(Clone, Copy)]
pub struct Blocks {
    pub refs: u32,
    pub heightmap: u32,
    pub junctions: u32,
    pub links: u32,
    pub nodes: u32,
}

// The address of each array, 0 for an empty one, and where the last block ends.
#[derive(Clone, Copy)]
pub struct Places {
    pub refs: u64,
    pub heightmap: u64,
    pub junctions: u64,
    pub links: u64,
    pub nodes: u64,
    pub total: usize,
}

// How many zeros stand before a block of that size, when the one before it ends at `at`.
#[tactic(auto, unfolding(crate::specs::Layout::gap_for))]
pub fn gap_for(at: usize, size: usize) -> usize
    ensures { result ≡ gap_for at size }
{
    if size == 0 { 0 } else { (16 - at % 16) % 16 }
}

// Lays a block of that size behind the one that ends at `end`: its address, 0 for an empty one.
#[tactic(auto, using(crate::proofs::Laid::gap_small), unfolding(crate::specs::Layout::address, crate::specs::Layout::start_of))]
fn lay(end: &mut usize, size: usize) -> u64
    requires at { 1152 ≤ end.old }
    requires small { end.old + size ≤ 4611686018427387904 }
    ensures address { result ≡ address (start_of end.old size) }
    ensures end { end.new ≡ end_of end.old size }
    ensures near { end.new ≤ end.old + 15 + size }
{
    let start = *end + gap_for(*end, size);
    *end = start + size;
    if size == 0 {
        0
    } else {
        SYSTEM_BASE + start as u64
    }
}

// Where blocks of so many entries lie.
#[tactic(auto, unfolding(crate::specs::Layout::offset, crate::specs::Layout::total, crate::specs::Layout::places_of))]
pub fn lay_out(k: Blocks) -> Places
    ensures { result ≡ places_of (sizes k.refs k.heightmap k.junctions k.links k.nodes) }
{
    let mut end = HEADER_SIZE;
    Places {
        refs: lay(&mut end, k.refs as usize * REF_SIZE),
        heightmap: lay(&mut end, k.heightmap as usize),
        junctions: lay(&mut end, k.junctions as usize * JUNCTION_SIZE),
        links: lay(&mut end, k.links as usize * LINK_SIZE),
        nodes: lay(&mut end, k.nodes as usize * NODE_SIZE),
        total: end,
    }
}

// The root and the page block, at the section's start. Nothing is stored in a section that is too short for them.
#[tactic(auto, using(crate::proofs::Laid::header_laws))]
pub fn put_header(section: &mut [u8], root: Root) -> Result<(), Refusal>
    ensures section_after { section.new ≡ put_in section.old 0 (header_bytes root) }
    ensures value { result ≡ stored_to header_size (length section.old) }
{
    if section.len() < HEADER_SIZE {
        return Err(Refusal::TooShort(Lent::Section));
    }
    let words = root_words(root);
    for (i, word) in words.iter().enumerate() {
        word.write(section, 4 * i);
    }
    section[ROOT_SIZE..HEADER_SIZE].fill(0);
    section[ROOT_SIZE + 8] = 128;
    Ok(())
}
