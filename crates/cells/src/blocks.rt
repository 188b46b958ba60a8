// The five arrays of the file, put into a section. Each answers where it ends.
ghost use Rattle.std.specs.Prelude.{◌≡◌, true, List, ℕ, ◌+◌, ◌*◌, ◌≤◌, length, replicate};
ghost use Rattle.records.specs.Put.{put, joined};
ghost use Rattle.records.specs.Layout.{gap_for};
ghost use Rattle.cells.specs.WriteChecks.{links_within, values_within, accepted, check_nodes, check_junctions};
ghost use Rattle.cells.specs.Blocks.{heights_block, junctions_block, links_block, nodes_block};

use crate::copy::copy_over;
use crate::junction_entry::JunctionEntry;
use crate::link::PathLink;
use crate::node_entry::NodeEntry;
use crate::range::{part, stored_start, value_count};
use crate::to_file::{junction_record, link_record, node_record};
use crate::write_checks::{links_within, values_within};
use records::layout::gap_for;

// Zeros up to the next multiple of 16, where an array of that size starts.
#[tactic(auto, using(records::proofs::Puts::put_laws))]
pub(crate) fn pad(section: &mut [u8], at: usize, size: usize) -> usize
    requires { at + gap_for at size ≤ length section.old }
    ensures { (result ≡ at + gap_for at size)
        × (section.new ≡ put section.old at (replicate (gap_for at size) 0)) }
{
    let start = at + gap_for(at, size);
    section[at..start].fill(0);
    start
}

// Refs, or links: a record of eight bytes for each.
#[tactic(auto, using(crate::proofs::Rules::joined_laws))]
pub(crate) fn put_records<T: Copy, F: Fn(T) -> [u8; 8]>(
    section: &mut [u8],
    at: usize,
    entries: &[T],
    bytes_of: F,
) -> usize
    requires callable { F.IsAlwaysCallable bytes_of }
    requires room { at + 8 * length entries.now ≤ length section.old }
    ensures end { result ≡ at + 8 * length entries.now }
    ensures bytes { (f : T → List ℕ) → ((x : T) (r : List ℕ) → F.post bytes_of x r → r ≡ f x)
        → section.new ≡ put section.old at (joined f entries.now) }
{
    let mut p = at;
    for e in entries {
        section[p..p + 8].copy_from_slice(&bytes_of(*e));
        p += 8;
    }
    p
}

#[tactic(auto, using(crate::proofs::Rules::links_laws), unfolding(crate::specs::Entries::links_in, records::specs::Put::joined))]
pub(crate) fn put_links(
    section: &mut [u8],
    at: usize,
    nodes: &[NodeEntry],
    links: &[PathLink],
) -> usize
    requires { at + length (links_block links.now nodes.now) ≤ length section.old }
    ensures { (result ≡ at + length (links_block links.now nodes.now))
        × (section.new ≡ put section.old at (links_block links.now nodes.now)) }
{
    let mut p = at;
    for n in nodes {
        let own = part(links, n.link_id as usize, n.link_count as usize);
        p = put_records(section, p, own, link_record);
    }
    p
}

#[tactic(auto, using(crate::proofs::Rules::heights_laws), unfolding(crate::specs::Entries::values_in, records::specs::Put::joined))]
pub(crate) fn put_heights(
    section: &mut [u8],
    at: usize,
    junctions: &[JunctionEntry],
    heights: &[u8],
) -> usize
    requires { at + length (heights_block heights.now junctions.now) ≤ length section.old }
    ensures { (result ≡ at + length (heights_block heights.now junctions.now))
        × (section.new ≡ put section.old at (heights_block heights.now junctions.now)) }
{
    let mut p = at;
    for j in junctions {
        let own = part(heights, j.heightmap_ptr as usize, value_count(j));
        copy_over(&mut section[p..p + own.len()], own);
        p += own.len();
    }
    p
}

#[tactic(auto, using(crate::proofs::Rules::junctions_laws))]
pub(crate) fn put_junctions(
    section: &mut [u8],
    at: usize,
    junctions: &[JunctionEntry],
    heights: &[u8],
) -> usize
    requires { (at + length (junctions_block heights.now junctions.now) ≤ length section.old)
        × (accepted (check_junctions (values_within (length heights.now)) 0 0 junctions.now) ≡ true) }
    ensures { (result ≡ at + length (junctions_block heights.now junctions.now))
        × (section.new ≡ put section.old at (junctions_block heights.now junctions.now)) }
{
    let mut before: usize = 0;
    let mut p = at;
    for j in junctions {
        section[p..p + 12].copy_from_slice(&junction_record(j, before as u16));
        before += values_within(j, heights.len());
        p += 12;
    }
    p
}

#[tactic(auto, using(crate::proofs::Rules::nodes_laws))]
pub(crate) fn put_nodes(
    section: &mut [u8],
    at: usize,
    nodes: &[NodeEntry],
    links: &[PathLink],
) -> usize
    requires { (at + length (nodes_block links.now nodes.now) ≤ length section.old)
        × (accepted (check_nodes (links_within (length links.now)) 0 0 nodes.now) ≡ true) }
    ensures { (result ≡ at + length (nodes_block links.now nodes.now))
        × (section.new ≡ put section.old at (nodes_block links.now nodes.now)) }
{
    let mut before: usize = 0;
    let mut p = at;
    for n in nodes {
        let count = links_within(n, links.len());
        let start = stored_start(before, count);
        section[p..p + 40].copy_from_slice(&node_record(n, start as u16, count as u8));
        before += count;
        p += 40;
    }
    p
}
