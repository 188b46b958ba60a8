// Sections, the root and the four records.
ghost use Rattle.std.specs.Prelude.{◌≡◌, ◌≤◌};
ghost use Rattle.records.specs.Records.{node_at, node_bytes, link_at, link_bytes};
ghost use Rattle.records.specs.Records.{junction_at, junction_bytes, ref_at, ref_bytes};
ghost use Rattle.records.specs.Sections.{located};
ghost use Rattle.records.specs.Layout.{places_of, sizes};
ghost use Rattle.numbers.specs.declared.refusal.Array.TheVariants as array;
ghost use Rattle.exports.specs.Answers.{is_known};
ghost use Rattle.exports.specs.Found.{told};
ghost use Rattle.exports.specs.Parts.{section_number, part_or, root_told, record_told, laid, laid_out, laid_told};

use crate::answers::{answer, tell};
use cells::root::{check_root, read_root};
use numbers::refusal::{Array, Refusal};
use records::junction::{junction_at, junction_bytes};
use records::junction_ref::{ref_at, ref_bytes};
use records::layout::{Blocks, Places, lay_out};
use records::link::{link_at, link_bytes};
use records::node::{node_at, node_bytes};
use records::root::root_words;
use records::section::{Section, locate};

fn section_number(section: Section) -> usize
    ensures { result ≡ section_number section }
{
    section as usize
}

// Where an array of `count` entries of `width` bytes lies, in sections of so many bytes: whether its address is good,
// and then its section (0 system, 1 graphics), offset and length.
#[unsafe(no_mangle)]
pub extern "C" fn ynd_locate(
    address: u64,
    count: u32,
    width: u8,
    system: usize,
    graphics: usize,
    part: &mut [usize; 3],
) -> bool
    ensures value { result ≡ is_known (located address count width system graphics) }
    ensures part_after { part.new ≡ part_or (located address count width system graphics) part.old }
{
    let located = locate(address, count, width, system, graphics);
    if let Some(p) = located {
        *part = [section_number(p.section), p.offset, p.len];
    }
    located.is_some()
}

// The root that reading goes by, as it is written: 28 words.
#[unsafe(no_mangle)]
#[tactic(auto, unfolding(crate::specs::Parts::root_told))]
pub extern "C" fn ynd_root(section: &[u8], words: &mut [u32; 28], place: &mut usize) -> u32
    ensures { told result place.new words.new
        ≡ root_told section.now words.old }
{
    let r = check_root(section.len());
    if r.is_ok() {
        *words = root_words(read_root(section));
    }
    answer(r, place)
}

// A record at `at`, as it is written, if it ends inside the section.
#[tactic(auto, unfolding(crate::specs::Parts::record_told))]
fn tell_record<const N: usize>(
    section: &[u8],
    at: u32,
    array: Array,
    written: [u8; N],
    bytes: &mut [u8; N],
    place: &mut usize,
) -> u32
    requires { N ≤ 40 }
    ensures { told result place.new bytes.new ≡ record_told array N section.now at written.entry bytes.old }
{
    let r = if at as usize + N <= section.len() {
        Ok(written)
    } else {
        Err(Refusal::BadArray(array))
    };
    tell(r, bytes, place)
}

// The node at `at`, as it is written.
#[unsafe(no_mangle)]
pub extern "C" fn ynd_node_record(
    section: &[u8],
    at: u32,
    bytes: &mut [u8; 40],
    place: &mut usize,
) -> u32
    ensures { told result place.new bytes.new
        ≡ record_told array.Nodes 40 section.now at
        (node_bytes (node_at section.now at)) bytes.old }
{
    let written = node_bytes(node_at(section, at));
    tell_record(section, at, Array::Nodes, written, bytes, place)
}

// The link at `at`, as it is written.
#[unsafe(no_mangle)]
pub extern "C" fn ynd_link_record(
    section: &[u8],
    at: u32,
    bytes: &mut [u8; 8],
    place: &mut usize,
) -> u32
    ensures { told result place.new bytes.new
        ≡ record_told array.Links 8 section.now at
        (link_bytes (link_at section.now at)) bytes.old }
{
    let written = link_bytes(link_at(section, at));
    tell_record(section, at, Array::Links, written, bytes, place)
}

// The junction at `at`, as it is written.
#[unsafe(no_mangle)]
pub extern "C" fn ynd_junction_record(
    section: &[u8],
    at: u32,
    bytes: &mut [u8; 12],
    place: &mut usize,
) -> u32
    ensures { told result place.new bytes.new
        ≡ record_told array.Junctions 12 section.now at
        (junction_bytes (junction_at section.now at)) bytes.old }
{
    let written = junction_bytes(junction_at(section, at));
    tell_record(section, at, Array::Junctions, written, bytes, place)
}

// The ref at `at`, as it is written.
#[unsafe(no_mangle)]
pub extern "C" fn ynd_ref_record(
    section: &[u8],
    at: u32,
    bytes: &mut [u8; 8],
    place: &mut usize,
) -> u32
    ensures { told result place.new bytes.new
        ≡ record_told array.Refs 8 section.now at
        (ref_bytes (ref_at section.now at)) bytes.old }
{
    let written = ref_bytes(ref_at(section, at));
    tell_record(section, at, Array::Refs, written, bytes, place)
}

// Where the blocks lie, of a file within its limits.
#[tactic(auto, using(numbers::proofs::Refusing::tested))]
fn laid_out(k: Blocks) -> Result<Places, Refusal>
    ensures { result
        ≡ laid_out k.nodes k.junctions (places_of (sizes k.refs k.heightmap k.junctions k.links k.nodes)) }
{
    if 65536 < k.nodes || 4096 < k.junctions {
        return Err(Refusal::AtLimit);
    }
    let p = lay_out(k);
    if 16777216 < p.total {
        return Err(Refusal::SystemTooLong);
    }
    Ok(p)
}

// Where the blocks of a written file lie, by their counts: the addresses of refs, heightmap bytes, junctions, links
// and nodes, 0 for an empty one, and the file's length.
#[unsafe(no_mangle)]
pub extern "C" fn ynd_lay_out(
    refs: u32,
    heightmap: u32,
    junctions: u32,
    links: u32,
    nodes: u32,
    addresses: &mut [u64; 5],
    total: &mut usize,
    place: &mut usize,
) -> u32
    ensures { told result place.new (laid addresses.new total.new)
        ≡ laid_told nodes junctions (places_of (sizes refs heightmap junctions links nodes))
        (laid addresses.old total.old) }
{
    let r = laid_out(Blocks {
        refs,
        heightmap,
        junctions,
        links,
        nodes,
    });
    if let Ok(p) = r {
        *addresses = [p.refs, p.heightmap, p.junctions, p.links, p.nodes];
        *total = p.total;
    }
    answer(r, place)
}
