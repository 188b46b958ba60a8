// The file's records that have each a range of a second array: nodes of links, junctions of heightmap values.
ghost use Rattle.std.specs.Prelude.{◌≡◌, ℕ, List, ◌++◌, ◌+◌, ◌*◌, ◌/◌, ◌≤◌, ◌<◌};
ghost use Rattle.std.specs.Prelude.{length, take, drop};
ghost use Rattle.records.specs.Records.{node_at, junction_at};
ghost use Rattle.cells.specs.Checks.{links_at, values_at};
ghost use Rattle.cells.specs.Read.{links_in, values_in};
ghost use Rattle.cells.specs.RangedParts.{length_links, length_values};
ghost use Rattle.cells.specs.Paths.{path_node, path_junction};
ghost use Rattle.numbers.specs.declared.refusal.Refusal.{Refusal};
ghost use Rattle.numbers.specs.declared.refusal.Refusal.TheVariants.{LinksOutside, ValuesOutside};

use crate::copy::{copy_links, copy_values, record};
use crate::from_file::{path_junction, path_node};
use crate::junction_entry::JunctionEntry;
use crate::link::PathLink;
use crate::node_entry::NodeEntry;
use crate::range::{Range, map_size};
use numbers::refusal::Refusal;
use records::junction::{junction_at, value_range_at};
use records::layout::{JUNCTION_SIZE, NODE_SIZE};
use records::node::{link_range_at, node_at};

pub(crate) trait Ranged: Copy {
    type Entry: Copy;

    type Part: Copy;

    ghost start: { Self → ℕ → ℕ };

    ghost count: { Self → ℕ → ℕ };

    ghost cause: { ℕ → Refusal };

    ghost entry_at: { Self → ℕ → ℕ → Self.Entry };

    ghost part: { Self → ℕ → List Self.Part };

    // How many records there are, and how many entries the second array has.
    ghost size: { Self → ℕ };

    ghost pool: { Self → ℕ };

    // Where record i's range starts in the file, and how much it has.
    fn range(self, i: usize) -> Range
        requires { i < size self }
        ensures { (result.start ≡ start self i) × (result.count ≡ count self i)
            × (result.start < 65536) × (result.count < 65536) };

    // The refusal of record i, whose range leaves the second array.
    fn outside(self, i: usize) -> Refusal
        ensures { result ≡ cause i };

    // What is stored of record i, whose range starts at `first` in memory.
    fn entry(self, i: usize, first: u32) -> Self::Entry
        requires { i < size self }
        ensures { result ≡ entry_at self i first };

    // Its range of the second array, stored from `held` on.
    fn fill_part(self, i: usize, held: usize, parts: &mut [Self::Part])
        requires { (i < size self) × (held + count self i ≤ length parts.old)
            × (start self i + count self i ≤ pool self) }
        ensures { parts.new ≡ take held parts.old ++ part self i ++ drop (held + count self i) parts.old };

    ghost long: { (records : Self) (i : ℕ) → length (part records i) ≡ count records i };
}

// The file's array of nodes, and that of links.
#[derive(Clone, Copy)]
pub(crate) struct FileNodes<'a> {
    pub n: &'a [u8],
    pub l: &'a [u8],
}

impl Ranged for FileNodes<'_> {
    type Entry = NodeEntry;

    type Part = PathLink;

    ghost start = { λ f i. (node_at f.n.now (i * 40)).link_id };

    ghost count = { λ f. links_at f.n.now };

    ghost cause = { LinksOutside };

    ghost entry_at = { λ f i first. path_node (node_at f.n.now (i * 40)) first };

    ghost part = { λ f. links_in f.n.now f.l.now };

    ghost size = { λ f. length f.n.now / 40 };

    ghost pool = { λ f. length f.l.now / 8 };

    ghost long = { λ f. length_links f.n.now f.l.now };

    #[tactic(auto, using(records::proofs::Whole::node_whole))]
    fn range(self, i: usize) -> Range {
        let links = link_range_at(record(self.n, i, NODE_SIZE), 0);
        Range {
            start: links.start as usize,
            count: links.count as usize,
        }
    }

    fn outside(self, i: usize) -> Refusal {
        Refusal::LinksOutside(i)
    }

    #[tactic(auto, using(records::proofs::Whole::node_whole))]
    fn entry(self, i: usize, first: u32) -> NodeEntry {
        path_node(node_at(record(self.n, i, NODE_SIZE), 0), first)
    }

    #[tactic(auto, using(crate::proofs::Reading::ReadLaws::part_stored), unfolding(crate::specs::Read::links_in))]
    fn fill_part(self, i: usize, held: usize, parts: &mut [PathLink]) {
        let range = self.range(i);
        copy_links(self.l, range.start, &mut parts[held..held + range.count]);
    }
}

// The file's array of junctions, and its heightmap bytes.
#[derive(Clone, Copy)]
pub(crate) struct FileJunctions<'a> {
    pub j: &'a [u8],
    pub h: &'a [u8],
}

impl Ranged for FileJunctions<'_> {
    type Entry = JunctionEntry;

    type Part = u8;

    ghost start = { λ f i. (junction_at f.j.now (i * 12)).heightmap_ptr };

    ghost count = { λ f. values_at f.j.now };

    ghost cause = { ValuesOutside };

    ghost entry_at = { λ f i first. path_junction (junction_at f.j.now (i * 12)) first };

    ghost part = { λ f. values_in f.j.now f.h.now };

    ghost size = { λ f. length f.j.now / 12 };

    ghost pool = { λ f. length f.h.now };

    ghost long = { λ f. length_values f.j.now f.h.now };

    #[tactic(auto, using(records::proofs::Whole::junction_whole))]
    fn range(self, i: usize) -> Range {
        let values = value_range_at(record(self.j, i, JUNCTION_SIZE), 0);
        Range {
            start: values.start as usize,
            count: map_size(values.width, values.height),
        }
    }

    fn outside(self, i: usize) -> Refusal {
        Refusal::ValuesOutside(i)
    }

    #[tactic(auto, using(records::proofs::Whole::junction_whole))]
    fn entry(self, i: usize, first: u32) -> JunctionEntry {
        path_junction(junction_at(record(self.j, i, JUNCTION_SIZE), 0), first)
    }

    #[tactic(auto, using(crate::proofs::Reading::ReadLaws::part_stored), unfolding(crate::specs::Read::values_in))]
    fn fill_part(self, i: usize, held: usize, parts: &mut [u8]) {
        let range = self.range(i);
        copy_values(self.h, range.start, &mut parts[held..held + range.count]);
    }
}
