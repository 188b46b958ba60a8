// A member's entry in the set's list: its `Ynd` as 15 words, then the sizes of its parts of nodes, links, junctions,
// heightmap values and refs.
ghost use Rattle.std.specs.Prelude.{◌≡◌, ◌<◌, length};
ghost use Rattle.sets.specs.CellSet.{word, ynd_of};
ghost use Rattle.sets.specs.Join.{entry_of};
ghost use Rattle.sets.specs.SetParts.{count_word, size_word};

use cells::counts::Counts;
use cells::ynd::Ynd;
use numbers::refusal::Array;

pub type MemberWords = [u32; 20];

fn wide(x: u32) -> usize
    ensures { (result ≡ x) × (result < 4294967296) }
{
    x as usize
}

// How many entries the member has in a list.
pub(crate) fn count_in(w: MemberWords, list: Array) -> usize
    ensures { (result ≡ word (count_word list) w) × (result < 4294967296) }
{
    match list {
        Array::Nodes => wide(w[10]),
        Array::Links => wide(w[11]),
        Array::Junctions => wide(w[12]),
        Array::Heightmap => wide(w[13]),
        Array::Refs => wide(w[14]),
    }
}

// How many its part of the list holds.
pub(crate) fn size_in(w: MemberWords, list: Array) -> usize
    ensures { (result ≡ word (size_word list) w) × (result < 4294967296) }
{
    match list {
        Array::Nodes => wide(w[15]),
        Array::Links => wide(w[16]),
        Array::Junctions => wide(w[17]),
        Array::Heightmap => wide(w[18]),
        Array::Refs => wide(w[19]),
    }
}

#[tactic(auto, unfolding(crate::specs::CellSet::ynd_of))]
pub(crate) fn ynd_of(w: MemberWords) -> Ynd
    ensures { result ≡ ynd_of w }
{
    let unknowns = [w[3], w[4], w[5], w[6], w[7], w[8], w[9]];
    Ynd {
        vft: w[0],
        vehicle_node_count: w[1],
        ped_node_count: w[2],
        unknowns,
        node_count: w[10],
        link_count: w[11],
        junction_count: w[12],
        heightmap_count: w[13],
        ref_count: w[14],
    }
}

// The entry of a cell whose parts have these sizes.
pub(crate) fn entry_words(ynd: Ynd, sizes: Counts) -> MemberWords
    requires { (sizes.nodes < 4294967296) × (sizes.links < 4294967296) × (sizes.junctions < 4294967296)
        × (sizes.heights < 4294967296) × (sizes.refs < 4294967296) }
    ensures { (result ≡ entry_of ynd sizes) × (length ynd.unknowns ≡ 7) }
{
    let u = ynd.unknowns;
    [
        ynd.vft,
        ynd.vehicle_node_count,
        ynd.ped_node_count,
        u[0],
        u[1],
        u[2],
        u[3],
        u[4],
        u[5],
        u[6],
        ynd.node_count,
        ynd.link_count,
        ynd.junction_count,
        ynd.heightmap_count,
        ynd.ref_count,
        sizes.nodes as u32,
        sizes.links as u32,
        sizes.junctions as u32,
        sizes.heights as u32,
        sizes.refs as u32,
    ]
}
