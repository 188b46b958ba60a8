// The root, 112 bytes at the start of the system section.
ghost use Rattle.std.specs.Prelude.{◌≡◌, ◌*◌, ◌/◌, ◌%◌};
ghost use Rattle.records.specs.Root.{root_of, root_words};

use crate::cursor::Cursor;

// The root's own words, and where each array lies.
#[derive(Clone, Copy, Default)]
pub struct Root {
    pub vft: u32,
    pub nodes: u64,
    pub node_count: u32,
    pub vehicle_node_count: u32,
    pub ped_node_count: u32,
    pub links: u64,
    pub link_count: u32,
    pub junctions: u64,
    pub heightmap: u64,
    pub refs: u64,
    pub ref_count: u16,
    pub junction_count: u32,
    pub heightmap_count: u32,
    pub unknowns: [u32; 7],
}

// The root at the section's start, read in the order of the file. What is skipped: the word at 4 and the pages
// address, and the first ref count.
#[tactic(auto, unfolding(crate::specs::Root::root_of, crate::specs::Root::unknowns_of))]
pub fn root_of(s: &[u8]) -> Root
    ensures { result ≡ root_of s.now }
{
    let mut c = Cursor::new(s);
    let vft = c.next();
    c.skip(12);
    let nodes = c.next();
    let node_count = c.next();
    let vehicle_node_count = c.next();
    let ped_node_count = c.next();
    let unk24 = c.next();
    let links = c.next();
    let link_count = c.next();
    let unk34 = c.next();
    let junctions = c.next();
    let heightmap = c.next();
    let unk48 = c.next();
    let unk4c = c.next();
    let refs = c.next();
    c.skip(2);
    let ref_count = c.next();
    let unk5c = c.next();
    let junction_count = c.next();
    let heightmap_count = c.next();
    let unk68 = c.next();
    Root {
        vft,
        nodes,
        node_count,
        vehicle_node_count,
        ped_node_count,
        links,
        link_count,
        junctions,
        heightmap,
        refs,
        ref_count,
        junction_count,
        heightmap_count,
        unknowns: [unk24, unk34, unk48, unk4c, unk5c, unk68, c.next()],
    }
}

fn low32(n: u64) -> u32
    ensures { result ≡ n % 4294967296 }
{
    (n % 4294967296) as u32
}

fn high32(n: u64) -> u32
    ensures { result ≡ n / 4294967296 }
{
    (n >> 32) as u32
}

// The same 16 bits in both halves of a word.
fn twice(n: u16) -> u32
    ensures { result ≡ n * 65537 }
{
    n as u32 * 65537
}

// The root as written, in words of 32 bits.
#[tactic(auto, unfolding(crate::specs::Root::root_words))]
pub fn root_words(root: Root) -> [u32; 28]
    ensures { result ≡ root_words root }
{
    let u = root.unknowns;
    [
        root.vft,
        1,
        0x5000_0070,
        0,
        low32(root.nodes),
        high32(root.nodes),
        root.node_count,
        root.vehicle_node_count,
        root.ped_node_count,
        u[0],
        low32(root.links),
        high32(root.links),
        root.link_count,
        u[1],
        low32(root.junctions),
        high32(root.junctions),
        low32(root.heightmap),
        high32(root.heightmap),
        u[2],
        u[3],
        low32(root.refs),
        high32(root.refs),
        twice(root.ref_count),
        u[4],
        root.junction_count,
        root.heightmap_count,
        u[5],
        u[6],
    ]
}
