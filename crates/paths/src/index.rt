// Places by their nodes' numbers: chains in the fourth entry of each place. Every chain ends at place 0.
ghost use Rattle.std.specs.Prelude.{◌≡◌, ℕ, ◌+◌, ◌*◌, ◌<◌, ◌≤◌, length};
ghost use Rattle.cells.specs.LookupCall.{find_in};
ghost use Rattle.paths.specs.Index.{head_at, next_at, linked, Index, Found, AllEntered, Room};
ghost use Rattle.cells.specs.Nodes.{number_at};

use cells::node_entry::NodeEntry;

// No chain has a place but place 0.
#[tactic(auto, using(crate::proofs::IndexLaws::head_cleared))]
fn clear_heads(scratch: &mut [u32], n: usize)
    requires { 4 * n ≤ length scratch.old }
    ensures { (h : ℕ) → h < n → head_at scratch.new h ≡ 0 }
{
    for h in 0..n {
        scratch[4 * h + 3] = 0;
    }
}

// The first of the places entered that has the number k. The first `upto` places are entered.
#[tactic(auto, using(crate::proofs::IndexLaws::seek_here))]
fn entry_of(nodes: &[NodeEntry], scratch: &[u32], upto: usize, k: u16) -> Option<usize>
    requires { Room nodes.now scratch.now × (0 < length nodes.now)
        × Index (length nodes.now) upto (number_at nodes.now) (head_at scratch.now) (next_at scratch.now) }
    ensures { Found upto (number_at nodes.now) k result }
{
    let h = k as usize % nodes.len();
    let mut v = (scratch[4 * h + 3] % 65536) as usize;
    loop {
        if nodes[v].node_id == k {
            return Some(v);
        }
        if v == 0 {
            return None;
        }
        v = (scratch[4 * v + 3] / 65536) as usize;
    }
}

// The place v begins the chain of the remainder h.
#[tactic(auto, unfolding(crate::specs::Index::linked, crate::specs::Index::headed, crate::specs::Index::followed, crate::specs::Scratch::chain_at))]
fn link(scratch: &mut [u32], v: usize, h: usize)
    requires { (4 * v + 3 < length scratch.old) × (4 * h + 3 < length scratch.old) × (v < 65536) }
    ensures { scratch.new ≡ linked scratch.old v h }
{
    let head = scratch[4 * h + 3] % 65536;
    let below = scratch[4 * v + 3] % 65536;
    scratch[4 * v + 3] = below + head * 65536;
    let above = scratch[4 * h + 3] / 65536;
    scratch[4 * h + 3] = above * 65536 + v as u32;
}

// One more place is entered, if it is the first with its number.
fn enter(nodes: &[NodeEntry], scratch: &mut [u32], i: usize)
    requires { Room nodes.now scratch.old × (i < length nodes.now)
        × Index (length nodes.now) i (number_at nodes.now) (head_at scratch.old) (next_at scratch.old) }
    ensures { Index (length nodes.now) (i + 1) (number_at nodes.now) (head_at scratch.new)
        (next_at scratch.new) }
{
    let n = nodes.len();
    let k = nodes[i].node_id;
    if entry_of(nodes, scratch, i, k).is_none() {
        link(scratch, i, k as usize % n);
    }
}

// All places are entered.
pub(crate) fn enter_all(nodes: &[NodeEntry], scratch: &mut [u32])
    requires { Room nodes.now scratch.old × (0 < length nodes.now) }
    ensures { AllEntered nodes.now (length nodes.now) scratch.new }
{
    clear_heads(scratch, nodes.len());
    for i in 1..nodes.len() {
        enter(nodes, scratch, i);
    }
}

// What `node` finds, without a search through all nodes.
#[tactic(auto, using(crate::proofs::IndexLaws::find_laws))]
pub(crate) fn node_in(nodes: &[NodeEntry], scratch: &[u32], k: u16) -> Option<usize>
    requires { Room nodes.now scratch.now × (0 < length nodes.now)
        × AllEntered nodes.now (length nodes.now) scratch.now }
    ensures { result ≡ find_in (length nodes.now) nodes.now k }
{
    let p = k as usize;
    if p < nodes.len() && nodes[p].node_id == k {
        return Some(p);
    }
    entry_of(nodes, scratch, nodes.len(), k)
}
