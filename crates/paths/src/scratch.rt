// What the search keeps of each place, in four entries of the lent scratch; the fourth is `index`'s.
ghost use Rattle.std.specs.Prelude.{◌≡◌, ℕ, ◌+◌, ◌*◌, ◌<◌, ◌≤◌, length};
ghost use Rattle.paths.specs.Scratch.{label_at, from_at, by_at, place_at, index_at, chain_at};
ghost use Rattle.paths.specs.Scratch.{stood, labelled, cleared_at, Fits, Cleared};

// The label of the place v: its sum in the upper half, its number of links in the lower.
#[tactic(auto, unfolding(crate::specs::Scratch::label_at))]
pub(crate) fn label_of(scratch: &[u32], v: usize) -> u64
    requires { 4 * v + 1 < length scratch.now }
    ensures { result ≡ label_at scratch.now v }
{
    let sum = (scratch[4 * v] / 256) as u64;
    let steps = (scratch[4 * v + 1] / 65536) as u64;
    sum * 4294967296 + steps
}

#[tactic(auto, unfolding(crate::specs::Scratch::from_at))]
pub(crate) fn from_of(scratch: &[u32], v: usize) -> usize
    requires { 4 * v + 1 < length scratch.now }
    ensures { result ≡ from_at scratch.now v }
{
    (scratch[4 * v + 1] % 65536) as usize
}

#[tactic(auto, unfolding(crate::specs::Scratch::by_at))]
pub(crate) fn by_of(scratch: &[u32], v: usize) -> u8
    requires { 4 * v < length scratch.now }
    ensures { result ≡ by_at scratch.now v }
{
    (scratch[4 * v] % 256) as u8
}

#[tactic(auto, unfolding(crate::specs::Scratch::place_at))]
pub(crate) fn place_at(scratch: &[u32], i: usize) -> usize
    requires { 4 * i + 2 < length scratch.now }
    ensures { result ≡ place_at scratch.now i }
{
    (scratch[4 * i + 2] % 65536) as usize
}

#[tactic(auto, unfolding(crate::specs::Scratch::index_at))]
pub(crate) fn index_of(scratch: &[u32], v: usize) -> usize
    requires { 4 * v + 2 < length scratch.now }
    ensures { result ≡ index_at scratch.now v }
{
    (scratch[4 * v + 2] / 65536) as usize
}

// The place v gets the label k, by the choice b from the place u.
#[tactic(auto, unfolding(crate::specs::Scratch::labelled))]
pub(crate) fn put_label(scratch: &mut [u32], v: usize, k: u64, u: usize, b: u8)
    requires { (4 * v + 1 < length scratch.old) × (u < 65536) × Fits k }
    ensures { scratch.new ≡ labelled scratch.old v k u b }
{
    let sum = (k / 4294967296) as u32;
    let steps = (k % 4294967296) as u32;
    scratch[4 * v] = sum * 256 + b as u32;
    scratch[4 * v + 1] = steps * 65536 + u as u32;
}

// The place v stands at i of the order.
#[tactic(auto, unfolding(crate::specs::Scratch::placed, crate::specs::Scratch::indexed, crate::specs::Scratch::stood))]
pub(crate) fn stand(scratch: &mut [u32], i: usize, v: usize)
    requires { (4 * i + 2 < length scratch.old) × (4 * v + 2 < length scratch.old) × (i < 65536) × (v < 65536) }
    ensures { scratch.new ≡ stood scratch.old i v }
{
    let above = scratch[4 * i + 2] / 65536;
    scratch[4 * i + 2] = above * 65536 + v as u32;
    let below = scratch[4 * v + 2] % 65536;
    scratch[4 * v + 2] = below + i as u32 * 65536;
}

// The place v has no label, and stands at v of the order.
#[tactic(auto, unfolding(crate::specs::Scratch::cleared_at))]
fn clear_at(scratch: &mut [u32], v: usize)
    requires { (4 * v + 2 < length scratch.old) × (v < 65536) }
    ensures { scratch.new ≡ cleared_at scratch.old v }
{
    scratch[4 * v] = 4294967295;
    scratch[4 * v + 1] = 0;
    scratch[4 * v + 2] = (v * 65537) as u32;
}

// Of n places none has a label, and none waits.
pub(crate) fn clear(scratch: &mut [u32], n: usize)
    requires { (n ≤ 65536) × (4 * n ≤ length scratch.old) }
    ensures { Cleared n scratch.new
        × (chain_at scratch.new ≡ chain_at scratch.old) }
{
    for v in 0..n {
        clear_at(scratch, v);
    }
}
