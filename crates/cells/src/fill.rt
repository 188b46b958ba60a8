// What is read of the five arrays, stored in the lent lists: each node with its own copy of its links, each junction
// with its heightmap.
ghost use Rattle.std.specs.Prelude.{◌≡◌, ℕ, ◌+◌, ◌/◌, ◌≤◌, ◌<◌, length};
ghost use Rattle.cells.specs.Lists.{up_to, join_to, sum_to};
ghost use Rattle.cells.specs.Read.{ref_in};

use crate::copy::record;
use crate::ranged::Ranged;
use records::junction_ref::{NodeJunctionRef, ref_at};
use records::layout::REF_SIZE;

// Each record, and its range of the second array after those of the records before it.
#[tactic(auto, using(crate::proofs::Rules::fill_laws))]
pub(crate) fn fill_ranges<R: Ranged>(records: R, entries: &mut [R::Entry], parts: &mut [R::Part])
    requires few { (length entries.old ≤ 65536) × (length entries.old ≤ R.size records) }
    requires inside { (i : ℕ) → i < length entries.old → R.start records i + R.count records i ≤ R.pool records }
    requires room { length parts.old ≡ sum_to (R.count records) (length entries.old) }
    ensures { (entries.new ≡ up_to (λ i. R.entry_at records i (sum_to (R.count records) i)) (length entries.old))
        × (parts.new ≡ join_to (R.part records) (length entries.old)) }
{
    let mut held = 0;
    for (i, entry) in entries.iter_mut().enumerate() {
        records.fill_part(i, held, parts);
        *entry = records.entry(i, held as u32);
        held += records.range(i).count;
    }
}

#[tactic(auto, using(crate::proofs::Reading::ReadLaws::fill_turn, records::proofs::Whole::ref_whole), unfolding(crate::specs::Read::ref_in, crate::specs::Lists::up_to))]
pub(crate) fn fill_refs(r: &[u8], refs: &mut [NodeJunctionRef])
    requires { length refs.old ≤ length r.now / 8 }
    ensures { refs.new ≡ up_to (ref_in r.now) (length refs.old) }
{
    for (i, w) in refs.iter_mut().enumerate() {
        *w = ref_at(record(r, i, REF_SIZE), 0);
    }
}
