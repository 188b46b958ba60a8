// Reading's checks that store nothing: 2 and 1, then 6, 4 and 5.
ghost use Rattle.std.specs.Prelude.{◌≡◌, ◌≤◌};
ghost use Rattle.cells.specs.Lists.{sum_to};
ghost use Rattle.cells.specs.Checks.{sizes_check, scan, total_of, arrays_check};
ghost use Rattle.cells.specs.RangedParts.{outside};

use crate::arrays::FileBytes;
use crate::counts::Counts;
use crate::ranged::Ranged;
use numbers::refusal::Refusal;

#[tactic(auto, using(numbers::proofs::Refusing::tested), unfolding(crate::specs::Checks::sizes_check))]
pub(crate) fn check_sizes(system: usize, graphics: usize) -> Result<(), Refusal>
    ensures { result ≡ sizes_check system graphics }
{
    if 16777216 < system {
        return Err(Refusal::SystemTooLong);
    }
    if 16777216 < graphics {
        return Err(Refusal::GraphicsTooLong);
    }
    if system == 0 {
        return Ok(());
    }
    if system < 112 {
        return Err(Refusal::SystemTooShort);
    }
    Ok(())
}

// 4 and 5: the range of each of `count` records is within `len` entries; how many these have together.
#[tactic(auto, using(crate::proofs::Rules::scan_laws), unfolding(crate::specs::Lists::sum_to))]
fn check_ranges<R: Ranged>(records: R, count: usize, len: usize) -> Result<usize, Refusal>
    requires { (count ≤ 65536) × (count ≤ R.size records) }
    ensures { result ≡ total_of (scan R.cause (outside (R.start records) (R.count records) len) 0 count)
        (sum_to (R.count records) count) }
{
    let mut sum = 0;
    for i in 0..count {
        let range = records.range(i);
        if len < range.start + range.count {
            return Err(records.outside(i));
        }
        sum += range.count;
    }
    Ok(sum)
}

#[tactic(auto, using(numbers::proofs::Refusing::tested), unfolding(crate::specs::Checks::arrays_check))]
pub(crate) fn check_arrays(f: FileBytes) -> Result<Counts, Refusal>
    ensures { result ≡ arrays_check f.entry.nodes.n.now f.entry.nodes.l.now f.entry.junctions.j.now
        f.entry.junctions.h.now f.entry.refs.now }
{
    let nodes = f.nodes.n.len() / 40;
    let junctions = f.junctions.j.len() / 12;
    if 65536 < nodes {
        return Err(Refusal::TooManyNodes);
    }
    if 4096 < junctions {
        return Err(Refusal::TooManyJunctions);
    }
    let links = check_ranges(f.nodes, nodes, f.nodes.l.len() / 8)?;
    let heights = check_ranges(f.junctions, junctions, f.junctions.h.len())?;
    Ok(Counts {
        nodes,
        links,
        junctions,
        heights,
        refs: f.refs.len() / 8,
    })
}
