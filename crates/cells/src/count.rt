// How much a file holds, by all of reading's checks but 7, with nothing stored.
ghost use Rattle.std.specs.Prelude.{◌≡◌};
ghost use Rattle.cells.specs.Checks.{count_of};

use crate::arrays::find_arrays;
use crate::checks::{check_arrays, check_sizes};
use crate::counts::Counts;
use crate::root::read_root;
use numbers::refusal::Refusal;

// Reading's checks except 7: how many nodes, links, junctions, values and refs the file holds.
#[tactic(auto, unfolding(crate::specs::Checks::count_of))]
pub fn count<'a>(system: &'a [u8], graphics: &'a [u8]) -> Result<Counts, Refusal>
    ensures { result ≡ count_of system.now graphics.now }
{
    check_sizes(system.len(), graphics.len())?;
    let root = read_root(system);
    let a = find_arrays(root, system.len(), graphics.len())?;
    check_arrays(a.bytes(system, graphics))
}
