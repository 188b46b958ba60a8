// The root of a system section: of no bytes it is that of a yard not drawn yet (T-02).
ghost use Rattle.std.specs.Prelude.{◌≡◌};
ghost use Rattle.cells.specs.NewYnd.{new_root};
ghost use Rattle.cells.specs.Checks.{root_read, sizes_check};

use crate::checks::check_sizes;
use crate::ynd::Ynd;
use numbers::refusal::Refusal;
use records::root::{Root, root_of};

// The root of a section that holds nothing yet.
#[tactic(auto, unfolding(crate::specs::NewYnd::new_root))]
fn new_root() -> Root
    ensures { result ≡ new_root }
{
    let y = Ynd::new();
    let unknowns = y.unknowns;
    Root {
        vft: y.vft,
        vehicle_node_count: y.vehicle_node_count,
        ped_node_count: y.ped_node_count,
        unknowns,
        ..Root::default()
    }
}

// The root that reading goes by.
pub fn read_root(system: &[u8]) -> Root
    ensures { result ≡ root_read system.now }
{
    if system.len() == 0 {
        return new_root();
    }
    root_of(system)
}

// Whether a system section of so many bytes has a root: 2, 1.
pub fn check_root(system: usize) -> Result<(), Refusal>
    ensures { result ≡ sizes_check system 0 }
{
    check_sizes(system, 0)
}
