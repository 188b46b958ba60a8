// Areas: the cell's own, and which links and refs belong to it. No other file compares the area of a link or a ref.
ghost use Rattle.std.specs.Prelude.{◌≡◌, take};
ghost use Rattle.cells.specs.Area.{belongs, ref_for};
ghost use Rattle.cells.specs.Nodes.{first_area};

use crate::node_entry::NodeEntry;

// Whether a link or a ref of this area belongs to a cell of the area `own`: in full or, on an island, without its bit.
#[tactic(auto, using(numbers::proofs::Refusing::tested), unfolding(crate::specs::Area::belongs))]
pub fn belongs_to(own: u16, area: u16) -> bool
    ensures { result ≡ belongs own area }
{
    area == own || own / 1024 % 2 == 1 && area == own - 1024
}

// In a cell of the area `own`, whether a ref of this area is one for `area_id`; one that belongs to the cell names
// `own`.
#[tactic(auto, unfolding(crate::specs::Area::ref_for))]
pub fn ref_for(own: u16, area: u16, area_id: u16) -> bool
    ensures { result ≡ ref_for own area area_id }
{
    if belongs_to(own, area) {
        own == area_id
    } else {
        area == area_id
    }
}

// The area of the first of n nodes, 0 if there is none.
#[tactic(auto, using(crate::proofs::Lookups::AreaLaws::own_areas))]
pub fn own_area(nodes: &[NodeEntry], n: usize) -> u16
    ensures { result ≡ first_area (take n nodes.now) }
{
    if n == 0 || nodes.is_empty() {
        return 0;
    }
    nodes[0].area_id
}
