// The numbers of links and refs after renumbering.
ghost use Rattle.std.specs.Prelude.{◌≡◌, map, ℕ, ◌≤◌, length, refl};
ghost use Rattle.cells.specs.Order.{new_number, new_places, renamed};
ghost use Rattle.cells.specs.Nodes.{is_ped, first_area, old_of, relinked, rereffed};
ghost use Rattle.cells.specs.RenumberParts.{Placed};

use crate::area::{belongs_to, own_area};
use crate::link::PathLink;
use crate::node_entry::NodeEntry;
use crate::number_index::{Numbers, index_numbers};
use records::junction_ref::NodeJunctionRef;

// What names a node by area and number: a link, a ref.
pub trait Named: Copy {
    ghost area: { Self → ℕ };

    ghost number: { Self → ℕ };

    ghost renumbered: { Self → ℕ → Self };

    fn area(&self) -> u16
        ensures { result ≡ area self.now };

    fn number(&self) -> u16
        ensures { result ≡ number self.now };

    fn set_number(&mut self, k: u16)
        ensures { self.new ≡ renumbered self.old k };

    // its own number changes nothing
    ghost same: { (x : Self) → renumbered x (number x) ≡ x };
}

impl Named for PathLink {
    ghost area = { λ l. l.area_id };

    ghost number = { λ l. l.node_id };

    ghost renumbered = { λ l k. record l { node_id = k } };

    ghost same = { λ l. refl };

    fn area(&self) -> u16 {
        self.area_id
    }

    fn number(&self) -> u16 {
        self.node_id
    }

    fn set_number(&mut self, k: u16) {
        self.node_id = k;
    }
}

impl Named for NodeJunctionRef {
    ghost area = { λ r. r.area_id };

    ghost number = { λ r. r.node_id };

    ghost renumbered = { λ r k. record r { node_id = k } };

    ghost same = { λ r. refl };

    fn area(&self) -> u16 {
        self.area_id
    }

    fn number(&self) -> u16 {
        self.node_id
    }

    fn set_number(&mut self, k: u16) {
        self.node_id = k;
    }
}

// What the numbers of links and refs are looked up in: the nodes of a cell of the area `own` before they move, and
// each node's new place.
#[derive(Clone, Copy)]
struct Old<'a> {
    numbers: Numbers<'a>,
    own: u16,
    places: &'a [u32],
    ghost placed: { Placed numbers.nodes.now places.now },
    ghost area: { own ≡ first_area numbers.nodes.now },
}

impl Old<'_> {
    // The new number of the last node that had the number `k`; `k` if none had.
    #[tactic(auto, using(crate::proofs::Rules::looked_laws))]
    fn new_number(&self, k: u16) -> u16
        ensures { result ≡ new_number (old_of (length self.now.numbers.nodes.now) self.now.numbers.nodes.now) k }
    {
        match self.numbers.last_with(k) {
            Some(t) => self.places[t] as u16,
            None => k,
        }
    }

    // The links or refs.
    #[tactic(auto, using(crate::proofs::Rules::relink_laws))]
    fn relink_all<T: Named>(&self, list: &mut [T])
        ensures { list.new ≡ map (λ x. T.renumbered x
            (renamed (old_of (length self.now.numbers.nodes.now) self.now.numbers.nodes.now) (T.area x) (T.number x)))
            list.old }
    {
        for x in list.iter_mut() {
            if belongs_to(self.own, x.area()) {
                let k = self.new_number(x.number());
                x.set_number(k);
            }
        }
    }
}

// The links and the refs, by the nodes before they move.
pub(crate) fn relink_lists<'a>(
    nodes: &'a [NodeEntry],
    links: &mut [PathLink],
    refs: &mut [NodeJunctionRef],
    scratch: &'a mut [u32],
    places: &'a [u32],
)
    requires { (length nodes.now ≤ 65536) × (65536 ≤ length scratch.old)
        × (places.now ≡ new_places (map is_ped nodes.now)) }
    ensures { (links.new ≡ map (relinked (old_of (length nodes.now) nodes.now)) links.old)
        × (refs.new ≡ map (rereffed (old_of (length nodes.now) nodes.now)) refs.old) }
{
    let own = own_area(nodes, nodes.len());
    index_numbers(nodes, scratch);
    let old = Old {
        numbers: Numbers { nodes, scratch },
        own,
        places,
    };
    old.relink_all(links);
    old.relink_all(refs);
}
