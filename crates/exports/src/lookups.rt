// Lookups. Nothing found leaves what was lent for it, and says so.
ghost use Rattle.std.specs.Prelude.{◌≡◌};
ghost use Rattle.cells.specs.LookupCall.{area_id_call, node_call, junction_of_call};
ghost use Rattle.exports.specs.Found.{told, whether, whether_told};

use crate::answers::refuse;
use cells::node_entry::NodeEntry;
use cells::ynd::Ynd;
use numbers::refusal::Refusal;
use records::junction_ref::NodeJunctionRef;

// Put in line, so that what was found goes straight to the caller and not through memory.
#[inline(always)]
pub(crate) fn tell_found<T: Copy>(
    r: Result<Option<T>, Refusal>,
    found: &mut bool,
    at: &mut T,
    place: &mut usize,
) -> u32
    ensures { told result place.new (whether found.new at.new) ≡ whether_told r found.old at.old }
{
    match r {
        Ok(Some(x)) => {
            *found = true;
            *at = x;
            *place = 0;
            0
        }
        Ok(None) => {
            *found = false;
            *place = 0;
            0
        }
        Err(refusal) => refuse(refusal, place),
    }
}

// The place of the node that has the number.
#[unsafe(no_mangle)]
pub extern "C" fn ynd_node(
    ynd: &Ynd,
    nodes: &[NodeEntry],
    node_id: u16,
    found: &mut bool,
    at: &mut usize,
    place: &mut usize,
) -> u32
    ensures { told result place.new (whether found.new at.new)
        ≡ whether_told (node_call ynd.now nodes.now node_id) found.old at.old }
{
    let r = cells::lookup::node(*ynd, nodes, node_id);
    tell_found(r, found, at, place)
}

// The place of the junction that the refs give the node.
#[unsafe(no_mangle)]
pub extern "C" fn ynd_junction_of(
    ynd: &Ynd,
    nodes: &[NodeEntry],
    refs: &[NodeJunctionRef],
    area_id: u16,
    node_id: u16,
    found: &mut bool,
    at: &mut usize,
    place: &mut usize,
) -> u32
    ensures { told result place.new (whether found.new at.new)
        ≡ whether_told (junction_of_call ynd.now nodes.now refs.now area_id node_id) found.old at.old }
{
    let r = cells::lookup::junction_of(*ynd, nodes, refs, area_id, node_id);
    tell_found(r, found, at, place)
}

// The area of the first node.
#[unsafe(no_mangle)]
pub extern "C" fn ynd_area_of_cell(
    ynd: &Ynd,
    nodes: &[NodeEntry],
    found: &mut bool,
    area: &mut u32,
    place: &mut usize,
) -> u32
    ensures { told result place.new (whether found.new area.new)
        ≡ whether_told (area_id_call ynd.now nodes.now) found.old area.old }
{
    let r = cells::lookup::area_id(*ynd, nodes);
    tell_found(r, found, area, place)
}
