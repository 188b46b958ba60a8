// Lookups in a set's member (T-09). Nothing found leaves what was lent for it, and says so.
ghost use Rattle.std.specs.Prelude.{◌≡◌};
ghost use Rattle.sets.specs.CellSet.{cell_set};
ghost use Rattle.sets.specs.Lent.{Unlent};
ghost use Rattle.sets.specs.MemberLookup.{area_id_member, node_member, junction_of_member};
ghost use Rattle.exports.specs.Found.{told, whether, whether_told};

use crate::lookups::tell_found;
use cells::node_entry::NodeEntry;
use records::junction_ref::NodeJunctionRef;

// The member's area, its first node's.
#[unsafe(no_mangle)]
pub extern "C" fn ynd_member_area(
    members: &[[u32; 20]],
    nodes: &[NodeEntry],
    member: usize,
    found: &mut bool,
    area: &mut u32,
    place: &mut usize,
) -> u32
    ensures { (u : Unlent members.now)
        → told result place.new (whether found.new area.new)
        ≡ whether_told (area_id_member (cell_set members.now nodes.now u.links u.junctions u.heights u.refs) member)
        found.old area.old }
{
    let r = sets::lookup_member::area_id_member(members, nodes, member);
    tell_found(r, found, area, place)
}

// The place of the member's node that has the number.
#[unsafe(no_mangle)]
pub extern "C" fn ynd_member_node(
    members: &[[u32; 20]],
    nodes: &[NodeEntry],
    member: usize,
    node_id: u16,
    found: &mut bool,
    at: &mut usize,
    place: &mut usize,
) -> u32
    ensures { (u : Unlent members.now)
        → told result place.new (whether found.new at.new)
        ≡ whether_told (node_member (cell_set members.now nodes.now u.links u.junctions u.heights u.refs) member
        node_id) found.old at.old }
{
    let r = sets::lookup_member::node_member(members, nodes, member, node_id);
    tell_found(r, found, at, place)
}

// The place of the junction that the member's refs give the node.
#[unsafe(no_mangle)]
pub extern "C" fn ynd_member_junction_of(
    members: &[[u32; 20]],
    nodes: &[NodeEntry],
    refs: &[NodeJunctionRef],
    member: usize,
    area_id: u16,
    node_id: u16,
    found: &mut bool,
    at: &mut usize,
    place: &mut usize,
) -> u32
    ensures { (u : Unlent members.now)
        → told result place.new (whether found.new at.new)
        ≡ whether_told (junction_of_member (cell_set members.now nodes.now u.links u.junctions u.heights refs.now)
        member area_id node_id) found.old at.old }
{
    let r = sets::lookup_member::junction_of_member(members, nodes, refs, member, area_id, node_id);
    tell_found(r, found, at, place)
}
