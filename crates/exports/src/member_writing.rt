// A set's member written, and written then read (T-09).
ghost use Rattle.std.specs.Prelude.{◌≡◌};
ghost use Rattle.sets.specs.CellSet.{cell_set};
ghost use Rattle.sets.specs.WriteMember.{write_member, write_read_member};
ghost use Rattle.exports.specs.Found.{told, value_told};
ghost use Rattle.exports.specs.SetTold.{rewritten_told};

use crate::answers::tell;
use cells::junction_entry::JunctionEntry;
use cells::link::PathLink;
use cells::node_entry::NodeEntry;
use records::junction_ref::NodeJunctionRef;

// Writes the member into the section; `length` gets how many bytes were written.
#[unsafe(no_mangle)]
pub extern "C" fn ynd_member_write(
    members: &[[u32; 20]],
    nodes: &[NodeEntry],
    links: &[PathLink],
    junctions: &[JunctionEntry],
    heights: &[u8],
    refs: &[NodeJunctionRef],
    member: usize,
    section: &mut [u8],
    length: &mut usize,
    place: &mut usize,
) -> u32
    ensures answer { told result place.new length.new
        ≡ value_told
        (write_member (cell_set members.now nodes.now links.now junctions.now heights.now refs.now) member
        section.old).answer length.old }
    ensures section_after { section.new
        ≡ (write_member (cell_set members.now nodes.now links.now junctions.now heights.now refs.now) member
        section.old).section }
{
    let r = sets::write_member::write_member(
        members, nodes, links, junctions, heights, refs, section, member,
    );
    tell(r, length, place)
}

// Writes the member into the section, and reads just what it wrote into the member's own parts.
#[unsafe(no_mangle)]
pub extern "C" fn ynd_member_write_then_read(
    members: &mut [[u32; 20]],
    nodes: &mut [NodeEntry],
    links: &mut [PathLink],
    junctions: &mut [JunctionEntry],
    heights: &mut [u8],
    refs: &mut [NodeJunctionRef],
    member: usize,
    section: &mut [u8],
    length: &mut usize,
    place: &mut usize,
) -> u32
    ensures lists_after { told result place.new
        (cell_set members.new nodes.new links.new junctions.new heights.new refs.new)
        ≡ rewritten_told
        (write_read_member (cell_set members.old nodes.old links.old junctions.old heights.old refs.old) member
        section.old) }
    ensures answer { told result place.new length.new
        ≡ value_told
        (write_read_member (cell_set members.old nodes.old links.old junctions.old heights.old refs.old) member
        section.old).answer length.old }
    ensures section_after { section.new
        ≡ (write_read_member (cell_set members.old nodes.old links.old junctions.old heights.old refs.old) member
        section.old).section }
{
    let r = sets::write_member::write_then_read_member(
        members, nodes, links, junctions, heights, refs, section, member,
    );
    tell(r, length, place)
}
