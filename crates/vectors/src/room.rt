// A cell, the lists that are lent for it, and room for them.
use crate::parts::upto_mut;
use cells::counts::Counts;
use cells::junction::PathJunction;
use cells::junction_entry::JunctionEntry;
use cells::link::PathLink;
use cells::node_entry::NodeEntry;
use cells::ynd::Ynd;
use numbers::math::Vec3;
use numbers::refusal::Refusal;
use records::junction_ref::NodeJunctionRef;

// Room for so many nodes, links, junctions, heightmap values and refs.
#[derive(Drop)]
pub(crate) struct Room<
    const N: usize,
    const L: usize,
    const J: usize,
    const H: usize,
    const R: usize,
> {
    nodes: [NodeEntry; N],
    links: [PathLink; L],
    junctions: [JunctionEntry; J],
    heights: [u8; H],
    refs: [NodeJunctionRef; R],
}

// Room for each small file of the record.
pub(crate) type SmallRoom = Room<64, 256, 16, 512, 64>;

impl<const N: usize, const L: usize, const J: usize, const H: usize, const R: usize> Room<
    N,
    L,
    J,
    H,
    R,
> {
    pub(crate) fn new() -> Self {
        Room {
            nodes: [NodeEntry::default(); N],
            links: [PathLink::default(); L],
            junctions: [JunctionEntry::default(); J],
            heights: [0; H],
            refs: [NodeJunctionRef::default(); R],
        }
    }

    // A new cell, lent all of the room.
    pub(crate) fn cell(&mut self) -> Cell<'_> {
        Cell {
            ynd: Ynd::new(),
            nodes: &mut self.nodes,
            links: &mut self.links,
            junctions: &mut self.junctions,
            heights: &mut self.heights,
            refs: &mut self.refs,
        }
    }
}

// A cell and the lists that are lent for it.
#[derive(Drop)]
pub(crate) struct Cell<'a> {
    pub(crate) ynd: Ynd,
    pub(crate) nodes: &'a mut [NodeEntry],
    pub(crate) links: &'a mut [PathLink],
    pub(crate) junctions: &'a mut [JunctionEntry],
    pub(crate) heights: &'a mut [u8],
    pub(crate) refs: &'a mut [NodeJunctionRef],
}

// What renumbering and writing are lent.
#[derive(Drop)]
pub(crate) struct Desk<'a> {
    pub(crate) scratch: &'a mut [u32],
    pub(crate) places: &'a mut [u32],
    pub(crate) section: &'a mut [u8],
}

impl<'a> Cell<'a> {
    // Its lists, cut to these lengths, each whole where it is shorter.
    pub(crate) fn cut(self, lent: Counts) -> Cell<'a> {
        Cell {
            ynd: self.ynd,
            nodes: upto_mut(self.nodes, lent.nodes),
            links: upto_mut(self.links, lent.links),
            junctions: upto_mut(self.junctions, lent.junctions),
            heights: upto_mut(self.heights, lent.heights),
            refs: upto_mut(self.refs, lent.refs),
        }
    }

    pub(crate) fn read(&mut self, system: &[u8], graphics: &[u8]) -> Result<(), Refusal> {
        self.ynd = cells::read::read(
            self.ynd,
            system,
            graphics,
            self.nodes,
            self.links,
            self.junctions,
            self.heights,
            self.refs,
        )?;
        Ok(())
    }

    pub(crate) fn write(&self, section: &mut [u8]) -> Result<usize, Refusal> {
        cells::write::write(
            self.ynd,
            self.nodes,
            self.links,
            self.junctions,
            self.heights,
            self.refs,
            section,
        )
    }

    // Written into a section and read back from it.
    pub(crate) fn write_then_read(&mut self, section: &mut [u8]) -> Result<(), Refusal> {
        let back = cells::write_read::write_then_read(
            self.ynd,
            self.nodes,
            self.links,
            self.junctions,
            self.heights,
            self.refs,
            section,
        )?;
        self.ynd = back.ynd;
        Ok(())
    }

    pub(crate) fn renumber(&mut self, desk: &mut Desk<'_>) -> Result<(), Refusal> {
        // As `&mut`: a `&` beside the `&mut` of another field has no rule yet.
        let junctions = &mut *self.junctions;
        let heights = &mut *self.heights;
        self.ynd = cells::renumber::recalculate_node_indices(
            self.ynd,
            self.nodes,
            self.links,
            junctions,
            heights,
            self.refs,
            desk.scratch,
            desk.places,
        )?;
        Ok(())
    }

    pub(crate) fn add_node(&mut self, number: u16, at: Vec3) -> Result<(), Refusal> {
        self.ynd = cells::add_node::add_node(self.ynd, self.nodes, number, at)?;
        Ok(())
    }

    pub(crate) fn add_link(&mut self, place: usize, link: PathLink) -> Result<(), Refusal> {
        self.ynd = cells::add_link::add_link(self.ynd, self.nodes, self.links, place, link)?;
        Ok(())
    }

    pub(crate) fn add_ref(&mut self, r: NodeJunctionRef) -> Result<(), Refusal> {
        self.ynd = cells::add_ref::add_ref(self.ynd, self.refs, r)?;
        Ok(())
    }

    pub(crate) fn junction(&self, place: usize) -> Result<PathJunction, Refusal> {
        cells::get::get_junction(self.ynd, self.junctions, place)
    }

    // The k-th value of the junction at a place.
    pub(crate) fn height(&self, place: usize, k: usize) -> Result<u8, Refusal> {
        cells::get::get_height(self.ynd, self.junctions, self.heights, place, k)
    }

    pub(crate) fn add_junction(&mut self, j: PathJunction, values: &[u8]) -> Result<(), Refusal> {
        self.ynd = cells::add_junction::add_junction(
            self.ynd,
            self.junctions,
            self.heights,
            j,
            values,
        )?;
        Ok(())
    }
}
