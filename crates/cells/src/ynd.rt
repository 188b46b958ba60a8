// A cell's own words and counts; its entries stand in five lent lists beside it.
ghost use Rattle.std.specs.Prelude.{◌≡◌};
ghost use Rattle.cells.specs.NewYnd.{new_ynd};
ghost use Rattle.cells.specs.Memory.{counts_of};
ghost use Rattle.cells.specs.OwnWords.{with_vft, with_vehicles, with_peds, with_unknowns};

use crate::counts::Counts;

pub const NODE_DICTIONARY_VFT: u32 = 0x4061_E3B0;

#[repr(C)]
#[derive(Clone, Copy)]
pub struct Ynd {
    pub vft: u32,
    pub vehicle_node_count: u32,
    pub ped_node_count: u32,
    // unk24, unk34, unk48, unk4c, unk5c, unk68, unk6c
    pub unknowns: [u32; 7],
    pub node_count: u32,
    pub link_count: u32,
    pub junction_count: u32,
    pub heightmap_count: u32,
    pub ref_count: u32,
}

impl Ynd {
    // A cell that holds nothing.
    #[tactic(auto, unfolding(crate::specs::NewYnd::new_ynd))]
    pub fn new() -> Ynd
        ensures { result ≡ new_ynd }
    {
        let unknowns = [0, 0, 1, 0, 0, 0, 0];
        Ynd {
            vft: NODE_DICTIONARY_VFT,
            vehicle_node_count: 0,
            ped_node_count: 0,
            unknowns,
            node_count: 0,
            link_count: 0,
            junction_count: 0,
            heightmap_count: 0,
            ref_count: 0,
        }
    }

    // How many entries of each list it has.
    pub fn counts(self) -> Counts
        ensures { result ≡ counts_of self }
    {
        Counts {
            nodes: self.node_count as usize,
            links: self.link_count as usize,
            junctions: self.junction_count as usize,
            heights: self.heightmap_count as usize,
            refs: self.ref_count as usize,
        }
    }

    // The cell's own words, each stored as it is given; renumbering alone sets both counts by the nodes.
    #[tactic(auto, unfolding(crate::specs::OwnWords::with_own))]
    pub fn set_vft(self, vft: u32) -> Ynd
        ensures { result ≡ with_vft self vft }
    {
        Ynd { vft, ..self }
    }

    #[tactic(auto, unfolding(crate::specs::OwnWords::with_own))]
    pub fn set_vehicle_node_count(self, count: u32) -> Ynd
        ensures { result ≡ with_vehicles self count }
    {
        Ynd {
            vehicle_node_count: count,
            ..self
        }
    }

    #[tactic(auto, unfolding(crate::specs::OwnWords::with_own))]
    pub fn set_ped_node_count(self, count: u32) -> Ynd
        ensures { result ≡ with_peds self count }
    {
        Ynd {
            ped_node_count: count,
            ..self
        }
    }

    #[tactic(auto, unfolding(crate::specs::OwnWords::with_own))]
    pub fn set_unknowns(self, u: [u32; 7]) -> Ynd
        ensures { result ≡ with_unknowns self u }
    {
        Ynd {
            unknowns: u,
            ..self
        }
    }
}
