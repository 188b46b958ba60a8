// The kinds of node that flags1 tells apart, and the speeds of flags5.
ghost use Rattle.std.specs.Prelude.{◌≡◌};
ghost use Rattle.cells.specs.Special.{special_of, special_value, is_ped_special, speed_of, speed_value};

#[derive(Clone, Copy, PartialEq, Eq, Debug)]
pub enum NodeSpecial {
    None,
    ParkingSpace,
    PedNodeRoadCrossing,
    PedNodeAssistedMovement,
    TrafficLightJunctionStop,
    StopSign,
    Caution,
    PedRoadCrossingNoWait,
    EmergencyVehiclesOnly,
    OffRoadJunction,
    Other(u8),
}

impl From<u8> for NodeSpecial {
    ghost from_gives = { λ v s. s ≡ special_of v };

    #[tactic(auto, unfolding(crate::specs::Special::special_of))]
    fn from(v: u8) -> NodeSpecial {
        match v {
            0 => NodeSpecial::None,
            2 => NodeSpecial::ParkingSpace,
            10 => NodeSpecial::PedNodeRoadCrossing,
            14 => NodeSpecial::PedNodeAssistedMovement,
            15 => NodeSpecial::TrafficLightJunctionStop,
            16 => NodeSpecial::StopSign,
            17 => NodeSpecial::Caution,
            18 => NodeSpecial::PedRoadCrossingNoWait,
            19 => NodeSpecial::EmergencyVehiclesOnly,
            20 => NodeSpecial::OffRoadJunction,
            n => NodeSpecial::Other(n),
        }
    }
}

impl NodeSpecial {
    pub fn from_value(v: u8) -> NodeSpecial
        ensures { result ≡ special_of v }
    {
        NodeSpecial::from(v)
    }

    pub fn value(self) -> u8
        ensures { result ≡ special_value self }
    {
        match self {
            NodeSpecial::None => 0,
            NodeSpecial::ParkingSpace => 2,
            NodeSpecial::PedNodeRoadCrossing => 10,
            NodeSpecial::PedNodeAssistedMovement => 14,
            NodeSpecial::TrafficLightJunctionStop => 15,
            NodeSpecial::StopSign => 16,
            NodeSpecial::Caution => 17,
            NodeSpecial::PedRoadCrossingNoWait => 18,
            NodeSpecial::EmergencyVehiclesOnly => 19,
            NodeSpecial::OffRoadJunction => 20,
            NodeSpecial::Other(n) => n,
        }
    }

    pub fn is_ped(self) -> bool
        ensures { result ≡ is_ped_special self }
    {
        matches!(
            self,
            NodeSpecial::PedNodeRoadCrossing
                | NodeSpecial::PedNodeAssistedMovement
                | NodeSpecial::PedRoadCrossingNoWait
        )
    }
}

#[derive(Clone, Copy, PartialEq, Eq, Debug)]
pub enum NodeSpeed {
    Slow,
    Normal,
    Fast,
    Faster,
}

impl From<u8> for NodeSpeed {
    ghost from_gives = { λ v s. s ≡ speed_of v };

    // A speed over 3 is 3.
    #[tactic(auto, unfolding(crate::specs::Special::speed_of))]
    fn from(v: u8) -> NodeSpeed {
        match v {
            0 => NodeSpeed::Slow,
            1 => NodeSpeed::Normal,
            2 => NodeSpeed::Fast,
            _ => NodeSpeed::Faster,
        }
    }
}

impl NodeSpeed {
    pub fn value(self) -> u8
        ensures { result ≡ speed_value self }
    {
        self as u8
    }
}
