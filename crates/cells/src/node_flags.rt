// The fields of a node's flags.
#![tactic(auto, unfolding(crate::specs::NodeAccess::disabled))]

ghost use Rattle.std.specs.Prelude.{◌≡◌, ◌*◌, ◌/◌};
ghost use Rattle.cells.specs.Access.{field_of, with_field, has_bit, with_bit};
ghost use Rattle.cells.specs.Nodes.{ped_kind};
ghost use Rattle.cells.specs.Special.{special_of, special_value, speed_of, speed_value};
ghost use Rattle.cells.specs.NodeAccess.{with_flags0, with_flags1, with_flags2, with_flags3, with_flags4};
ghost use Rattle.cells.specs.NodeAccess.{with_flags5, disabled};

use crate::field::{field_of, has_bit, with_bit, with_field};
use crate::node::PathNode;
use crate::node_entry::ped_kind;
use crate::special::{NodeSpecial, NodeSpeed};

impl PathNode {
    // flags0

    pub fn off_road(self) -> bool
        ensures { result ≡ has_bit 3 self.flags0 }
    {
        has_bit(self.flags0, 3)
    }

    pub fn set_off_road(self, on: bool) -> PathNode
        ensures { result ≡ with_flags0 self (with_bit 3 self.flags0 on) }
    {
        PathNode {
            flags0: with_bit(self.flags0, 3, on),
            ..self
        }
    }

    pub fn no_big_vehicles(self) -> bool
        ensures { result ≡ has_bit 5 self.flags0 }
    {
        has_bit(self.flags0, 5)
    }

    pub fn set_no_big_vehicles(self, on: bool) -> PathNode
        ensures { result ≡ with_flags0 self (with_bit 5 self.flags0 on) }
    {
        PathNode {
            flags0: with_bit(self.flags0, 5, on),
            ..self
        }
    }

    pub fn cannot_go_left(self) -> bool
        ensures { result ≡ has_bit 7 self.flags0 }
    {
        has_bit(self.flags0, 7)
    }

    pub fn set_cannot_go_left(self, on: bool) -> PathNode
        ensures { result ≡ with_flags0 self (with_bit 7 self.flags0 on) }
    {
        PathNode {
            flags0: with_bit(self.flags0, 7, on),
            ..self
        }
    }

    // flags1

    pub fn slip_road(self) -> bool
        ensures { result ≡ has_bit 0 self.flags1 }
    {
        has_bit(self.flags1, 0)
    }

    pub fn set_slip_road(self, on: bool) -> PathNode
        ensures { result ≡ with_flags1 self (with_bit 0 self.flags1 on) }
    {
        PathNode {
            flags1: with_bit(self.flags1, 0, on),
            ..self
        }
    }

    pub fn indicate_keep_left(self) -> bool
        ensures { result ≡ has_bit 1 self.flags1 }
    {
        has_bit(self.flags1, 1)
    }

    pub fn set_indicate_keep_left(self, on: bool) -> PathNode
        ensures { result ≡ with_flags1 self (with_bit 1 self.flags1 on) }
    {
        PathNode {
            flags1: with_bit(self.flags1, 1, on),
            ..self
        }
    }

    pub fn indicate_keep_right(self) -> bool
        ensures { result ≡ has_bit 2 self.flags1 }
    {
        has_bit(self.flags1, 2)
    }

    pub fn set_indicate_keep_right(self, on: bool) -> PathNode
        ensures { result ≡ with_flags1 self (with_bit 2 self.flags1 on) }
    {
        PathNode {
            flags1: with_bit(self.flags1, 2, on),
            ..self
        }
    }

    pub fn left_turns_only(self) -> bool
        ensures { result ≡ has_bit 7 self.flags1 }
    {
        has_bit(self.flags1, 7)
    }

    pub fn set_left_turns_only(self, on: bool) -> PathNode
        ensures { result ≡ with_flags1 self (with_bit 7 self.flags1 on) }
    {
        PathNode {
            flags1: with_bit(self.flags1, 7, on),
            ..self
        }
    }

    pub fn special(self) -> NodeSpecial
        ensures { result ≡ special_of (field_of 3 5 self.flags1) }
    {
        NodeSpecial::from(field_of(self.flags1, 3, 5))
    }

    // Of a value over 31 the low five bits are stored.
    pub fn set_special(self, s: NodeSpecial) -> PathNode
        ensures { result ≡ with_flags1 self (with_field 3 5 self.flags1 (special_value s)) }
    {
        PathNode {
            flags1: with_field(self.flags1, 3, 5, s.value()),
            ..self
        }
    }

    pub fn is_ped_node(self) -> bool
        ensures { result ≡ ped_kind (self.flags1 / 8) }
    {
        ped_kind(self.flags1 / 8)
    }

    // flags2

    pub fn no_gps(self) -> bool
        ensures { result ≡ has_bit 0 self.flags2 }
    {
        has_bit(self.flags2, 0)
    }

    pub fn set_no_gps(self, on: bool) -> PathNode
        ensures { result ≡ with_flags2 self (with_bit 0 self.flags2 on) }
    {
        PathNode {
            flags2: with_bit(self.flags2, 0, on),
            ..self
        }
    }

    pub fn is_junction(self) -> bool
        ensures { result ≡ has_bit 2 self.flags2 }
    {
        has_bit(self.flags2, 2)
    }

    pub fn set_is_junction(self, on: bool) -> PathNode
        ensures { result ≡ with_flags2 self (with_bit 2 self.flags2 on) }
    {
        PathNode {
            flags2: with_bit(self.flags2, 2, on),
            ..self
        }
    }

    pub fn is_disabled_unk1(self) -> bool
        ensures { result ≡ has_bit 4 self.flags2 }
    {
        has_bit(self.flags2, 4)
    }

    pub fn highway(self) -> bool
        ensures { result ≡ has_bit 6 self.flags2 }
    {
        has_bit(self.flags2, 6)
    }

    pub fn set_highway(self, on: bool) -> PathNode
        ensures { result ≡ with_flags2 self (with_bit 6 self.flags2 on) }
    {
        PathNode {
            flags2: with_bit(self.flags2, 6, on),
            ..self
        }
    }

    pub fn is_disabled_unk0(self) -> bool
        ensures { result ≡ has_bit 7 self.flags2 }
    {
        has_bit(self.flags2, 7)
    }

    pub fn is_disabled(self) -> bool
        ensures { result ≡ disabled self.flags2 }
    {
        self.is_disabled_unk0() || self.is_disabled_unk1()
    }

    // flags3

    pub fn tunnel(self) -> bool
        ensures { result ≡ has_bit 0 self.flags3 }
    {
        has_bit(self.flags3, 0)
    }

    pub fn set_tunnel(self, on: bool) -> PathNode
        ensures { result ≡ with_flags3 self (with_bit 0 self.flags3 on) }
    {
        PathNode {
            flags3: with_bit(self.flags3, 0, on),
            ..self
        }
    }

    pub fn heuristic_value(self) -> u8
        ensures { result ≡ field_of 1 7 self.flags3 }
    {
        field_of(self.flags3, 1, 7)
    }

    pub fn set_heuristic_value(self, v: u8) -> PathNode
        ensures { result ≡ with_flags3 self (with_field 1 7 self.flags3 v) }
    {
        PathNode {
            flags3: with_field(self.flags3, 1, 7, v),
            ..self
        }
    }

    // flags4

    pub fn density(self) -> u8
        ensures { result ≡ field_of 0 4 self.flags4 }
    {
        field_of(self.flags4, 0, 4)
    }

    pub fn set_density(self, v: u8) -> PathNode
        ensures { result ≡ with_flags4 self (with_field 0 4 self.flags4 v) }
    {
        PathNode {
            flags4: with_field(self.flags4, 0, 4, v),
            ..self
        }
    }

    #[tactic(auto, using(crate::proofs::Forms::FieldLaws::field_below))]
    pub fn dead_endness(self) -> u8
        ensures { result ≡ field_of 4 3 self.flags4 * 16 }
    {
        field_of(self.flags4, 4, 3) * 16
    }

    // flags5

    pub fn speed(self) -> NodeSpeed
        ensures { result ≡ speed_of (field_of 1 2 self.flags5) }
    {
        NodeSpeed::from(field_of(self.flags5, 1, 2))
    }

    pub fn set_speed(self, s: NodeSpeed) -> PathNode
        ensures { result ≡ with_flags5 self (with_field 1 2 self.flags5 (speed_value s)) }
    {
        PathNode {
            flags5: with_field(self.flags5, 1, 2, s.value()),
            ..self
        }
    }
}
