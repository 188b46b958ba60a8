// The fields of a link's flags.
ghost use Rattle.std.specs.Prelude.{◌≡◌};
ghost use Rattle.numbers.specs.Lane.{lane_offset};
ghost use Rattle.numbers.specs.Lengths.{length_of};
ghost use Rattle.numbers.specs.Squares.{squared};
ghost use Rattle.cells.specs.Access.{field_of, with_field, has_bit, with_bit};
ghost use Rattle.cells.specs.LinkAccess.{link_to, with_flags2, two_way};

use crate::field::{field_of, has_bit, with_bit, with_field};
use crate::link::PathLink;
use numbers::math::Vec3;
use numbers::{lane, length};

impl PathLink {
    // A link to a node, with no flags.
    #[tactic(auto, unfolding(crate::specs::LinkAccess::link_to))]
    pub fn to(area_id: u16, node_id: u16) -> PathLink
        ensures { result ≡ link_to area_id node_id }
    {
        PathLink {
            area_id,
            node_id,
            ..PathLink::default()
        }
    }

    // The length of a link between two nodes.
    pub fn length_between(a: Vec3, b: Vec3) -> u8
        ensures { result ≡ length_of (squared a b) }
    {
        length::length_between(a, b)
    }

    // flags0

    pub fn gps_both_ways(self) -> bool
        ensures { result ≡ has_bit 0 self.flags0 }
    {
        has_bit(self.flags0, 0)
    }

    // flags1

    pub fn narrow_road(self) -> bool
        ensures { result ≡ has_bit 1 self.flags1 }
    {
        has_bit(self.flags1, 1)
    }

    pub fn offset_value(self) -> u8
        ensures { result ≡ field_of 4 3 self.flags1 }
    {
        field_of(self.flags1, 4, 3)
    }

    pub fn negative_offset(self) -> bool
        ensures { result ≡ has_bit 7 self.flags1 }
    {
        has_bit(self.flags1, 7)
    }

    pub fn lane_offset(self) -> f32
        ensures { result ≡ lane_offset (field_of 4 3 self.flags1) (has_bit 7 self.flags1) }
    {
        lane::lane_offset(self.offset_value(), self.negative_offset())
    }

    // flags2

    pub fn dont_use_for_navigation(self) -> bool
        ensures { result ≡ has_bit 0 self.flags2 }
    {
        has_bit(self.flags2, 0)
    }

    pub fn shortcut(self) -> bool
        ensures { result ≡ has_bit 1 self.flags2 }
    {
        has_bit(self.flags2, 1)
    }

    #[tactic(auto, unfolding(crate::specs::LinkAccess::with_flags2))]
    pub fn set_shortcut(self, on: bool) -> PathLink
        ensures { result ≡ with_flags2 self (with_bit 1 self.flags2 on) }
    {
        PathLink {
            flags2: with_bit(self.flags2, 1, on),
            ..self
        }
    }

    pub fn lane_count_backward(self) -> u8
        ensures { result ≡ field_of 2 3 self.flags2 }
    {
        field_of(self.flags2, 2, 3)
    }

    #[tactic(auto, unfolding(crate::specs::LinkAccess::with_flags2))]
    pub fn set_lane_count_backward(self, n: u8) -> PathLink
        ensures { result ≡ with_flags2 self (with_field 2 3 self.flags2 n) }
    {
        PathLink {
            flags2: with_field(self.flags2, 2, 3, n),
            ..self
        }
    }

    pub fn lane_count_forward(self) -> u8
        ensures { result ≡ field_of 5 3 self.flags2 }
    {
        field_of(self.flags2, 5, 3)
    }

    #[tactic(auto, unfolding(crate::specs::LinkAccess::with_flags2))]
    pub fn set_lane_count_forward(self, n: u8) -> PathLink
        ensures { result ≡ with_flags2 self (with_field 5 3 self.flags2 n) }
    {
        PathLink {
            flags2: with_field(self.flags2, 5, 3, n),
            ..self
        }
    }

    #[tactic(auto, unfolding(crate::specs::LinkAccess::two_way))]
    pub fn is_two_way(self) -> bool
        ensures { result ≡ two_way self.flags2 }
    {
        self.lane_count_forward() > 0 && self.lane_count_backward() > 0
    }
}
