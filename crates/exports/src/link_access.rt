// The fields of a link's flags.
ghost use Rattle.std.specs.Prelude.{◌≡◌};
ghost use Rattle.numbers.specs.Lane.{lane_offset};
ghost use Rattle.cells.specs.Access.{field_of, with_field, has_bit, with_bit};
ghost use Rattle.cells.specs.LinkAccess.{link_to, with_flags2, two_way};

use cells::link::PathLink;

#[unsafe(no_mangle)]
pub extern "C" fn ynd_link_gps_both_ways(link: &PathLink) -> bool
    ensures { result ≡ has_bit 0 link.now.flags0 }
{
    link.gps_both_ways()
}

#[unsafe(no_mangle)]
pub extern "C" fn ynd_link_narrow_road(link: &PathLink) -> bool
    ensures { result ≡ has_bit 1 link.now.flags1 }
{
    link.narrow_road()
}

#[unsafe(no_mangle)]
pub extern "C" fn ynd_link_offset_value(link: &PathLink) -> u8
    ensures { result ≡ field_of 4 3 link.now.flags1 }
{
    link.offset_value()
}

#[unsafe(no_mangle)]
pub extern "C" fn ynd_link_negative_offset(link: &PathLink) -> bool
    ensures { result ≡ has_bit 7 link.now.flags1 }
{
    link.negative_offset()
}

#[unsafe(no_mangle)]
pub extern "C" fn ynd_link_lane_offset(link: &PathLink) -> f32
    ensures { result ≡ lane_offset (field_of 4 3 link.now.flags1) (has_bit 7 link.now.flags1) }
{
    link.lane_offset()
}

#[unsafe(no_mangle)]
pub extern "C" fn ynd_link_dont_use_for_navigation(link: &PathLink) -> bool
    ensures { result ≡ has_bit 0 link.now.flags2 }
{
    link.dont_use_for_navigation()
}

#[unsafe(no_mangle)]
pub extern "C" fn ynd_link_shortcut(link: &PathLink) -> bool
    ensures { result ≡ has_bit 1 link.now.flags2 }
{
    link.shortcut()
}

#[unsafe(no_mangle)]
pub extern "C" fn ynd_link_lane_count_backward(link: &PathLink) -> u8
    ensures { result ≡ field_of 2 3 link.now.flags2 }
{
    link.lane_count_backward()
}

#[unsafe(no_mangle)]
pub extern "C" fn ynd_link_lane_count_forward(link: &PathLink) -> u8
    ensures { result ≡ field_of 5 3 link.now.flags2 }
{
    link.lane_count_forward()
}

#[unsafe(no_mangle)]
pub extern "C" fn ynd_link_is_two_way(link: &PathLink) -> bool
    ensures { result ≡ two_way link.now.flags2 }
{
    link.is_two_way()
}

#[unsafe(no_mangle)]
pub extern "C" fn ynd_link_set_shortcut(link: &mut PathLink, on: bool)
    ensures { link.new ≡ with_flags2 link.old (with_bit 1 link.old.flags2 on) }
{
    *link = link.set_shortcut(on);
}

#[unsafe(no_mangle)]
pub extern "C" fn ynd_link_set_lane_count_backward(link: &mut PathLink, n: u8)
    ensures { link.new ≡ with_flags2 link.old (with_field 2 3 link.old.flags2 n) }
{
    *link = link.set_lane_count_backward(n);
}

#[unsafe(no_mangle)]
pub extern "C" fn ynd_link_set_lane_count_forward(link: &mut PathLink, n: u8)
    ensures { link.new ≡ with_flags2 link.old (with_field 5 3 link.old.flags2 n) }
{
    *link = link.set_lane_count_forward(n);
}

// A link to a node, with no flags.
#[unsafe(no_mangle)]
pub extern "C" fn ynd_link_to(area_id: u16, node_id: u16, link: &mut PathLink)
    ensures { link.new ≡ link_to area_id node_id }
{
    *link = PathLink::to(area_id, node_id);
}
