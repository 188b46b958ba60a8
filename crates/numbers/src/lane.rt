// The lane offset of a link, as the Rust's `PathLink::lane_offset` works it out of its two fields.
ghost use Rattle.std.specs.Prelude.{◌≡◌};
ghost use Rattle.numbers.specs.Lane.{lane_offset};

pub fn lane_offset(offset_value: u8, negative: bool) -> f32
    ensures { result ≡ lane_offset offset_value negative }
{
    let value = offset_value as f32 / 7.0;
    if negative { value * -0.5 } else { value * 0.5 }
}
