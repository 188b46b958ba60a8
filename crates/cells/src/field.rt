// A field in the bits of a byte.
ghost use Rattle.std.specs.Prelude.{◌≡◌, ◌+◌, ◌^◌, ◌≤◌, ◌<◌};
ghost use Rattle.cells.specs.Access.{field_of, with_field, has_bit, with_bit};

fn power(k: u8) -> u16
    requires { k ≤ 8 }
    ensures { result ≡ 2 ^ k }
{
    1 << k
}

#[tactic(auto, unfolding(crate::specs::Access::field_of))]
pub(crate) fn field_of(f: u8, low: u8, width: u8) -> u8
    requires { low + width ≤ 8 }
    ensures { result ≡ field_of low width f }
{
    let unit = power(low);
    let size = power(width);
    (f as u16 / unit % size) as u8
}

#[tactic(auto, using(crate::proofs::Forms::FieldLaws::byte_fits), unfolding(crate::specs::Access::with_field))]
pub(crate) fn with_field(f: u8, low: u8, width: u8, v: u8) -> u8
    requires { low + width ≤ 8 }
    ensures { result ≡ with_field low width f v }
{
    let unit = power(low);
    let size = power(width);
    let above = power(low + width);
    let field = v as u16 % size * unit;
    let rest = f as u16 / above * above;
    (f as u16 % unit + field + rest) as u8
}

pub(crate) fn has_bit(f: u8, k: u8) -> bool
    requires { k < 8 }
    ensures { result ≡ has_bit k f }
{
    field_of(f, k, 1) == 1
}

pub(crate) fn with_bit(f: u8, k: u8, on: bool) -> u8
    requires { k < 8 }
    ensures { result ≡ with_bit k f on }
{
    with_field(f, k, 1, on as u8)
}
