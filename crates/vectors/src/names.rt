// File names.
use crate::parts::after;
use numbers::names::FileName;
use records::bytes::{byte_at, u32_at};

// whether an area is known, the area; the name.
pub fn file_name(b: &[u8]) -> bool {
    let Some(name) = b.get(5..) else {
        return false;
    };
    match numbers::names::area_id_from_file_name(name) {
        Some(n) => byte_at(b, 0) == 1 && n == u32_at(b, 1),
        None => byte_at(b, 0) == 0,
    }
}

// The name at offset 36 of the record: its count, its bytes.
pub(crate) fn same_name(b: &[u8], name: FileName) -> bool {
    name.count == byte_at(b, 36) as usize && name.bytes[..] == after(b, 37)[..]
}
