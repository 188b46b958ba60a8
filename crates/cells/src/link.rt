// A link in memory.

#[repr(C)]
#[derive(Clone, Copy, Default, PartialEq, Eq)]
pub struct PathLink {
    pub area_id: u16,
    pub node_id: u16,
    pub flags0: u8,
    pub flags1: u8,
    pub flags2: u8,
    pub length: u8,
}
