// Which part of which section an address names.
ghost use Rattle.std.specs.Prelude.{◌≡◌, ◌<◌};
ghost use Rattle.records.specs.Sections.{inside_of, located, extent, bytes_of};

#[derive(Clone, Copy)]
pub enum Section {
    System,
    Graphics,
}

#[derive(Clone, Copy)]
pub struct Part {
    pub section: Section,
    pub offset: usize,
    pub len: usize,
}

const EMPTY: Part = Part {
    section: Section::System,
    offset: 0,
    len: 0,
};

// A part of a section of `n` bytes.
fn inside(section: Section, offset: u64, len: u64, n: usize) -> Option<Part>
    requires { (offset < 0x1000_0000) × (len < 0x1000_0000_0000) }
    ensures { result ≡ inside_of section offset len n }
{
    let (offset, len) = (offset as usize, len as usize);
    (offset + len <= n).then_some(Part {
        section,
        offset,
        len,
    })
}

// Where an array of `count` entries of `width` bytes lies, in sections of `system` and `graphics` bytes.
#[tactic(auto, unfolding(crate::specs::Sections::located))]
pub fn locate(address: u64, count: u32, width: u8, system: usize, graphics: usize) -> Option<Part>
    ensures { result ≡ located address count width system graphics }
{
    if address == 0 || count == 0 {
        return Some(EMPTY);
    }
    if 0x1_0000_0000 <= address {
        return None;
    }
    let (section, n) = match address & 0xF000_0000 {
        0x5000_0000 => (Section::System, system),
        0x6000_0000 => (Section::Graphics, graphics),
        _ => return None,
    };
    inside(
        section,
        address % 0x1000_0000,
        count as u64 * width as u64,
        n,
    )
}

// The part of a slice; empty where it doesn't end inside.
#[tactic(auto, unfolding(crate::specs::Sections::extent))]
fn within(s: &[u8], offset: usize, len: usize) -> &[u8]
    ensures { result.now ≡ extent offset len s.now }
{
    match s.get(offset..) {
        Some(rest) => rest.get(..len).unwrap_or(&[]),
        None => &[],
    }
}

// The named part of whichever section it is of; empty where it doesn't end inside.
#[tactic(auto, unfolding(crate::specs::Sections::bytes_of))]
pub fn named_part<'a>(system: &'a [u8], graphics: &'a [u8], part: Part) -> &'a [u8]
    ensures { result.now ≡ bytes_of part system.now graphics.now }
{
    let section = match part.section {
        Section::System => system,
        Section::Graphics => graphics,
    };
    within(section, part.offset, part.len)
}
