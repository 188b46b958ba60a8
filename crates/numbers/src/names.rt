// The names of cell files (document 01, section 6): nodes, the area in decimal, .ynd.
ghost use Rattle.std.specs.Prelude.{◌≡◌, ◌+◌, ◌%◌, ◌<◌};
ghost use Rattle.numbers.specs.Names.{named, name_of_area, cell_file_name, slash, base_of, starts, parsed};
ghost use Rattle.numbers.specs.Names.{area_of_base, area_id_from_file_name};

use crate::grid::area_id;
use crate::refusal::Refusal;

// A name's bytes, zero from `count` on.
#[derive(Clone, Copy)]
pub struct FileName {
    pub bytes: [u8; 13],
    pub count: usize,
}

// The last decimal digit of n.
fn digit_of(n: u32) -> u8
    ensures { result ≡ 48 + n % 10 }
{
    b'0' + (n % 10) as u8
}

// The file name of an area, which is below 1,024.
#[tactic(auto, unfolding(crate::specs::Names::named), using(crate::proofs::NameLaws::area_name))]
fn name_of_area(area: u32) -> FileName
    requires { area < 1024 }
    ensures { result ≡ named (name_of_area area) }
{
    if area < 10 {
        let mut bytes = *b"nodes0.ynd\0\0\0";
        bytes[5] = digit_of(area);
        return FileName { bytes, count: 10 };
    }
    if area < 100 {
        let mut bytes = *b"nodes00.ynd\0\0";
        bytes[5] = digit_of(area / 10);
        bytes[6] = digit_of(area);
        return FileName { bytes, count: 11 };
    }
    if area < 1000 {
        let mut bytes = *b"nodes000.ynd\0";
        bytes[5] = digit_of(area / 100);
        bytes[6] = digit_of(area / 10);
        bytes[7] = digit_of(area);
        return FileName { bytes, count: 12 };
    }
    let mut bytes = *b"nodes0000.ynd";
    bytes[5] = digit_of(area / 1000);
    bytes[6] = digit_of(area / 100);
    bytes[7] = digit_of(area / 10);
    bytes[8] = digit_of(area);
    FileName { bytes, count: 13 }
}

// The file name of a cell.
#[tactic(auto, unfolding(crate::specs::Names::name_for), using(crate::proofs::GridLaws::area_small))]
pub fn cell_file_name(cx: u32, cy: u32) -> Result<FileName, Refusal>
    ensures { result ≡ cell_file_name cx cy }
{
    Ok(name_of_area(area_id(cx, cy)?))
}

fn is_slash(c: u8) -> bool
    ensures { result ≡ slash c }
{
    c == b'/' || c == b'\\'
}

// What stands after the last slash.
#[tactic(auto, using(crate::proofs::NameLaws::base_whole))]
fn base_of(s: &[u8]) -> &[u8]
    ensures { result.now ≡ base_of s.now }
{
    match s.iter().rposition(|c| is_slash(*c)) {
        Some(i) => &s[i + 1..],
        None => s,
    }
}

// Whether s, in lower case, starts with the word.
#[tactic(auto, using(crate::proofs::NameLaws::starts_short, crate::proofs::NameLaws::starts_decided))]
fn starts_with(s: &[u8], word: &[u8]) -> bool
    ensures { result ≡ starts s.now word.now }
{
    word.len() <= s.len()
        && s.iter()
            .zip(word)
            .all(|(c, w)| c.to_ascii_lowercase() == *w)
}

// The number between the two words.
#[tactic(auto, using(crate::proofs::NameLaws::parsed_laws))]
fn parsed_of(t: &[u8]) -> Option<u32>
    ensures { result ≡ parsed t.now }
{
    let text = std::str::from_utf8(t).ok()?;
    text.parse().ok()
}

#[tactic(auto, using(crate::proofs::NameLaws::area_laws))]
fn area_of_base(b: &[u8]) -> Option<u32>
    ensures { result ≡ area_of_base b.now }
{
    let n = b.len();
    if n < 9 {
        return None;
    }
    let e = n - 4;
    if starts_with(b, b"nodes") && starts_with(&b[e..], b".ynd") {
        return parsed_of(&b[5..e]);
    }
    None
}

#[tactic(auto, unfolding(crate::specs::Names::area_id_from_file_name))]
pub fn area_id_from_file_name(name: &[u8]) -> Option<u32>
    ensures { result ≡ area_id_from_file_name name.now }
{
    area_of_base(base_of(name))
}
