// The library's version, and the texts of the refusals.
ghost use Rattle.std.specs.Prelude.{◌≡◌, length};
ghost use Rattle.exports.specs.Texts.{version, text_of, text_put};

use cells::replace::put_at;

// The version: 10000 times the major number, 100 times the minor one, and the patch.
#[unsafe(no_mangle)]
pub extern "C" fn ynd_version() -> u32
    ensures { result ≡ version }
{
    10200
}

// What refusal `number` is about.
#[tactic(auto, using(std::proofs::lemmas::List::get_or_past), unfolding(crate::specs::Texts::text_of, crate::specs::Texts::texts))]
fn text_of(number: u32) -> &'static [u8]
    ensures { result.now ≡ text_of number }
{
    match number {
        0 => b"accepted",
        1 => b"1 to 111 system bytes",
        2 => b"a section over 16,777,216 bytes",
        3 => b"an array's address or extent is bad",
        4 => b"a node's link start, or start plus count, over the list's length",
        5 =>
            b"a junction's heightmap start, or start plus width times height, over the bytes' length",
        6 => b"more than 65,536 nodes or 4,096 junctions",
        7 => b"lent memory too short",
        8 => b"over 31 links on writing",
        9 => b"links before this node, which has links, over 65,535 on writing",
        10 => b"heightmap bytes before a junction over 65,535 on writing",
        11 => b"refs over 65,535 on writing",
        12 => b"heightmap values not width times height",
        13 =>
            b"no such place or member, area not in the set, round's start that no node has, or grid number over 31",
        14 =>
            b"over a limit: 65,536 nodes of cell or set, 4,096 junctions, 255 links a node, 9 members, 32-bit counts",
        15 =>
            b"a round file's first five bytes aren't the mark and a version that the reader takes",
        16 =>
            b"a round file under 9 bytes (version 2: 11), or not that plus its count; over 65,535 choices on writing",
        17 => b"no walk joins the two places",
        18 => b"the area is already in the set",
        19 => b"a version 2 round's area isn't the cell's",
        _ => b"no refusal has this number",
    }
}

// The text of a refusal's number, cut where the lent bytes are too few, with a zero behind it. Answers how long the
// whole text is, the zero aside.
#[tactic(auto, using(records::proofs::Puts::put_fits), unfolding(crate::specs::Texts::text_put, records::specs::Put::put))]
#[unsafe(no_mangle)]
pub extern "C" fn ynd_refusal_text(number: u32, text: &mut [u8]) -> usize
    ensures length { result ≡ length (text_of number) }
    ensures text_after { text.new ≡ text_put (text_of number) text.old }
{
    let whole = text_of(number);
    if let Some(room) = text.len().checked_sub(1) {
        let kept = whole.len().min(room);
        put_at(text, 0, &whole[..kept]);
        text[kept] = 0;
    }
    whole.len()
}
