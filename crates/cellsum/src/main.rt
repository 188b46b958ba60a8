// Says how much a path node cell holds: its system section on standard input, at most 65,536 bytes, graphics empty.
#![tactic(auto)]

ghost use Rattle.std.specs.Prelude.{◌≡◌, ◌+◌, true, List, ℕ, codes, take, IfSome, OnErr, OnOk, ◌⊎◌};
ghost use Rattle.std.specs.Io.KnownBytes.{Appends};
ghost use Rattle.cellsum.specs.Line.{counts_line_of, refused_line_of, line_of};

use arrayvec::ArrayString;
use cells::count::count;
use cells::counts::Counts;
use itoa::Buffer;
use noted::noted::Noted;
use noted::sink::Sink;
use noted::source::Source;
use std::alloc::Global;
use std::io;

// The longest section that is counted.
const LIMIT: u64 = 65_536;

fn counts_line(k: Counts) -> ArrayString<128>
    ensures { result.bytes ≡ counts_line_of k }
{
    let mut digits = Buffer::new();
    let mut text = ArrayString::new();
    text.push_str("nodes ");
    text.push_str(digits.format(k.nodes));
    text.push_str(" links ");
    text.push_str(digits.format(k.links));
    text.push_str(" junctions ");
    text.push_str(digits.format(k.junctions));
    text.push_str(" refs ");
    text.push_str(digits.format(k.refs));
    text.push_str("\n");
    text
}

fn refused_line(number: u32, place: usize) -> ArrayString<128>
    ensures { result.bytes ≡ refused_line_of number place }
{
    let mut digits = Buffer::new();
    let mut text = ArrayString::new();
    text.push_str("refused ");
    text.push_str(digits.format(number));
    text.push_str(" ");
    text.push_str(digits.format(place));
    text.push_str("\n");
    text
}

fn too_long() -> ArrayString<128>
    ensures { result.bytes ≡ codes "too long\n" }
{
    let mut text = ArrayString::new();
    text.push_str("too long\n");
    text
}

fn line(input: &[u8]) -> ArrayString<128>
    ensures { result.bytes ≡ line_of input.now }
{
    if input.len() as u64 > LIMIT {
        return too_long();
    }
    match count(input, &[]) {
        Ok(k) => counts_line(k),
        Err(refusal) => refused_line(refusal.number(), refusal.place()),
    }
}

// The line of what was read: one byte past the limit is enough to see that the input is too long.
fn answer(section: &[u8]) -> ArrayString<128>
    ensures { (bytes : List ℕ) → section.now ≡ take (LIMIT + 1) bytes → result.bytes ≡ line_of bytes }
{
    line(section)
}

// An error comes only where reading or writing gave one.
fn run<R: Source, W: Sink>(alloc: Global, input: &mut R, output: &mut W) -> io::Result<()>
    ensures line { OnOk result (IfSome (R.remaining input.old)
        (λ bytes. Appends (W.contents output.old) (W.contents output.new) (line_of bytes))) }
    ensures cause { OnErr result ((R.failed input.new ≡ true) ⊎ (W.failed output.new ≡ true)) }
{
    let section = input.read_up_to(alloc, LIMIT + 1)?;
    let text = answer(section.as_slice());
    output.put(text.as_str().as_bytes())
}

fn main(rt: HostRuntime) -> io::Result<()> {
    run(
        rt.alloc(),
        &mut Noted::new(rt.reader()),
        &mut Noted::new(io::writer(&rt)),
    )
}
