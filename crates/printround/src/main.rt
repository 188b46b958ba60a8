// Prints a round (T-13): the section's length (four bytes), the system section and a round file on standard input,
// 65,536 bytes in all at most.
#![tactic(auto)]

ghost use Rattle.std.specs.Prelude.{◌≡◌, ◌+◌, take, IfOk, IfSome, OnOk, string_bytes};
ghost use Rattle.std.specs.Io.KnownBytes.{Appends};
ghost use Rattle.printround.specs.Printed.{printed};

mod print;
mod text;

use crate::print::text_of;
use std::alloc::Global;
use std::io;
use std::io::{Read, Write};

// The longest input that is printed.
const LIMIT: u64 = 65_536;

// One byte past the limit is enough to see that the input is too long.
fn input_of<R: Read + Drop>(alloc: Global, input: R) -> io::Result<Vec<u8>>
    ensures { IfOk result (λ read. IfSome (R.remaining input) (λ bytes. read.items ≡ take (LIMIT + 1) bytes)) }
{
    let mut bytes = Vec::new(alloc);
    input.take(LIMIT + 1).read_to_end(&mut bytes)?;
    Ok(bytes)
}

fn answer<R: Read + Drop>(alloc: Global, input: R) -> io::Result<String>
    ensures { IfOk result (λ text. IfSome (R.remaining input) (λ bytes. string_bytes text ≡ printed bytes)) }
{
    let bytes = input_of(alloc, input)?;
    Ok(text_of(alloc, bytes.as_slice())?)
}

fn run<R: Read + Drop, W: Write>(alloc: Global, input: R, output: &mut W) -> io::Result<()>
    ensures { OnOk result (IfSome (R.remaining input)
        (λ bytes. Appends (W.contents output.old) (W.contents output.new) (printed bytes))) }
{
    let text = answer(alloc, input)?;
    output.write_all(text.as_bytes())
}

fn main(rt: HostRuntime) -> io::Result<()> {
    run(rt.alloc(), rt.reader(), &mut io::writer(&rt))
}
