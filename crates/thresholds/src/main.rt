// Prints the 256 thresholds of the length table, entry 0 first, one a line in eight hexadecimal digits (T-12). `text`
// makes every byte; here they are only written.
#![tactic(auto)]

ghost use Rattle.std.specs.Prelude.{◌≡◌, true, OnErr, OnOk};
ghost use Rattle.thresholds.specs.Text.{ThresholdLines, Printed};

use noted::noted::Noted;
use noted::sink::Sink;
use numbers::threshold_search::threshold_line;
use std::io;

// All lines, in their order: nine bytes each.
fn text() -> [u8; 2304]
    ensures { ThresholdLines result }
{
    let mut bytes = [0u8; 2304];
    for k in 0..256usize {
        let line = threshold_line(k as u8);
        bytes[9 * k..9 * k + 9].copy_from_slice(&line);
    }
    bytes
}

// The lines, written behind what stood there. An error comes only where the writer gave one.
fn run<W: Sink>(output: &mut W) -> io::Result<()>
    ensures printed { OnOk result (Printed (W.contents output.old) (W.contents output.new)) }
    ensures cause { OnErr result (W.failed output.new ≡ true) }
{
    let bytes = text();
    output.put(&bytes)
}

fn main(rt: HostRuntime) -> io::Result<()> {
    run(&mut Noted::new(io::writer(&rt)))
}
