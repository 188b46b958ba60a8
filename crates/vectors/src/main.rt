// Replays the vectors on standard input: records of a kind, a length and then an input with the answer that the Rust
// gave, or document 01 where it decides. Prints how many agree. `make vectors` writes the file anew.
#![tactic(auto)]

mod cell;
mod crossing;
mod edits;
mod files;
mod grid;
mod junctions;
mod large;
mod names;
mod near;
mod parts;
mod replay;
mod room;
mod round_files;
mod shortest;
mod steps;

use std::io;
use std::io::Read;

fn main(rt: HostRuntime) -> io::Result<()> {
    let mut vectors = Vec::new(rt.alloc());
    rt.reader().read_to_end(&mut vectors)?;
    let t = replay::replay(vectors.as_slice());
    println!(rt; "{} of {} vectors agree", t.agreed, t.records)
}
