// What gives bytes, and notes whether it gave an error: code that is generic over it can't give up in its name.
ghost use Rattle.std.specs.Prelude.{◌≡◌, Bool, true, List, ℕ, Option, OnErr, IfOk, IfSome, take};

use crate::noted::Noted;
use std::alloc::Global;
use std::io;
use std::io::Read;

pub trait Source {
    // The bytes that it will give from here on, where they are known.
    ghost remaining: { Self → Option (List ℕ) };

    // Whether it ever gave an error, or memory for its bytes did.
    ghost failed: { Self → Bool };

    // All its bytes, or the first `most` where there are more.
    fn read_up_to(&mut self, alloc: Global, most: u64) -> io::Result<Vec<u8>>
        ensures bytes { IfOk result (λ read. IfSome (remaining self.old) (λ bytes. read.items ≡ take most bytes)) }
        ensures cause { OnErr result (failed self.new ≡ true) };
}

// The first `most` bytes of a reader.
fn first_bytes<R: Read>(input: &mut R, alloc: Global, most: u64) -> io::Result<Vec<u8>>
    ensures { IfOk result (λ read. IfSome (R.remaining input.old) (λ bytes. read.items ≡ take most bytes)) }
{
    let mut bytes = Vec::new(alloc);
    input.take(most).read_to_end(&mut bytes)?;
    Ok(bytes)
}

impl<R: Read> Source for Noted<R> {
    ghost remaining = { λ s. R.remaining s.inner };

    ghost failed = { λ s. s.failed };

    fn read_up_to(&mut self, alloc: Global, most: u64) -> io::Result<Vec<u8>> {
        let read = first_bytes(&mut self.inner, alloc, most);
        if read.is_err() {
            self.failed = true;
        }
        read
    }
}
