// What takes bytes, and notes whether it gave an error: code that is generic over it can't give up in its name.
ghost use Rattle.std.specs.Prelude.{◌≡◌, Bool, true, List, ℕ, Option, OnErr, OnOk};
ghost use Rattle.std.specs.Io.KnownBytes.{Appends};

use crate::noted::Noted;
use std::io;
use std::io::Write;

pub trait Sink {
    // The bytes that it holds, where they are known.
    ghost contents: { Self → Option (List ℕ) };

    // Whether it ever gave an error.
    ghost failed: { Self → Bool };

    // Writes all the bytes behind what stands there.
    fn put(&mut self, bytes: &[u8]) -> io::Result<()>
        ensures bytes { OnOk result (Appends (contents self.old) (contents self.new) bytes.now) }
        ensures cause { OnErr result (failed self.new ≡ true) };
}

impl<W: Write> Sink for Noted<W> {
    ghost contents = { λ s. W.contents s.inner };

    ghost failed = { λ s. s.failed };

    fn put(&mut self, bytes: &[u8]) -> io::Result<()> {
        let done = self.inner.write_all(bytes);
        if done.is_err() {
            self.failed = true;
        }
        done
    }
}
