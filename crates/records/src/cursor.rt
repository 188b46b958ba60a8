// A cursor over a lent section: the section, and the offset of the next number.
ghost use Rattle.std.specs.Prelude.{◌≡◌, ◌+◌, ◌<◌, ◌^◌};
ghost use Rattle.records.specs.Cursor.{moved_on};

use crate::stored::{Stored, stored_at};

#[derive(Drop)]
pub(crate) struct Cursor<'a> {
    section: &'a [u8],
    offset: usize,
}

impl<'a> Cursor<'a> {
    // The cursor at the section's start.
    pub(crate) fn new(section: &'a [u8]) -> Cursor<'a>
        ensures { (result.section ≡ section.entry) × (result.offset ≡ 0) }
    {
        Cursor { section, offset: 0 }
    }

    // Moves on by n bytes.
    pub(crate) fn skip(&mut self, n: usize)
        requires { self.old.offset + n < 2 ^ 64 }
        ensures { self.new ≡ moved_on n self.old }
    {
        self.offset += n;
    }

    // The number at the offset; the cursor moves on behind it.
    pub(crate) fn next<T: Stored>(&mut self) -> T
        requires { self.old.offset < 0x2000_0000_0000_0000 }
        ensures { (result ≡ T.value_at self.old.section.now self.old.offset) × (self.new ≡ moved_on T.SIZE self.old) }
    {
        let at = self.offset;
        self.skip(T::SIZE);
        stored_at(self.section, at)
    }
}
