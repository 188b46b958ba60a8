// A reader or a writer, and whether it ever gave an error. Only the calls of this crate set the note.
ghost use Rattle.std.specs.Prelude.{◌≡◌, false};

#[derive(Drop)]
pub struct Noted<T> {
    pub(crate) inner: T,
    pub(crate) failed: bool,
}

impl<T> Noted<T> {
    pub fn new(inner: T) -> Noted<T>
        ensures { (result.inner ≡ inner) × (result.failed ≡ false) }
    {
        Noted {
            inner,
            failed: false,
        }
    }
}
