// Entries moved; later entries stay as they were.
ghost use Rattle.std.specs.Prelude.{◌≡◌, ◌≤◌, length};
ghost use Rattle.sets.specs.Leave.{closed};

// Moves the entries from `from` up to `end` down to `to`.
#[tactic(auto, unfolding(crate::specs::Leave::closed))]
pub(crate) fn close<T: Copy>(list: &mut [T], to: usize, from: usize, end: usize)
    requires { (to ≤ from) × (from ≤ end) × (end ≤ length list.old) }
    ensures { list.new ≡ closed to from end list.old }
{
    list.copy_within(from..end, to);
}
