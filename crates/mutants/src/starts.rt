// T-05, for the edits of must-fail/: the start that a node stores, which is 9 over 65,535.
ghost use Rattle.std.specs.Prelude.{◌≡◌, ◌+◌};
ghost use Rattle.cells.specs.Entries.{stored_start};

// The start of a node with `count` links, behind `before` others.
pub fn starts(before: usize, count: usize) -> usize
    ensures { result ≡ stored_start before count }
{
    let start = cells::range::stored_start(before, count);
    start
}

// The same behind the very tests that the edits make: each arm does the work, and it is accepted.
pub fn starts_in_arms(before: usize, count: usize) -> usize
    ensures { result ≡ stored_start before count }
{
    if count == 0 {
        return cells::range::stored_start(before, count);
    }
    if 0 < count {
        return cells::range::stored_start(before, count);
    }
    cells::range::stored_start(before, count)
}

// The start of the second of two nodes, of which the first has `first` links.
pub fn second_starts(before: u16, first: u8, second: usize) -> usize
    ensures { result ≡ stored_start (before + first) second }
{
    starts(before as usize + first as usize, second)
}

// A control, likewise.
pub fn second_starts_in_arms(before: u16, first: u8, second: usize) -> usize
    ensures { result ≡ stored_start (before + first) second }
{
    if first == 0 {
        return starts_in_arms(before as usize + first as usize, second);
    }
    starts_in_arms(before as usize + first as usize, second)
}
