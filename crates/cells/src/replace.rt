// Where the new entries of a range go, and how many entries there are in all afterwards.
ghost use Rattle.std.specs.Prelude.{◌≡◌, ◌+◌, ◌<◌, ◌≤◌, length};
ghost use Rattle.records.specs.Put.{put_in};
ghost use Rattle.cells.specs.Edit.{held_in};
ghost use Rattle.cells.specs.Replace.{place_for, pool_after};

use crate::copy::copy_over;
use crate::range::{Range, held_in};

// c new entries in place of e from s on, of l.
#[tactic(auto, using(numbers::proofs::Refusing::tested), unfolding(crate::specs::Replace::place_for))]
fn place_for(s: usize, e: usize, c: usize, l: usize) -> usize
    ensures { result ≡ place_for s e c l }
{
    if c == 0 {
        return 0;
    }
    if c <= e {
        return s;
    }
    l
}

#[tactic(auto, using(numbers::proofs::Refusing::tested), unfolding(crate::specs::Replace::pool_after))]
fn pool_after(e: usize, c: usize, l: usize) -> usize
    requires { l + c < 18446744073709551616 }
    ensures { result ≡ pool_after e c l }
{
    if c <= e {
        return l;
    }
    l + c
}

// New entries: from where on, how many, and how many there are in all afterwards.
#[derive(Clone, Copy)]
pub(crate) struct Placed {
    pub(crate) start: usize,
    pub(crate) count: usize,
    pub(crate) after: usize,
}

// c new entries in place of the range's, of l.
#[tactic(auto, using(crate::proofs::Editing::Replacing::placing, crate::proofs::Editing::EditLaws::held_bound))]
pub(crate) fn placing(r: Range, c: usize, l: usize) -> Placed
    requires { l + c < 18446744073709551616 }
    ensures start { result.start ≡ place_for r.start (held_in r l) c l }
    ensures count { result.count ≡ c }
    ensures after { result.after ≡ pool_after (held_in r l) c l }
    ensures inside { (result.start ≤ l) × (result.start + c ≤ result.after) }
{
    let e = held_in(r, l);
    Placed {
        start: place_for(r.start, e, c, l),
        count: c,
        after: pool_after(e, c, l),
    }
}

// The entries from `at` on are the new ones, if these end inside; else nothing is stored.
#[tactic(auto, using(records::proofs::Puts::put_laws))]
pub fn put_at<T: Copy>(list: &mut [T], at: usize, new: &[T])
    ensures { list.new ≡ put_in list.old at new.now }
{
    if at <= list.len() && new.len() <= list.len() - at {
        copy_over(&mut list[at..at + new.len()], new);
    }
}
