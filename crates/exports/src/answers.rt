// What a caller in C gets of a call's answer: its number and place, 0 and 0 where it was accepted.
ghost use Rattle.std.specs.Prelude.{◌≡◌, List, ℕ};
ghost use Rattle.cells.specs.Memory.{left};
ghost use Rattle.cells.specs.declared.node_entry.NodeEntry.{NodeEntry};
ghost use Rattle.cells.specs.declared.link.PathLink.{PathLink};
ghost use Rattle.cells.specs.declared.junction_entry.JunctionEntry.{JunctionEntry};
ghost use Rattle.records.specs.declared.junction_ref.NodeJunctionRef.{NodeJunctionRef};
ghost use Rattle.numbers.specs.Refusals.{number_of, place_of};
ghost use Rattle.exports.specs.Answers.{answer_number, answer_place};
ghost use Rattle.exports.specs.Cells.{called, call_of};
ghost use Rattle.exports.specs.Found.{told, told_of, value_told};

use cells::ynd::Ynd;
use numbers::refusal::Refusal;

pub(crate) fn refuse(refusal: Refusal, place: &mut usize) -> u32
    ensures number { result ≡ number_of refusal }
    ensures place { place.new ≡ place_of refusal }
{
    *place = refusal.place();
    refusal.number()
}

pub(crate) fn answer<T: Copy>(r: Result<T, Refusal>, place: &mut usize) -> u32
    ensures number { result ≡ answer_number r }
    ensures place { place.new ≡ answer_place r }
{
    match r {
        Ok(_) => {
            *place = 0;
            0
        }
        Err(refusal) => refuse(refusal, place),
    }
}

// The value goes into the lent cell. A refusal leaves that as it was.
#[inline(always)]
pub(crate) fn tell<T: Copy>(r: Result<T, Refusal>, cell: &mut T, place: &mut usize) -> u32
    ensures { told result place.new cell.new ≡ value_told r cell.old }
{
    tell_as(r, |value| value, cell, place)
}

// The same of what is made of the value.
#[inline(always)]
pub(crate) fn tell_as<T: Copy, U: Copy, F: Fn(T) -> U>(
    r: Result<T, Refusal>,
    form: F,
    cell: &mut U,
    place: &mut usize,
) -> u32
    requires { F.IsAlwaysCallable form }
    ensures { (f : T → U) → ((x : T) (y : U) → F.post form x y → y ≡ f x)
        → told result place.new cell.new ≡ told_of r f cell.old }
{
    match r {
        Ok(value) => {
            *cell = form(value);
            *place = 0;
            0
        }
        Err(refusal) => refuse(refusal, place),
    }
}

// The cell's own words after a call on it; a refusal leaves the old ones.
#[inline(always)]
#[tactic(auto, unfolding(crate::specs::Cells::call_of))]
pub(crate) fn tell_ynd(r: Result<Ynd, Refusal>, ynd: &mut Ynd, place: &mut usize) -> u32
    ensures { (nodes : List NodeEntry) (links : List PathLink) (junctions : List JunctionEntry)
        (refs : List NodeJunctionRef) (heights : List ℕ) →
        called result place.new ynd.new nodes links junctions heights refs
        ≡ call_of (left ynd.old r nodes links junctions heights refs) }
{
    if let Ok(y) = r {
        *ynd = y;
    }
    answer(r, place)
}
