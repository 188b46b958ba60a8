// T-07, for the edits of must-fail/: what belongs to a cell, and which area a ref is for.
ghost use Rattle.std.specs.Prelude.{◌≡◌};
ghost use Rattle.cells.specs.Area.{belongs, ref_for};

// Whether a link of this area belongs to a cell of the area `own`.
pub fn claims(own: u16, area: u16) -> bool
    ensures { result ≡ belongs own area }
{
    let own_link = cells::area::belongs_to(own, area);
    own_link
}

// In a cell of the area `own`, whether a ref of this area is one for the area asked for.
pub fn names(own: u16, area: u16, asked: u16) -> bool
    ensures { result ≡ ref_for own area asked }
{
    let named = cells::area::ref_for(own, area, asked);
    named
}

// Both behind the very tests that the edits make: each arm does the work, and they are accepted.
pub fn claims_in_arms(own: u16, area: u16) -> bool
    ensures { result ≡ belongs own area }
{
    if own < 1024 {
        return cells::area::belongs_to(own, area);
    }
    if own / 1024 % 2 == 1 {
        return cells::area::belongs_to(own, area);
    }
    cells::area::belongs_to(own, area)
}

pub fn names_in_arms(own: u16, area: u16, asked: u16) -> bool
    ensures { result ≡ ref_for own area asked }
{
    if own / 1024 % 2 == 1 {
        return cells::area::ref_for(own, area, asked);
    }
    cells::area::ref_for(own, area, asked)
}
