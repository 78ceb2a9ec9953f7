// Where the table has a number for a part.
ghost use Rattle.std.specs.Prelude.{◌≡◌, MatchOption};
ghost use Rattle.worths.specs.Table.{place_of, HasPlace};

use ways::Part;

// The longest side of a sheet: so many heights the table has for each width.
pub(crate) const LONGEST: usize = ways::LONGEST as usize;

// A part that has a number there: it isn't empty, and no side is above 60.
#[derive(Clone, Copy)]
pub(crate) struct Place {
    pub(crate) part: Part,
    ghost ok: { HasPlace part },
}

impl Place {
    // The place of a part, or none where it has no number.
    pub(crate) fn of(part: Part) -> Option<Place>
        ensures { MatchOption result (HasPlace part → ⊥) (λ place. place.part ≡ part) }
    {
        if part.wide < 1 || part.wide > LONGEST || part.high < 1 || part.high > LONGEST {
            return None;
        }
        Some(Place { part })
    }

    // Where its number stands.
    pub(crate) fn index(self) -> usize
        ensures { result ≡ place_of self.part.wide self.part.high }
    {
        (self.part.wide - 1) * LONGEST + (self.part.high - 1)
    }
}
