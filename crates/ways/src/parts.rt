// The parts that a sheet is sawn into.
ghost use Rattle.std.specs.Prelude.{◌≡◌, false, Some, MatchOption};
ghost use Rattle.ways.specs.Parts.{side_of, with_side, word_of, CutsAt};
ghost use Rattle.ways.specs.Sheet.{cut_ok};

use crate::nodes::Cut;
use std::fmt;

/// A part of a sheet (a rectangle): so wide and so high. One side or both may be empty.
#[derive(Clone, Copy, Debug, PartialEq, Eq)]
pub struct Part {
    pub wide: usize,
    pub high: usize,
}

/// Which way a part is sawn through: an upright cut (vertical) shortens the width, a level one (horizontal) the height. What that
/// means `Part` knows, by two methods: a closure for each way would stand at every call.
#[derive(Clone, Copy, Debug, PartialEq, Eq)]
pub enum Orientation {
    Upright,
    Level,
}

impl Part {
    /// The side that such a cut shortens.
    pub fn side(self, orientation: Orientation) -> usize
        ensures { result ≡ side_of orientation self.wide self.high }
    {
        match orientation {
            Orientation::Upright => self.wide,
            Orientation::Level => self.high,
        }
    }

    /// The same part with that side so long.
    pub fn with_side(self, orientation: Orientation, side: usize) -> Part
        ensures { result ≡ with_side orientation self side }
    {
        match orientation {
            Orientation::Upright => Part { wide: side, ..self },
            Orientation::Level => Part { high: side, ..self },
        }
    }

    /// The cut at so far from the beginning of that side, and the two parts that it leaves, if a blade that takes so much may make it.
    #[tactic(auto, unfolding(crate::specs::Sheet::cut_ok))]
    pub fn sawn(self, orientation: Orientation, at: u16, blade: usize) -> Option<Cut<Part>>
        ensures { MatchOption result (cut_ok blade (side_of orientation self.wide self.high) at ≡ false) (CutsAt blade self orientation at) }
    {
        let near = at as usize;
        let rest = self
            .side(orientation)
            .checked_sub(near)?
            .checked_sub(blade)?;
        if at < LEAST || (blade == 0 && rest == 0) {
            return None;
        }
        Some(Cut {
            orientation,
            at,
            first: self.with_side(orientation, near),
            second: self.with_side(orientation, rest),
        })
    }
}

// A cut leaves at least so much on its first side.
const LEAST: u16 = 1;

impl fmt::Display for Orientation {
    ghost output = { λ o. Some (word_of o) };

    fn fmt<W: fmt::Write>(&self, f: &mut fmt::Formatter<W>) -> fmt::Result {
        f.write_str(match self {
            Orientation::Upright => "upright",
            Orientation::Level => "level",
        })
    }
}
