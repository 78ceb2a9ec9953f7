// Pieces as they are asked for.
ghost use Rattle.std.specs.Prelude.{◌≡◌, ◌&&◌, ◌==◌};
ghost use Rattle.ways.specs.Input.{piece_from};

use crate::parts::Part;

/// A piece that is wanted (an item): so wide, so high, and worth so much.
#[derive(Clone, Copy, Debug, Default, PartialEq, Eq)]
pub struct Piece {
    pub wide: u32,
    pub high: u32,
    pub worth: u32,
}

impl Piece {
    /// It fits a part only if it is just as wide and as high.
    pub fn fits(self, part: Part) -> bool
        ensures { result ≡ (self.wide == part.wide && self.high == part.high) }
    {
        self.wide as usize == part.wide && self.high as usize == part.high
    }
}

impl From<[u32; 3]> for Piece {
    ghost from_gives = { λ three p. p ≡ piece_from three };

    fn from([wide, high, worth]: [u32; 3]) -> Piece {
        Piece { wide, high, worth }
    }
}
