// What lies uncut where a part isn't sawn: which piece, or scrap.
ghost use Rattle.std.specs.Prelude.{ℕ, ◌≤◌, length};
ghost use Rattle.worths.specs.AsItLies.{Lies, Fitting};

use crate::pieces::best_piece;
use crate::uncut::Uncut;
use ways::{Part, Piece, Pieces};

/// Beside what a part is worth as it lies, what it is.
pub trait Lying: Uncut {
    // The number of the piece that a part is as it lies, or none where it is scrap.
    fn lies(&self, part: Part) -> Option<u16>
        ensures { (blade : ℕ) → Lies (Self.reckoned self.now blade) (Self.leaf self.now) (Self.pieces self.now) part.wide part.high result };
}

impl Lying for Pieces {
    fn lies(&self, part: Part) -> Option<u16> {
        which_piece(self.as_slice(), part)
    }
}

// The number of a piece that fits a part and is worth the most of those, if one of them is worth anything.
fn which_piece(pieces: &[Piece], part: Part) -> Option<u16>
    requires { length pieces.now ≤ 16 }
    ensures { Fitting pieces.now part.wide part.high result }
{
    let best = best_piece(pieces, part);
    if best == 0 {
        return None;
    }
    pieces
        .iter()
        .position(|p| p.fits(part) && p.worth == best)
        .map(|k| k as u16)
}
