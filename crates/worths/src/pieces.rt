// Pieces are the first that can lie uncut: a part is the best piece that is just as wide and as high, or scrap.
ghost use Rattle.std.specs.Prelude.{◌≡◌};
ghost use Rattle.ways.specs.Sheet.{worth_of};
ghost use Rattle.ways.specs.View.{pieces_of};
ghost use Rattle.worths.specs.Pieces.{best_fit};
ghost use Rattle.worths.specs.Laws.{pieces_add_up, best_small};

use crate::uncut::Uncut;
use ways::{Part, Piece, Pieces};

impl Uncut for Pieces {
    ghost pieces = { λ s. pieces_of s };

    ghost reckoned = { λ s blade w h. worth_of (pieces_of s) };

    ghost leaf = { λ s. best_fit (pieces_of s) };

    ghost adds = { λ s blade. pieces_add_up blade _ };

    ghost small = { λ s w h. best_small _ s.ok w h };

    fn uncut_worth(&self, part: Part) -> u32 {
        best_piece(self.as_slice(), part)
    }
}

// What the best of the pieces that fit a part is worth, or 0.
pub(crate) fn best_piece(pieces: &[Piece], part: Part) -> u32
    ensures { result ≡ best_fit pieces.now part.wide part.high }
{
    pieces
        .iter()
        .filter(|p| p.fits(part))
        .map(|p| p.worth)
        .max()
        .unwrap_or(0)
}
