// What a part of a sheet is worth as it lies, uncut: all that the table knows about pieces.
ghost use Rattle.std.specs.Prelude.{◌≡◌, ℕ, ◌*◌, ◌≤◌, List};
ghost use Rattle.ways.specs.Sheet.{Way};
ghost use Rattle.ways.specs.declared.input.Piece.{Piece};
ghost use Rattle.worths.specs.Reckoned.{AddsUp};

use ways::Part;

pub trait Uncut {
    // The pieces that may lie there.
    ghost pieces: { Self → List Piece };

    // What a way is worth: of the blade, the part's width and height, and the way.
    ghost reckoned: { Self → ℕ → ℕ → ℕ → Way → ℕ };

    // The most that a part so wide and so high is worth as it lies.
    ghost leaf: { Self → ℕ → ℕ → ℕ };

    fn uncut_worth(&self, part: Part) -> u32
        ensures { result ≡ leaf self.now part.wide part.high };

    // Worths add up over a cut, and scrap and pieces that fit are worth no more than `leaf`.
    ghost adds: { (u : Self) (blade : ℕ) → AddsUp (reckoned u blade) (leaf u) blade (pieces u) };

    // So an empty part is worth nothing, and no sum of worths is too large.
    ghost small: { (u : Self) (w h : ℕ) → leaf u w h ≤ 100000 * (w * h) };
}
