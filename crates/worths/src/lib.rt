// What a sheet, and each part of it, is worth at best: the exact dynamic program over widths and heights, smallest first.
#![tactic(auto)]

ghost use Rattle.std.specs.Prelude.{◌≡◌, ℕ, ◌<◌, ◌≤◌, Some};
ghost use Rattle.ways.specs.Parts.{side_of, with_side};
ghost use Rattle.ways.specs.View.{pieces_of};
ghost use Rattle.ways.specs.declared.parts.Orientation.{Orientation};
ghost use Rattle.worths.specs.Cuts.{part_of, BestCut};
ghost use Rattle.worths.specs.Pieces.{WorthIs, WorthsAre};
ghost use Rattle.worths.specs.Reckoned.{Most};
ghost use Rattle.worths.specs.Table.{cell, value_at, Right, ValuesAre};

mod finding;
mod lies;
mod pieces;
mod place;
mod uncut;

pub use lies::Lying;
use place::{LONGEST, Place};
pub use uncut::Uncut;
use ways::{Orientation, Part, Pieces, Sheet};

// How many numbers the table has: one for each width and height.
const CELLS: usize = LONGEST * LONGEST;

/// What a sheet, and each that is no wider and no higher, is worth: 3,600 numbers by value, since the libraries use no heap.
#[derive(Drop)]
pub struct Values {
    sheet: Sheet,
    cells: [u32; CELLS],
}

/// What a sheet is worth for these pieces.
#[tactic(auto, using(crate::proofs::Says::whole_worth))]
pub fn sheet_worth(sheet: Sheet, pieces: &Pieces) -> u32
    ensures { WorthIs sheet.blade (pieces_of pieces.now) sheet.wide sheet.high result }
{
    best_worths(sheet, pieces).whole()
}

/// What each part of a sheet is worth for these pieces: the worth of a way that can be sawn, and no way whatever is worth more.
#[tactic(auto, using(crate::proofs::Says::worths_are))]
pub fn best_worths(sheet: Sheet, pieces: &Pieces) -> Values
    ensures sheet { result.sheet ≡ sheet }
    ensures worths { WorthsAre sheet.blade (pieces_of pieces.now) sheet.wide sheet.high result }
{
    values_of(sheet, pieces)
}

/// The same, whatever it is that a part is worth as it lies.
// Not inlined: where it is, the table is cleared and copied several times.
#[inline(never)]
pub fn values_of<U: Uncut>(sheet: Sheet, uncut: &U) -> Values
    ensures sheet { result.sheet ≡ sheet }
    ensures values { ValuesAre (U.reckoned uncut.now) (U.pieces uncut.now) result }
{
    let mut values = Values {
        sheet,
        cells: [0; CELLS],
    };
    for wide in 1..sheet.wide() + 1 {
        for high in 1..sheet.high() + 1 {
            let place = Place {
                part: Part { wide, high },
            };
            let worth = part_worth(&values, uncut, place);
            values.cells[place.index()] = worth;
        }
    }
    values
}

impl Values {
    /// What a part is worth, if it is no wider and no higher than the sheet. An empty one is worth nothing.
    #[tactic(auto, using(crate::proofs::Says::value_there, crate::proofs::Says::value_beyond, crate::proofs::Cells::cell_of_none))]
    pub fn worth(&self, part: Part) -> Option<u32>
        ensures { result ≡ value_at self.now part.wide part.high }
    {
        if part.wide > self.sheet.wide() || part.high > self.sheet.high() {
            return None;
        }
        match Place::of(part) {
            Some(place) => Some(self.cell(place)),
            None => Some(0),
        }
    }

    /// What the whole sheet is worth.
    #[tactic(auto, using(crate::proofs::Says::value_there))]
    pub fn whole(&self) -> u32
        ensures { value_at self.now self.now.sheet.wide self.now.sheet.high ≡ Some result }
    {
        let part = self.sheet.whole();
        self.cell(Place { part })
    }

    #[tactic(auto, using(crate::proofs::Cells::cell_at))]
    fn cell(&self, place: Place) -> u32
        ensures { result ≡ cell self.now.cells place.part.wide place.part.high }
    {
        self.cells[place.index()]
    }

    // What the part is worth to which a cut shortens one side. The orientation and the place go through three functions side by side;
    // a struct of both would be taken apart again in each.
    fn part(&self, orientation: Orientation, place: Place, side: usize) -> u32
        requires { (1 ≤ side) × (side ≤ 60) }
        ensures { result ≡ part_of orientation self.now.cells place.part side }
    {
        self.cell(Place {
            part: place.part.with_side(orientation, side),
        })
    }

    // The better of `before` and the best of all cuts of that orientation. A cut that leaves something on both sides is tried
    // in the nearer half only, since its mirror is worth the same; one that leaves nothing on the other side is tried by itself.
    fn best_cut(&self, orientation: Orientation, place: Place, before: u32) -> u32
        requires { (x : ℕ) → x < side_of orientation place.part.wide place.part.high → part_of orientation self.now.cells place.part x ≤ 360000000 }
        ensures { BestCut (part_of orientation self.now.cells place.part) self.now.sheet.blade (side_of orientation place.part.wide place.part.high) before result }
    {
        let side = place.part.side(orientation);
        let blade = self.sheet.blade();
        if side <= blade {
            return before;
        }
        let rest = side - blade;
        let may_leave_nothing = blade >= 1;
        let mut best = before;
        if may_leave_nothing {
            best = best.max(self.part(orientation, place, rest));
        }
        for x in 1..rest / 2 + 1 {
            let first = self.part(orientation, place, x);
            let second = self.part(orientation, place, rest - x);
            best = best.max(first + second);
        }
        best
    }
}

// What a part is worth, from what smaller ones are.
fn part_worth<U: Uncut>(values: &Values, uncut: &U, place: Place) -> u32
    requires { (o : Orientation) (x : ℕ) → x < side_of o place.part.wide place.part.high → let q = with_side o place.part x in Right (U.reckoned uncut.now) (U.pieces uncut.now) values.now q.wide q.high }
    ensures { Most (U.reckoned uncut.now values.now.sheet.blade) values.now.sheet.blade (U.pieces uncut.now) place.part.wide place.part.high result }
{
    let whole = uncut.uncut_worth(place.part);
    let upright = values.best_cut(Orientation::Upright, place, whole);
    values.best_cut(Orientation::Level, place, upright)
}
