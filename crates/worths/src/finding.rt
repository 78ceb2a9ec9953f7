// A cut of a part whose two parts are together worth what the part is, by the table.
ghost use Rattle.ways.specs.Parts.{side_of};
ghost use Rattle.worths.specs.Cuts.{part_of};
ghost use Rattle.worths.specs.Found.{Reaching, CutFound};

use crate::Values;
use crate::place::Place;
use ways::{Cut, Orientation, Part};

impl Values {
    /// A cut of a part whose two parts are together worth what the part is, if there is one of that orientation. None is answered of
    /// an empty part, and of one that is wider or higher than the sheet.
    // Inlined, so that the loop is built for each orientation by itself: writing a way out takes a fifth less time.
    #[inline(always)]
    #[tactic(auto, using(crate::proofs::Found::cut_within))]
    pub fn find_cut(&self, orientation: Orientation, part: Part) -> Option<Cut<Part>>
        ensures { CutFound self.now orientation part result }
    {
        let place = Place::of(part)?;
        let worth = self.worth(part)?;
        let at = self.cut_worth(orientation, place, worth)?;
        part.sawn(orientation, at as u16, self.sheet.blade())
    }

    // Where the cut nearest to the middle is, of that orientation, whose two parts are worth so much together. It is found in the
    // nearer half, since its mirror is worth the same; the cut that leaves nothing on the other side comes last. `best_cut` goes over
    // the same cuts, but over all of them, and keeps the most: one loop for both would be both loops with a switch.
    fn cut_worth(&self, orientation: Orientation, place: Place, worth: u32) -> Option<usize>
        ensures { Reaching (part_of orientation self.now.cells place.part) self.now.sheet.blade (side_of orientation place.part.wide place.part.high) worth result }
    {
        let side = place.part.side(orientation);
        let blade = self.sheet.blade();
        if side <= blade {
            return None;
        }
        let wood = side - blade;
        for x in (1..wood / 2 + 1).rev() {
            let first = self.part(orientation, place, x);
            let second = self.part(orientation, place, wood - x);
            if first as u64 + second as u64 == worth as u64 {
                return Some(x);
            }
        }
        let ends_in_the_blade = blade >= 1;
        if ends_in_the_blade && self.part(orientation, place, wood) == worth {
            return Some(wood);
        }
        None
    }
}
