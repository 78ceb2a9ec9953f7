// What is done with each part of a sheet, chosen by the table of what each part is worth.
ghost use Rattle.best.specs.Choosing.{Ready, spare_nodes};
ghost use Rattle.best.specs.Wanted.{BestFor};

use nodes::Chooser;
use ways::{Node, Orientation, Part};
use worths::{Lying, Uncut, Values};

/// What each part is as it lies, and what it is worth at best.
#[derive(Drop)]
pub struct ByTable<'a, U> {
    pub uncut: &'a U,
    pub values: &'a Values,
}

impl<'a, U: Lying> Chooser for ByTable<'a, U> {
    type Part = Part;

    ghost ready = { λ s p. Ready (U.Uncut.reckoned s.uncut.now) (U.Uncut.pieces s.uncut.now) s.values.now p.wide p.high };

    ghost spare = { λ s p. spare_nodes p.wide p.high };

    ghost good = { λ s p. BestFor (U.Uncut.reckoned s.uncut.now s.values.now.sheet.blade) (U.Uncut.leaf s.uncut.now) s.values.now.sheet.blade (U.Uncut.pieces s.uncut.now) p.wide p.high };

    // A part that is worth no more than as it lies is left so; any other has a cut whose two parts are worth what it is.
    fn choose(&self, part: Part) -> Node<Part> {
        let Some(worth) = self.values.worth(part) else {
            unreachable()
        };
        if worth == self.uncut.uncut_worth(part) {
            return match self.uncut.lies(part) {
                Some(piece) => Node::Take { piece },
                None => Node::Scrap,
            };
        }
        let upright = self.values.find_cut(Orientation::Upright, part);
        match upright.or_else(|| self.values.find_cut(Orientation::Level, part)) {
            Some(cut) => Node::Saw(cut),
            None => unreachable(),
        }
    }
}
