// A sheet and pieces that are as they may be: their constructors refuse all others.
ghost use Rattle.std.specs.Prelude.{◌≡◌, ◌+◌, ◌*◌, ◌<◌, ◌≤◌, true, false, ◌&&◌, [], ◌∷◌, ◌++◌, take, Some, None, MatchResult, nat_lt};
ghost use Rattle.ways.specs.Input.{piece_ok, pieces_ok, pieces_in};
ghost use Rattle.ways.specs.Refusals.{sheet_fault, pieces_fault};
ghost use Rattle.ways.specs.declared.refusals.Refusal.TheVariants.{Piece as BadPiece};

use crate::input::Piece;
use crate::parts::Part;
use crate::refusals::Refusal;

/// The widest and the highest that a sheet may be, and the most that a blade may take.
pub const LONGEST: u64 = 60;

/// The most sorts of pieces.
pub const MOST_SORTS: usize = 16;

// The most that a piece may be worth.
const DEAREST: u32 = 100_000;

/// So many wide and high, 1 to 60 each, and what the blade takes (the kerf), 0 to 60.
#[derive(Clone, Copy)]
pub struct Sheet {
    wide: usize,
    high: usize,
    blade: usize,
    ghost ok: { (1 ≤ wide) × (wide ≤ 60) × (1 ≤ high) × (high ≤ 60) × (blade ≤ 60) },
}

/// The sorts of pieces that are wanted, sixteen at most. They are an array with a count, since `Pieces` is `Copy` and an `ArrayVec`
/// isn't.
#[derive(Clone, Copy)]
pub struct Pieces {
    list: [Piece; MOST_SORTS],
    count: usize,
    ghost few: { count ≤ 16 },
    ghost ok: { pieces_ok (take count list) ≡ true },
}

impl Sheet {
    #[tactic(auto, unfolding(crate::specs::Refusals::sheet_fault))]
    pub fn new(wide: u64, high: u64, blade: u64) -> Result<Sheet, Refusal>
        ensures { MatchResult result (λ s. (sheet_fault wide high blade ≡ None) × (s.wide ≡ wide) × (s.high ≡ high) × (s.blade ≡ blade)) (λ e. sheet_fault wide high blade ≡ Some e) }
    {
        if wide < 1 || wide > LONGEST {
            return Err(Refusal::Wide);
        }
        if high < 1 || high > LONGEST {
            return Err(Refusal::High);
        }
        if blade > LONGEST {
            return Err(Refusal::Blade);
        }
        Ok(Sheet {
            wide: wide as usize,
            high: high as usize,
            blade: blade as usize,
        })
    }

    pub fn wide(&self) -> usize
        ensures { result ≡ self.now.wide }
    {
        self.wide
    }

    pub fn high(&self) -> usize
        ensures { result ≡ self.now.high }
    {
        self.high
    }

    pub fn blade(&self) -> usize
        ensures { result ≡ self.now.blade }
    {
        self.blade
    }

    /// The part that is all of it.
    pub fn whole(&self) -> Part
        ensures wide { result.wide ≡ self.now.wide }
        ensures high { result.high ≡ self.now.high }
    {
        Part {
            wide: self.wide,
            high: self.high,
        }
    }

    /// The fewest numbers that a room for its nodes may have: eight for each square.
    pub fn room(&self) -> usize
        ensures { result ≡ 8 * (self.now.wide * self.now.high) }
    {
        8 * (self.wide * self.high)
    }
}

impl Pieces {
    pub fn as_slice(&self) -> &[Piece]
        ensures { result.now ≡ take self.now.count self.now.list }
    {
        &self.list[0..self.count]
    }

    #[tactic(auto, unfolding(crate::specs::Input::pieces_ok))]
    fn none() -> Pieces
        ensures { result.count ≡ 0 }
    {
        Pieces {
            list: [Piece::default(); MOST_SORTS],
            count: 0,
        }
    }

    // One piece more, if there is place for it and it is as it may be; else nothing changes.
    #[tactic(auto, unfolding(crate::specs::Input::piece_ok), using(crate::proofs::Allowed::pieces_ok_push, crate::proofs::Allowed::piece_ok_from))]
    fn push(&mut self, p: Piece) -> Result<(), Refusal>
        ensures answer { MatchResult result (λ _. (nat_lt self.old.count 16 && piece_ok p) ≡ true) (λ e. ((nat_lt self.old.count 16 && piece_ok p) ≡ false) × (e ≡ BadPiece self.old.count)) }
        ensures held { MatchResult result (λ _. (self.new.count ≡ self.old.count + 1) × (take self.new.count self.new.list ≡ take self.old.count self.old.list ++ (p ∷ []))) (λ _. self.new ≡ self.old) }
    {
        if self.count < MOST_SORTS && p.wide >= 1 && p.high >= 1 && p.worth <= DEAREST {
            self.list[self.count] = p;
            self.count += 1;
            Ok(())
        } else {
            Err(Refusal::Piece(self.count))
        }
    }
}

// The pieces that numbers in threes stand for: wide, high, worth.
impl<'a> TryFrom<&'a [u32]> for Pieces {
    type Error = Refusal;

    ghost try_from_gives = { λ numbers r. MatchResult r (λ s. (pieces_fault numbers.now ≡ None) × (take s.count s.list ≡ pieces_in numbers.now)) (λ e. pieces_fault numbers.now ≡ Some e) };

    fn try_from(numbers: &'a [u32]) -> Result<Pieces, Refusal> {
        let mut pieces = Pieces::none();
        let (threes, rest) = numbers.as_chunks::<3>();
        for three in threes {
            pieces.push(Piece::from(*three))?;
        }
        if rest.is_empty() {
            Ok(pieces)
        } else {
            Err(Refusal::Piece(threes.len()))
        }
    }
}
