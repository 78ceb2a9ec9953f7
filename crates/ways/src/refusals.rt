// Why something is turned away, by number and place.
ghost use Rattle.std.specs.Prelude.{◌≡◌, Some};
ghost use Rattle.ways.specs.Refusals.{number_of, place_of, words_of, text_of};

use std::error::Error;
use std::fmt;

/// The refusals in the order in which they are looked for. Places count from 0.
#[derive(Clone, Copy, Debug, PartialEq, Eq)]
pub enum Refusal {
    // The sheet isn't 1 to 60 wide.
    Wide,
    // The sheet isn't 1 to 60 high.
    High,
    // The blade takes more than 60.
    Blade,
    // The piece of this number is past the sixteenth, lacks one of its three numbers, has no width or height,
    // or is worth more than 100,000.
    Piece(usize),
    // The room, of this many numbers, has fewer than eight for each square of the sheet.
    Room(usize),
    // The line of this number can't be read.
    Line(usize),
}

// Two numbers of one refusal, so two methods and no `From`.
impl Refusal {
    pub fn number(&self) -> u64
        ensures { result ≡ number_of self.now }
    {
        match self {
            Refusal::Wide | Refusal::High | Refusal::Blade => 1,
            Refusal::Piece(_) => 2,
            Refusal::Room(_) => 3,
            Refusal::Line(_) => 4,
        }
    }

    pub fn place(&self) -> usize
        ensures { result ≡ place_of self.now }
    {
        match self {
            Refusal::Wide => 0,
            Refusal::High => 1,
            Refusal::Blade => 2,
            Refusal::Piece(k) => *k,
            Refusal::Room(len) => *len,
            Refusal::Line(k) => *k,
        }
    }

    // What has to be so.
    fn words(&self) -> &'static str
        ensures { result.now ≡ words_of self.now }
    {
        match self {
            Refusal::Wide => "the sheet's width has to be 1 to 60",
            Refusal::High => "the sheet's height has to be 1 to 60",
            Refusal::Blade => "the blade may take 60 at most",
            Refusal::Piece(_) => {
                "there may be sixteen pieces, each at least 1 wide and high and worth 100000 at most"
            }
            Refusal::Room(_) => "the room has to have eight numbers for each square of the sheet",
            Refusal::Line(_) => {
                "a job has one line 'sheet WIDE HIGH blade BLADE' and lines 'piece NAME WIDE HIGH WORTH'"
            }
        }
    }
}

impl fmt::Display for Refusal {
    ghost output = { λ e. Some (text_of e) };

    fn fmt<W: fmt::Write>(&self, f: &mut fmt::Formatter<W>) -> fmt::Result {
        let (number, place, words) = (self.number(), self.place(), self.words());
        write!(f, "refused {number} at {place}: {words}")
    }
}

impl Error for Refusal {}
