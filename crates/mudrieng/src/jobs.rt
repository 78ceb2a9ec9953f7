// A job, read line by line.
ghost use Rattle.mudrieng.specs.Jobs.{numbers_named};
ghost use Rattle.std.specs.Prelude.{◌≡◌, IfOk, min};

use crate::faults::Fault;
use std::alloc::{AllocError, Global};
use std::str::SplitWhitespace;
use ways::{MOST_SORTS, Piece, Refusal};

// A job as it stands in the text, with its numbers not yet checked.
#[derive(Drop)]
pub(crate) struct Job {
    pub sheet: Option<SheetLine>,
    // No more than the first seventeen: one is then too many.
    pub pieces: Vec<Named>,
    // The refusal of the first line that can't be read, and how many lines there are.
    pub unread: Option<Refusal>,
    pub lines: usize,
}

#[derive(Clone, Copy)]
pub struct SheetLine {
    pub wide: u64,
    pub high: u64,
    pub blade: u64,
}

/// A piece that is wanted, under its name.
#[derive(Drop)]
pub struct Named {
    pub name: String,
    pub piece: Piece,
}

impl Job {
    pub(crate) fn read(heap: Global, text: &str) -> Result<Job, Fault> {
        let mut job = Job {
            sheet: None,
            pieces: Vec::new(heap),
            unread: None,
            lines: 0,
        };
        for (k, line) in text.lines().enumerate() {
            if let Err(fault) = job.add(heap, k, line) {
                let Fault::Refused(refusal) = fault else {
                    return Err(fault);
                };
                job.unread = job.unread.or(Some(refusal));
            }
            job.lines = k.saturating_add(1);
        }
        Ok(job)
    }

    // Adds what line k says. It is refused where it can't be read, and where it is a second one for the sheet.
    fn add(&mut self, heap: Global, k: usize, line: &str) -> Result<(), Fault> {
        let refusal = Refusal::Line(k);
        match Line::try_from(line).map_err(|_| refusal)? {
            Line::Blank => {}
            Line::Sheet(_) if self.sheet.is_some() => return Err(Fault::Refused(refusal)),
            Line::Sheet(sheet) => self.sheet = Some(sheet),
            // One piece too many is refused, whatever those after it are.
            Line::Piece(..) if self.pieces.len() > MOST_SORTS => {}
            Line::Piece(name, piece) => self.pieces.push(Named {
                name: String::from_str(heap, name)?,
                piece,
            })?,
        }
        Ok(())
    }

    // Three for each piece: wide, high, worth.
    pub(crate) fn numbers(&self, heap: Global) -> Result<Vec<u32>, AllocError>
        ensures { IfOk result (λ numbers. numbers.items ≡ numbers_named self.now.pieces.items) }
    {
        let mut numbers = Vec::new(heap);
        for Named { piece, .. } in &self.pieces {
            numbers.extend_from_slice(&[piece.wide, piece.high, piece.worth])?;
        }
        Ok(numbers)
    }
}

#[derive(Clone, Copy)]
enum Line<'a> {
    Blank,
    Sheet(SheetLine),
    Piece(&'a str, Piece),
}

// A line that says nothing of a job.
#[derive(Clone, Copy, Debug)]
struct Unreadable;

impl<'a> TryFrom<&'a str> for Line<'a> {
    type Error = Unreadable;

    fn try_from(line: &'a str) -> Result<Line<'a>, Unreadable> {
        let mut words = Words(line.split_whitespace());
        let Some(first) = words.0.next() else {
            return Ok(Line::Blank);
        };
        if first.starts_with('#') {
            return Ok(Line::Blank);
        }
        let line = match first {
            "sheet" => Line::Sheet(words.sheet()?),
            "piece" => Line::Piece(words.word()?, words.piece()?),
            _ => return Err(Unreadable),
        };
        if words.0.next().is_some() {
            return Err(Unreadable);
        }
        Ok(line)
    }
}

// The words of a line that are still to be read.
#[derive(Drop)]
struct Words<'a>(SplitWhitespace<'a>);

impl<'a> Words<'a> {
    fn word(&mut self) -> Result<&'a str, Unreadable> {
        self.0.next().ok_or(Unreadable)
    }

    fn sheet(&mut self) -> Result<SheetLine, Unreadable> {
        let wide = self.number()?;
        let high = self.number()?;
        match self.word()? {
            "blade" => Ok(SheetLine {
                wide,
                high,
                blade: self.number()?,
            }),
            _ => Err(Unreadable),
        }
    }

    fn piece(&mut self) -> Result<Piece, Unreadable> {
        Ok(Piece {
            wide: narrowed(self.number()?),
            high: narrowed(self.number()?),
            worth: narrowed(self.number()?),
        })
    }

    // A run of digits, however many noughts it begins with; what is too long for a machine word counts as the largest.
    fn number(&mut self) -> Result<u64, Unreadable> {
        match self.word()?.trim_start_matches('0') {
            "" => Ok(0),
            digits if digits.bytes().all(|b| b.is_ascii_digit()) => {
                Ok(digits.parse().unwrap_or(u64::MAX))
            }
            _ => Err(Unreadable),
        }
    }
}

// The number, or the largest of 32 bits: no sheet is so wide or high, and no piece may be worth so much.
fn narrowed(n: u64) -> u32
    ensures { result ≡ min n 4294967295 }
{
    u32::try_from(n).unwrap_or(u32::MAX)
}
