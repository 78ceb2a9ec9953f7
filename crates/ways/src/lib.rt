// Sheets, pieces and ways of sawing a sheet, and what judges a way.
#![tactic(auto)]

ghost use Rattle.std.specs.Prelude.{◌≡◌, ℕ, ◌+◌, ◌/◌, ◌≤◌, length, if◌then◌else◌, Some, None};
ghost use Rattle.ways.specs.Judged.{judged, worth_from};
ghost use Rattle.ways.specs.Nodes.{comes_later, all_later};
ghost use Rattle.ways.specs.Sheet.{piece_fits, worth_at};
ghost use Rattle.ways.specs.View.{pieces_of};

mod checked;
mod input;
mod nodes;
mod parts;
mod refusals;

pub use checked::{LONGEST, MOST_SORTS, Pieces, Sheet};
pub use input::Piece;
pub use nodes::{Cut, Node, UnknownKind};
pub use parts::{Orientation, Part};
pub use refusals::Refusal;

/// Judges nodes of four numbers each, of which the first is the way: what it is worth, if it can be sawn. A node that names itself,
/// an earlier or a missing one is no way, nor is one of a kind above 3; numbers that a node doesn't need and nodes that the way
/// doesn't reach are of no matter.
#[tactic(auto, unfolding(crate::specs::Judged::judged))]
pub fn judge(sheet: Sheet, pieces: &Pieces, numbers: &[u16]) -> Option<u32>
    ensures { result ≡ judged sheet.blade (pieces_of pieces.now) sheet.wide sheet.high numbers.now }
{
    Lent { sheet, pieces }.part_worth(numbers, 0, sheet.whole())
}

// What a way is sawn from and for. Its numbers go from node to node beside this: each node waits for them, and behind one more
// reference judging takes longer by a tenth and more.
#[derive(Clone, Copy)]
struct Lent<'a> {
    sheet: Sheet,
    pieces: &'a Pieces,
}

impl Lent<'_> {
    // What a part is worth, sawn as node i says. Every cut makes its parts smaller, so the sheet bounds how many nodes are looked
    // at, however many name the same one. How large the part is, is asked here and not in `Part`, whose users may ask of any size.
    fn part_worth(&self, numbers: &[u16], i: usize, part: Part) -> Option<u32>
        requires { (part.wide ≤ 60) × (part.high ≤ 60) }
        ensures { (l : ℕ) → length numbers.now / 4 ≤ l + i → result ≡ worth_from self.now.sheet.blade (pieces_of self.now.pieces.now) numbers.now (length numbers.now / 4) l i part.wide part.high }
    {
        let node = Node::read(numbers, i)?;
        if !names_later(node, i, numbers.len() / 4) {
            return None;
        }
        match node {
            Node::Scrap => Some(0),
            Node::Take { piece } => fitting(self.pieces.as_slice(), piece, part),
            Node::Saw(cut) => {
                let parts = part.sawn(cut.orientation, cut.at, self.sheet.blade())?;
                let first = self.part_worth(numbers, cut.first as usize, parts.first)?;
                let second = self.part_worth(numbers, cut.second as usize, parts.second)?;
                Some(first + second)
            }
        }
    }
}

// What piece k is worth, if it is just so wide and so high.
#[tactic(auto, using(crate::proofs::Fits::fits_at, crate::proofs::Fits::fits_past, crate::proofs::Fits::worth_here))]
fn fitting(pieces: &[Piece], k: u16, part: Part) -> Option<u32>
    ensures { result ≡ (if piece_fits pieces.now k part.wide part.high then Some (worth_at pieces.now k) else None) }
{
    let p = pieces.get(k as usize)?;
    if p.fits(part) { Some(p.worth) } else { None }
}

// Node i names only nodes that come after it, among so many.
fn names_later(node: Node<u16>, i: usize, count: usize) -> bool
    ensures { result ≡ all_later count i (Some node) }
{
    match node {
        Node::Scrap | Node::Take { .. } => true,
        Node::Saw(cut) => later(cut.first, i, count) && later(cut.second, i, count),
    }
}

fn later(node: u16, i: usize, count: usize) -> bool
    ensures { result ≡ comes_later count i node }
{
    i < node as usize && (node as usize) < count
}
