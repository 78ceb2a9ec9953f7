// What a way yields: how many of each piece, and what became of the sheet's squares.
#![tactic(auto)]

ghost use Rattle.std.specs.Prelude.{◌≡◌, ℕ, ◌+◌, slice_index};
ghost use Rattle.ways.specs.Judged.{judged};
ghost use Rattle.ways.specs.Nodes.{way_at};
ghost use Rattle.ways.specs.View.{pieces_of};
ghost use Rattle.yields.specs.Answered.{Answered, way_of};
ghost use Rattle.yields.specs.Counts.{CountsAre, count_of};
ghost use Rattle.yields.specs.Squares.{AreasAre};
ghost use Rattle.yields.specs.Walks.{RoomFor, Sound};

mod squares;

pub use squares::Areas;
use squares::part_areas;
use ways::{MOST_SORTS, Node, Pieces, Sheet, judge};

/// How many of each piece a way yields, by the piece's number and then noughts, if the nodes are a way that can be sawn. It takes what
/// `judge` takes, and so does `areas`: whoever has these three can ask each.
pub fn piece_counts(sheet: Sheet, pieces: &Pieces, numbers: &[u16]) -> Option<[u32; MOST_SORTS]>
    ensures { Answered (judged sheet.blade (pieces_of pieces.now) sheet.wide sheet.high numbers.now) (CountsAre (pieces_of pieces.now) (way_of numbers.now)) result }
{
    judge(sheet, pieces, numbers)?;
    let mut counts = [0; MOST_SORTS];
    add_pieces(numbers, 0, &mut counts);
    Some(counts)
}

// Adds what the way yields that the nodes say from node i on. The numbers stay the same from node to node, and in `part_areas` the
// sheet too: a struct with this one method, for one or two of its parameters, is no plainer.
#[tactic(auto, using(crate::proofs::Reading::reading), unfolding(crate::specs::Counts::count_of))]
fn add_pieces(numbers: &[u16], i: usize, counts: &mut [u32])
    requires { (l : ℕ) × Sound numbers.now l i × RoomFor (way_at numbers.now l i) counts.old }
    ensures { (l : ℕ) → Sound numbers.now l i → (k : ℕ) → slice_index counts.new k ≡ slice_index counts.old k + count_of k (way_at numbers.now l i) }
{
    let Some(node) = Node::read(numbers, i) else {
        unreachable()
    };
    match node {
        Node::Scrap => {}
        Node::Take { piece } => counts[piece as usize] += 1,
        Node::Saw(cut) => {
            add_pieces(numbers, cut.first as usize, counts);
            add_pieces(numbers, cut.second as usize, counts);
        }
    }
}

/// How much of the sheet a way makes into pieces, blade and scrap, if the nodes are a way that can be sawn.
#[tactic(auto, using(crate::proofs::Reading::judged_some))]
pub fn areas(sheet: Sheet, pieces: &Pieces, numbers: &[u16]) -> Option<Areas>
    ensures { Answered (judged sheet.blade (pieces_of pieces.now) sheet.wide sheet.high numbers.now) (AreasAre sheet.blade (pieces_of pieces.now) sheet.wide sheet.high (way_of numbers.now)) result }
{
    judge(sheet, pieces, numbers)?;
    Some(part_areas(numbers, 0, &sheet, sheet.whole()))
}
