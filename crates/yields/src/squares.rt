// What became of a sheet's squares.
ghost use Rattle.std.specs.Prelude.{◌≡◌, ℕ, ◌*◌, ◌≤◌, List};
ghost use Rattle.ways.specs.Nodes.{way_at};
ghost use Rattle.ways.specs.declared.input.Piece.{Piece};
ghost use Rattle.yields.specs.Squares.{AreasAre};
ghost use Rattle.yields.specs.Walks.{OneSheet, Sawable, WithCut};

use ways::{Node, Part, Sheet};

/// How many squares of a sheet became pieces, went into the blade (sawdust) and are scrap (waste).
#[derive(Clone, Copy, Debug, Default, PartialEq, Eq)]
pub struct Areas {
    pub pieces: u32,
    pub blade: u32,
    pub scrap: u32,
}

// The areas of a part that can be sawn as node i says. A piece is just as wide and as high as its part. How large the part is, is
// asked here and not in `Part`, whose users may ask of any size.
#[tactic(auto, using(crate::proofs::Parting::parting), unfolding(crate::specs::Squares::blade_area, crate::specs::Squares::scrap_area, theorems::specs::Areas::area_of, ways::specs::Sheet::can))]
pub(crate) fn part_areas(numbers: &[u16], i: usize, sheet: &Sheet, part: Part) -> Areas
    requires small { (part.wide ≤ 60) × (part.high ≤ 60) }
    requires way { (ps : List Piece) × (l : ℕ) × Sawable sheet.now.blade ps numbers.now l i part }
    ensures areas { (ps : List Piece) (l : ℕ) → Sawable sheet.now.blade ps numbers.now l i part → AreasAre sheet.now.blade ps part.wide part.high (way_at numbers.now l i) result }
    ensures small { OneSheet result }
{
    let Some(node) = Node::read(numbers, i) else {
        unreachable()
    };
    match node {
        Node::Scrap => Areas {
            scrap: squares(part),
            ..Areas::default()
        },
        Node::Take { .. } => Areas {
            pieces: squares(part),
            ..Areas::default()
        },
        Node::Saw(cut) => {
            let blade = sheet.blade();
            let Some(parts) = part.sawn(cut.orientation, cut.at, blade) else {
                unreachable()
            };
            let sawdust = part.with_side(cut.orientation, blade);
            let first = part_areas(numbers, cut.first as usize, sheet, parts.first);
            let second = part_areas(numbers, cut.second as usize, sheet, parts.second);
            with_cut(squares(sawdust), first, second)
        }
    }
}

// The areas of both parts of a cut, and of the cut.
fn with_cut(cut: u32, first: Areas, second: Areas) -> Areas
    requires cut { cut ≤ 3600 }
    requires first { OneSheet first }
    requires second { OneSheet second }
    ensures { WithCut cut first second result }
{
    Areas {
        pieces: first.pieces + second.pieces,
        blade: cut + first.blade + second.blade,
        scrap: first.scrap + second.scrap,
    }
}

// How many squares a part has.
fn squares(part: Part) -> u32
    requires { (part.wide ≤ 60) × (part.high ≤ 60) }
    ensures all { result ≡ part.wide * part.high }
    ensures few { result ≤ 3600 }
{
    (part.wide * part.high) as u32
}
