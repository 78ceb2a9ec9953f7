// What more than one test tries: pieces, ways, and what an entry refuses.
use saw::Done;
use std::alloc::Global;
use std::test::Fail;
use ways::{Pieces, Sheet};

pub(crate) const ONE: &[u32] = &[4, 3, 12];

pub(crate) const BOTH: &[u32] = &[4, 3, 12, 3, 4, 12];

pub(crate) const THREE: &[u32] = &[4, 3, 12, 3, 2, 5, 5, 6, 31];

pub(crate) const SQUARE: &[u32] = &[2, 2, 5];

// A sheet and its blade, pieces, and nodes.
#[derive(Clone, Copy)]
pub(crate) struct Case {
    sheet: (u64, u64, u64),
    pieces: &'static [u32],
    nodes: &'static [[u16; 4]],
}

impl Case {
    // The sheet, the pieces and the numbers of the nodes.
    pub(crate) fn read(self, heap: Global) -> Result<(Sheet, Pieces, Vec<u16>), Fail> {
        let (wide, high, blade) = self.sheet;
        let mut numbers = Vec::new(heap);
        for node in self.nodes {
            numbers.extend_from_slice(node)?;
        }
        Ok((
            Sheet::new(wide, high, blade)?,
            Pieces::try_from(self.pieces)?,
            numbers,
        ))
    }
}

pub(crate) fn on(
    sheet: (u64, u64, u64),
    pieces: &'static [u32],
    nodes: &'static [[u16; 4]],
) -> Case {
    Case {
        sheet,
        pieces,
        nodes,
    }
}

// One of each of the three pieces.
pub(crate) const TEN_BY_SIX: Case = Case {
    sheet: (10, 6, 1),
    pieces: THREE,
    nodes: &[
        [2, 4, 1, 6],
        [3, 2, 2, 5],
        [2, 3, 3, 4],
        [1, 1, 0, 0],
        [0, 0, 0, 0],
        [1, 0, 0, 0],
        [1, 2, 0, 0],
    ],
};

pub(crate) const SEVEN_BY_SEVEN: Case = Case {
    sheet: (7, 7, 0),
    pieces: BOTH,
    nodes: &[
        [2, 4, 1, 6],
        [3, 3, 2, 3],
        [1, 0, 0, 0],
        [3, 3, 4, 5],
        [1, 0, 0, 0],
        [0, 0, 0, 0],
        [3, 4, 7, 8],
        [1, 1, 0, 0],
        [0, 0, 0, 0],
    ],
};

pub(crate) const THE_PIECE: Case = Case {
    sheet: (4, 3, 0),
    pieces: ONE,
    nodes: &[[1, 0, 0, 0]],
};

pub(crate) const ALL_SCRAP: Case = Case {
    sheet: (7, 7, 3),
    pieces: ONE,
    nodes: &[[0, 0, 0, 0]],
};

pub(crate) const NAMED_TWICE: Case = Case {
    sheet: (8, 3, 0),
    pieces: ONE,
    nodes: &[[2, 4, 1, 1], [1, 0, 0, 0]],
};

pub(crate) const EMPTY_PART_SAWN: Case = Case {
    sheet: (5, 3, 1),
    pieces: ONE,
    nodes: &[[2, 4, 1, 2], [1, 0, 0, 0], [3, 1, 3, 3], [0, 0, 0, 0]],
};

// The second piece lacks what the blade takes.
pub(crate) const BLADE_FORGOTTEN: Case = Case {
    sheet: (8, 3, 1),
    pieces: ONE,
    nodes: &[[2, 4, 1, 2], [1, 0, 0, 0], [1, 0, 0, 0]],
};

pub(crate) const NO_NODE: Case = Case {
    sheet: (4, 3, 0),
    pieces: ONE,
    nodes: &[],
};

// What the room holds before.
pub(crate) const NOISE: u16 = 7;

// More than the sheets below need, which have at most 12 squares.
pub(crate) const ROOM: usize = 100;

// A sheet and its blade, pieces, how many numbers of room are lent, and the number of the refusal.
type Refused = ((u64, u64, u64), &'static [u32], usize, u64);

const REFUSED: [Refused; 17] = [
    ((0, 3, 0), ONE, 100, 1),
    ((61, 3, 0), ONE, 100, 1),
    ((4, 0, 0), ONE, 100, 1),
    ((4, 61, 0), ONE, 100, 1),
    ((4, 3, 61), ONE, 100, 1),
    ((u64::MAX, u64::MAX, u64::MAX), ONE, 100, 1),
    ((4, 3, 0), &[4], 100, 2),
    ((4, 3, 0), &[4, 3, 12, 4, 3], 100, 2),
    ((4, 3, 0), &[0, 3, 12], 100, 2),
    ((4, 3, 0), &[4, 0, 12], 100, 2),
    ((4, 3, 0), &[4, 3, 100_001], 100, 2),
    ((4, 3, 0), &[1; 51], 100, 2),
    ((4, 3, 0), ONE, 95, 3),
    ((1, 1, 0), ONE, 0, 3),
    // Of several, the first of the list.
    ((0, 3, 0), &[0, 3, 12], 0, 1),
    ((4, 3, 61), ONE, 0, 1),
    ((4, 3, 0), &[4], 0, 2),
];

// The place of the first row that an entry doesn't refuse so, or after which the room isn't as it was.
pub(crate) fn not_refused<F: Fn(u64, u64, u64, &[u32], &mut [u16]) -> Done>(saw: F) -> Option<usize>
    requires { F.IsAlwaysCallable saw }
{
    for (k, ((wide, high, blade), pieces, len, number)) in REFUSED.into_iter().enumerate() {
        let mut room = [NOISE; ROOM];
        let done = saw(wide, high, blade, pieces, &mut room[0..len.min(ROOM)]);
        if done != Done::Refused(number) || room != [NOISE; ROOM] {
            return Some(k);
        }
    }
    None
}
