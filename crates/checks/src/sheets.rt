// What sheets are worth.
use crate::cases::{BOTH, ONE, THREE};
use std::test::Fail;
use ways::{Part, Pieces, Sheet};
use worths::{best_worths, sheet_worth};

// A sheet and its blade, pieces, and what the sheet is worth.
type Row<'a> = ((u64, u64, u64), &'a [u32], u32);

#[test]
fn sheets_and_their_worth(rt: HostRuntime) -> Result<(), Fail> {
    let rows: [Row; 16] = [
        ((10, 6, 0), THREE, 62),
        ((10, 6, 1), THREE, 48),
        ((7, 7, 0), BOTH, 36),
        ((7, 7, 0), ONE, 24),
        ((4, 3, 0), ONE, 12),
        ((5, 3, 0), ONE, 12),
        ((5, 3, 1), ONE, 12),
        ((3, 3, 0), &[2, 2, 5], 5),
        // The blade takes all that is left.
        ((8, 3, 4), ONE, 12),
        // With a blade of 2 a sheet that is 1 wider is worth less.
        ((4, 3, 2), ONE, 12),
        ((5, 3, 2), ONE, 0),
        // Nothing is wanted, or nothing fits.
        ((60, 60, 0), &[], 0),
        ((60, 60, 0), &[61, 1, 100_000], 0),
        // The cheaper of two that fit is no matter.
        ((4, 3, 0), &[4, 3, 12, 4, 3, 7], 12),
        // The most that any sheet is worth.
        ((60, 60, 0), &[1, 1, 100_000], 360_000_000),
        ((60, 60, 60), &[1, 1, 100_000], 0),
    ];
    for ((wide, high, blade), numbers, worth) in rows {
        let sheet = Sheet::new(wide, high, blade)?;
        let pieces = Pieces::try_from(numbers)?;
        assert_eq!(rt; sheet_worth(sheet, &pieces), worth);
    }
    Ok(())
}

// The parts of one sheet, the empty ones among them, and what is no part of it.
#[test]
fn parts_and_their_worth(rt: HostRuntime) -> Result<(), Fail> {
    let values = best_worths(Sheet::new(10, 6, 1)?, &Pieces::try_from(THREE)?);
    assert_eq!(rt; values.whole(), 48);
    let rows: [(usize, usize, Option<u32>); 10] = [
        (10, 6, Some(48)),
        (4, 6, Some(17)),
        (5, 6, Some(31)),
        (4, 2, Some(5)),
        (3, 4, Some(5)),
        (0, 6, Some(0)),
        (10, 0, Some(0)),
        (0, 0, Some(0)),
        (11, 6, None),
        (10, 7, None),
    ];
    for (wide, high, worth) in rows {
        assert_eq!(rt; values.worth(Part { wide, high }), worth);
    }
    Ok(())
}
