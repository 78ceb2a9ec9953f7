// Ways judged, and sheets and pieces refused.
use crate::cases::{
    ALL_SCRAP, BLADE_FORGOTTEN, Case, EMPTY_PART_SAWN, NAMED_TWICE, NO_NODE, ONE, SEVEN_BY_SEVEN,
    SQUARE, TEN_BY_SIX, THE_PIECE, THREE, on,
};
use std::alloc::Global;
use std::test::Fail;
use ways::{Pieces, Sheet, judge};

fn judged(heap: Global, case: Case) -> Result<Option<u32>, Fail> {
    let (sheet, pieces, numbers) = case.read(heap)?;
    Ok(judge(sheet, &pieces, numbers.as_slice()))
}

#[test]
fn ways_that_can_be_sawn(rt: HostRuntime) -> Result<(), Fail> {
    let rows = [
        (
            62,
            on(
                (10, 6, 0),
                THREE,
                &[[2, 5, 1, 2], [1, 2, 0, 0], [1, 2, 0, 0]],
            ),
        ),
        (48, TEN_BY_SIX),
        (36, SEVEN_BY_SEVEN),
        (
            24,
            on(
                (7, 7, 0),
                ONE,
                &[
                    [2, 4, 1, 6],
                    [3, 3, 2, 3],
                    [1, 0, 0, 0],
                    [3, 3, 4, 5],
                    [1, 0, 0, 0],
                    [0, 0, 0, 0],
                    [0, 0, 0, 0],
                ],
            ),
        ),
        (12, THE_PIECE),
        (
            12,
            on((5, 3, 0), ONE, &[[2, 1, 1, 2], [0, 0, 0, 0], [1, 0, 0, 0]]),
        ),
        (
            12,
            on((5, 3, 1), ONE, &[[2, 4, 1, 2], [1, 0, 0, 0], [0, 0, 0, 0]]),
        ),
        (
            5,
            on(
                (3, 3, 0),
                SQUARE,
                &[
                    [2, 2, 1, 4],
                    [3, 2, 2, 3],
                    [1, 0, 0, 0],
                    [0, 0, 0, 0],
                    [0, 0, 0, 0],
                ],
            ),
        ),
        (0, ALL_SCRAP),
        // Numbers that a node doesn't need.
        (12, on((4, 3, 0), ONE, &[[1, 0, 9, 65535]])),
        // Nodes that aren't reached.
        (
            12,
            on((4, 3, 0), ONE, &[[1, 0, 0, 0], [9, 9, 9, 9], [2, 0, 0, 0]]),
        ),
        (24, NAMED_TWICE),
        // Later nodes in any order.
        (
            24,
            on(
                (9, 3, 1),
                ONE,
                &[[2, 4, 3, 2], [0, 0, 0, 0], [1, 0, 0, 0], [1, 0, 0, 0]],
            ),
        ),
        (12, EMPTY_PART_SAWN),
    ];
    for (worth, case) in rows {
        assert_eq!(rt; judged(rt.alloc(), case)?, Some(worth));
    }
    Ok(())
}

#[test]
fn ways_that_cannot(rt: HostRuntime) -> Result<(), Fail> {
    let rows = [
        NO_NODE,
        // A kind above 3.
        on((4, 3, 0), ONE, &[[4, 0, 0, 0]]),
        // Nothing on the first side.
        on((5, 3, 0), ONE, &[[2, 0, 1, 2], [0, 0, 0, 0], [1, 0, 0, 0]]),
        // The blade doesn't go in as a whole.
        on((5, 3, 2), ONE, &[[2, 4, 1, 2], [1, 0, 0, 0], [0, 0, 0, 0]]),
        // The blade takes nothing, and nothing is left beyond it.
        on((4, 3, 0), ONE, &[[2, 4, 1, 2], [1, 0, 0, 0], [0, 0, 0, 0]]),
        // The same of a level cut.
        on((4, 3, 0), ONE, &[[3, 3, 1, 2], [1, 0, 0, 0], [0, 0, 0, 0]]),
        BLADE_FORGOTTEN,
        // A piece narrower than its part.
        on((5, 3, 0), ONE, &[[1, 0, 0, 0]]),
        // A piece lower than its part.
        on((4, 4, 0), ONE, &[[1, 0, 0, 0]]),
        // A piece that was turned.
        on((3, 4, 0), ONE, &[[1, 0, 0, 0]]),
        // A piece that isn't there.
        on((4, 3, 0), ONE, &[[1, 1, 0, 0]]),
        // A node names itself.
        on((5, 3, 0), ONE, &[[2, 1, 0, 1], [1, 0, 0, 0]]),
        // A node names an earlier one.
        on((5, 3, 0), ONE, &[[2, 1, 1, 2], [2, 1, 0, 2], [0, 0, 0, 0]]),
        // A node names a missing one.
        on((5, 3, 0), ONE, &[[2, 1, 1, 2], [0, 0, 0, 0]]),
        // The first part is good and the second is bad.
        on((5, 3, 0), ONE, &[[2, 4, 1, 2], [1, 0, 0, 0], [1, 0, 0, 0]]),
    ];
    for case in rows {
        assert_eq!(rt; judged(rt.alloc(), case)?, None);
    }
    Ok(())
}

// Only whole nodes count.
#[test]
fn numbers_of_no_node(rt: HostRuntime) -> Result<(), Fail> {
    let sheet = Sheet::new(4, 3, 0)?;
    let pieces = Pieces::try_from(ONE)?;
    assert_eq!(rt; judge(sheet, &pieces, &[1, 0, 0]), None);
    assert_eq!(rt; judge(sheet, &pieces, &[1, 0, 0, 0, 2, 1]), Some(12));
    Ok(())
}

// Numbers for pieces, and the piece that is wrong.
#[test]
fn pieces_that_are_refused(rt: HostRuntime) {
    let fine = [1u32; 48];
    let too_many = [1u32; 51];
    let one_over = [1u32; 49];
    let rows: [(&[u32], Option<usize>); 11] = [
        (&[], None),
        (&[1, 1, 100_000], None),
        (&fine, None),
        (&too_many, Some(16)),
        (&one_over, Some(16)),
        (&[1], Some(0)),
        (&[1, 1, 1, 1, 1], Some(1)),
        (&[0, 1, 1], Some(0)),
        (&[1, 1, 1, 1, 0, 1], Some(1)),
        (&[1, 1, 1, 1, 1, 1, 1, 1, 100_001, 0], Some(2)),
        (&[1, 1, 1, 0, 1, 1, 0, 1, 1], Some(1)),
    ];
    for (numbers, wrong) in rows {
        let place = match Pieces::try_from(numbers) {
            Ok(_) => None,
            Err(refusal) => {
                assert_eq!(rt; refusal.number(), 2);
                Some(refusal.place())
            }
        };
        assert_eq!(rt; place, wrong);
    }
}

// A sheet and a blade, and which of the three is wrong.
#[test]
fn sheets_that_are_refused(rt: HostRuntime) {
    let rows: [(u64, u64, u64, Option<usize>); 11] = [
        (1, 1, 0, None),
        (60, 60, 60, None),
        (0, 1, 0, Some(0)),
        (61, 1, 0, Some(0)),
        (1, 0, 0, Some(1)),
        (1, 61, 0, Some(1)),
        (1, 1, 61, Some(2)),
        (0, 0, 61, Some(0)),
        (1, 61, 61, Some(1)),
        (u64::MAX, 1, 1, Some(0)),
        (60, 60, u64::MAX, Some(2)),
    ];
    for (wide, high, blade, wrong) in rows {
        let place = match Sheet::new(wide, high, blade) {
            Ok(_) => None,
            Err(refusal) => {
                assert_eq!(rt; refusal.number(), 1);
                Some(refusal.place())
            }
        };
        assert_eq!(rt; place, wrong);
    }
}
