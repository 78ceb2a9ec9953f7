// What ways yield.
use crate::cases::{
    ALL_SCRAP, BLADE_FORGOTTEN, EMPTY_PART_SAWN, NAMED_TWICE, NO_NODE, ONE, SEVEN_BY_SEVEN,
    TEN_BY_SIX, THE_PIECE, on,
};
use std::test::Fail;
use ways::MOST_SORTS;
use yields::{Areas, areas, piece_counts};

// So many of the first three pieces, and none of the others.
fn of_three((first, second, third): (u32, u32, u32)) -> [u32; MOST_SORTS] {
    [first, second, third, 0, 0, 0, 0, 0, 0, 0, 0, 0, 0, 0, 0, 0]
}

fn parted(pieces: u32, blade: u32, scrap: u32) -> Areas {
    Areas {
        pieces,
        blade,
        scrap,
    }
}

#[test]
fn ways_and_their_yield(rt: HostRuntime) -> Result<(), Fail> {
    let rows = [
        (Some(((1, 1, 1), parted(48, 12, 0))), TEN_BY_SIX),
        (Some(((2, 1, 0), parted(36, 0, 13))), SEVEN_BY_SEVEN),
        // Pieces, blade and scrap.
        (
            Some(((1, 0, 0), parted(12, 8, 4))),
            on((4, 6, 2), ONE, &[[3, 3, 1, 2], [1, 0, 0, 0], [0, 0, 0, 0]]),
        ),
        (Some(((1, 0, 0), parted(12, 0, 0))), THE_PIECE),
        (Some(((0, 0, 0), parted(0, 0, 49))), ALL_SCRAP),
        (Some(((2, 0, 0), parted(24, 0, 0))), NAMED_TWICE),
        // The second cut takes nothing.
        (Some(((1, 0, 0), parted(12, 3, 0))), EMPTY_PART_SAWN),
        (None, BLADE_FORGOTTEN),
        (None, NO_NODE),
    ];
    for (expected, case) in rows {
        let (sheet, pieces, numbers) = case.read(rt.alloc())?;
        let counts = piece_counts(sheet, &pieces, numbers.as_slice());
        let squares = areas(sheet, &pieces, numbers.as_slice());
        assert_eq!(rt; counts, expected.map(|(three, _)| of_three(three)));
        assert_eq!(rt; squares, expected.map(|(_, squares)| squares));
    }
    Ok(())
}
