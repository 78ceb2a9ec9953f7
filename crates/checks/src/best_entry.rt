// What the entry that leaves a best way refuses, and what it leaves.
use crate::cases::{BOTH, NOISE, ONE, THREE, not_refused};
use best::saw;
use saw::Done;
use std::test::Fail;
use ways::{Pieces, Sheet, judge};

#[test]
fn first_refusal_first(rt: HostRuntime) {
    assert_eq!(rt; not_refused(saw), None);
}

// A sheet and its blade, pieces, what the sheet is worth, and how many nodes a best way has in which nothing is done in vain,
// where all such ways have as many.
type Sawn<'a> = ((u64, u64, u64), &'a [u32], u32, Option<u64>);

// The room is as long as it has to be.
#[test]
fn best_ways(rt: HostRuntime) -> Result<(), Fail> {
    let rows: [Sawn; 19] = [
        ((10, 6, 0), THREE, 62, Some(3)),
        ((10, 6, 1), THREE, 48, None),
        ((7, 7, 0), BOTH, 36, None),
        ((7, 7, 0), ONE, 24, None),
        ((4, 3, 0), ONE, 12, Some(1)),
        ((5, 3, 0), ONE, 12, Some(3)),
        ((5, 3, 1), ONE, 12, Some(3)),
        ((3, 3, 0), &[2, 2, 5], 5, Some(5)),
        // Nothing is wanted, nothing fits, or what fits is worth nothing.
        ((4, 3, 0), &[], 0, Some(1)),
        ((4, 3, 60), &[u32::MAX, u32::MAX, 100_000], 0, Some(1)),
        ((4, 3, 0), &[4, 3, 0], 0, Some(1)),
        ((1, 1, 0), ONE, 0, Some(1)),
        // The blade takes all that is left, or doesn't go into it.
        ((8, 3, 4), ONE, 12, Some(3)),
        ((5, 3, 2), ONE, 0, Some(1)),
        // A piece as it lies, though a cut is worth as much; and a cut that is worth more.
        ((4, 3, 0), &[2, 3, 6, 4, 3, 12], 12, Some(1)),
        ((4, 3, 0), &[2, 3, 7, 4, 3, 12], 14, Some(3)),
        // The dearer of two that fit.
        ((4, 3, 0), &[4, 3, 7, 4, 3, 12], 12, Some(1)),
        // The most nodes that any way has, and the most that any sheet is worth.
        ((60, 60, 0), &[1, 1, 100_000], 360_000_000, Some(7199)),
        ((60, 60, 60), &[1, 1, 100_000], 0, Some(1)),
    ];
    for ((wide, high, blade), numbers, worth, count) in rows {
        let sheet = Sheet::new(wide, high, blade)?;
        let pieces = Pieces::try_from(numbers)?;
        let mut room = vec![in rt.alloc(); NOISE; sheet.room()]?;
        let Done::Sawn(nodes, answered) = saw(wide, high, blade, numbers, room.as_mut_slice())
        else {
            return Err(Fail::new("refused"));
        };
        assert_eq!(rt; answered, worth as u64);
        if let Some(count) = count {
            assert_eq!(rt; nodes, count);
        }
        let written = nodes.saturating_mul(4) as usize;
        assert!(rt; room.iter().skip(written).all(|x| *x == NOISE));
        assert_eq!(rt; judge(sheet, &pieces, room.as_slice()), Some(worth));
    }
    Ok(())
}

// A way in numbers: what a node doesn't need is 0, and its parts follow it, the first part first.
#[test]
fn nodes_in_order(rt: HostRuntime) {
    let mut room = [NOISE; 120];
    assert_eq!(rt; saw(5, 3, 1, ONE, &mut room), Done::Sawn(3, 12));
    let nodes = [2u16, 4, 1, 2, 1, 0, 0, 0, 0, 0, 0, 0];
    assert_eq!(rt; &room[0..12], nodes.as_slice());
}
