// What the entry refuses, and what it leaves.
use crate::cases::{NOISE, ONE, ROOM, not_refused};
use saw::{Done, saw};

// A sheet and its blade, pieces, and how many numbers of room are lent. Nothing is to be refused.
type Taken = ((u64, u64, u64), &'static [u32], usize);

#[test]
fn first_refusal_first(rt: HostRuntime) {
    assert_eq!(rt; not_refused(saw), None);
    let taken: [Taken; 5] = [
        ((4, 3, 0), ONE, 96),
        ((4, 3, 60), ONE, 100),
        ((4, 3, 0), &[], 96),
        ((4, 3, 0), &[u32::MAX, u32::MAX, 100_000], 96),
        ((1, 1, 0), ONE, 8),
    ];
    let mut scrapped = [NOISE; ROOM];
    scrapped[0..4].copy_from_slice(&[0; 4]);
    for ((wide, high, blade), pieces, len) in taken {
        let mut room = [NOISE; ROOM];
        assert!(rt; len <= ROOM);
        assert_eq!(rt;
            saw(wide, high, blade, pieces, &mut room[0..len]),
            Done::Sawn(1, 0)
        );
        assert_eq!(rt; room, scrapped);
    }
}
