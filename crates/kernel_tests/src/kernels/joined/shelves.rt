//! Results in vectors that lie on a shelf: with space for as many items, for others, and for few.

use crate::joined_parts::are_parts;
use scan_kernels::{Meter, Sequential, Shelf, Z1, run_joined_ints};
use std::alloc::Global;
use std::process::Abort;

/// A vector of so many old items.
fn old(rt: &impl Abort, alloc: Global, length: usize) -> Vec<i64> {
    vec![in alloc; 7i64; length].expect(rt, "memory")
}

/// A shelf with vectors of so many items.
fn shelf_of(rt: &impl Abort, alloc: Global, lengths: &[usize]) -> Shelf<i64> {
    let mut shelf = Shelf::new(alloc);
    for &length in lengths {
        let kept = shelf.keep(old(rt, alloc, length), 10_000);
        assert!(rt; kept.is_ok());
    }
    shelf
}

/// What lies on the shelf, and for how many items it has space when results of 1,500, 0, 1,200 and 2,000 items were made: each of
/// the three takes one away, that of its length or the last.
const SHELVES: &[(&[usize], usize)] = &[
    (&[], 0),
    (&[1_200, 1_500, 2_000], 0),
    (&[2_000, 1_100, 1_500, 1_200, 1_300], 2_400),
    (&[1_100, 1_100, 1_100, 1_100], 1_100),
];

#[test]
fn takes_what_lies_on_the_shelf(rt: HostRuntime) {
    let items = vec![in rt.alloc(); 5i64; 2_000].expect(&rt, "memory");
    let turned = vec![in rt.alloc(); -6i64; 2_000].expect(&rt, "memory");
    let parts: [&[i64]; 4] = [&items[..1_500], &[], &items[..1_200], &items];
    let wanted: [&[i64]; 4] = [&turned[..1_500], &[], &turned[..1_200], &turned];
    for &(lengths, left) in SHELVES {
        let mut meter = Meter::new();
        let mut shelf = shelf_of(&rt, rt.alloc(), lengths);
        let made = run_joined_ints(&rt, &mut shelf, &mut meter, Z1::Not, &parts);
        assert!(rt; are_parts(&made.expect(&rt, "memory"), &wanted));
        assert!(rt; shelf.space() == left);
        assert!(rt; meter.runs() == 1);
    }
}

/// What lies on the shelf, and for how many items it has space when results of 2, 0 and 3 items were made: one of few items takes
/// the last vector if that has its length, and else none; one of no items takes none.
const SHORT_SHELVES: &[(&[usize], usize)] = &[
    (&[], 0),
    (&[2], 0),
    (&[3, 2], 0),
    (&[2, 3], 2),
    (&[3, 0, 2], 3),
    (&[3, 2, 1_024], 1_029),
];

/// Makes these results, and looks at what is left on each shelf.
fn few_items(rt: &impl Abort, alloc: Global, mut meter: Meter) {
    let parts: [&[i64]; 3] = [&[0, 5], &[], &[1, 2, 3]];
    let wanted: [&[i64]; 3] = [&[-1, -6], &[], &[-2, -3, -4]];
    for &(lengths, left) in SHORT_SHELVES {
        let mut shelf = shelf_of(rt, alloc, lengths);
        let made = run_joined_ints(&Sequential, &mut shelf, &mut meter, Z1::Not, &parts);
        assert!(rt; are_parts(&made.expect(rt, "memory"), &wanted));
        assert!(rt; shelf.space() == left);
    }
}

#[test]
fn few_items_take_the_last(rt: HostRuntime) {
    few_items(&rt, rt.alloc(), Meter::new());
}

#[test]
fn few_items_by_chunks_take_the_last(rt: HostRuntime) {
    few_items(&rt, rt.alloc(), Meter::with_chunk(1));
}

#[test]
fn a_shelf_has_few_places_and_a_bound(rt: HostRuntime) {
    let mut shelf = shelf_of(&rt, rt.alloc(), &[1; 64]);
    assert!(rt; shelf.keep(old(&rt, rt.alloc(), 1), 10_000).is_err());
    assert!(rt; shelf.space() == 64);
    let mut shelf = shelf_of(&rt, rt.alloc(), &[3]);
    assert!(rt; shelf.keep(old(&rt, rt.alloc(), 3), 5).is_err());
    assert!(rt; shelf.keep(old(&rt, rt.alloc(), 2), 5).is_ok());
    assert!(rt; shelf.keep(old(&rt, rt.alloc(), 0), 4).is_err());
    assert!(rt; shelf.space() == 5);
}
