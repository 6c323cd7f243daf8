//! Kernels in chunks of 1, 2, 7 and 4,096 items: in threads into fresh memory, and one chunk after another over a vector that
//! was kept.

use crate::by_chunks::{assert_both, by_chunks, kept};
use crate::cut::cut;
use permute_kernels::{
    are_places, back_permute_b, back_permute_z, gather_b, gather_z, in_range, is_permutation,
    is_whole_permutation, pack_b, pack_z, packed_lengths, permute_b, permute_whole_b,
    permute_whole_z, permute_z,
};
use scan_kernels::{Meter, Sequential};
use std::process::Abort;

const ITEMS: [i64; 10] = [3, -4, 0, 7, 1, -9, 5, 2, 8, -6];

const FLAGS: [bool; 10] = [
    true, false, false, true, true, false, true, false, false, true,
];

#[test]
fn gathers_integers(rt: HostRuntime) {
    let index = [9i64, 0, 3, 3, 8, 1, 0, 5, 5];
    assert!(rt; are_places(&index, ITEMS.len()));
    let wanted = [-6i64, 3, 7, 7, 8, -4, 3, -9, -9];
    by_chunks!(rt, 7i64, wanted, gather_z, &ITEMS, &index);
}

#[test]
fn gathers_truth_values(rt: HostRuntime) {
    let index = [9i64, 0, 2, 3, 8, 1, 0, 5, 6];
    assert!(rt; are_places(&index, FLAGS.len()));
    let wanted = [true, true, false, true, false, false, true, false, true];
    by_chunks!(rt, false, wanted, gather_b, &FLAGS, &index);
}

/// Where each of ten items goes.
const INDEX: [i64; 10] = [9, 0, 3, 2, 8, 1, 4, 5, 7, 6];

#[test]
fn permutes_integers(rt: HostRuntime) {
    let permutes = is_whole_permutation(rt.alloc(), &INDEX).expect(&rt, "memory");
    assert!(rt; permutes);
    let wanted = [-4i64, -9, 7, 0, 5, 2, -6, 8, 1, 3];
    by_chunks!(rt, 7i64, wanted, permute_whole_z, &ITEMS, &INDEX);
}

#[test]
fn permutes_truth_values(rt: HostRuntime) {
    let permutes = is_whole_permutation(rt.alloc(), &INDEX).expect(&rt, "memory");
    assert!(rt; permutes);
    let wanted = [
        false, false, true, false, true, false, true, false, true, true,
    ];
    by_chunks!(rt, false, wanted, permute_whole_b, &FLAGS, &INDEX);
}

/// The lengths of segments, with empty ones at the beginning, between others, and where chunks of two end.
const LENGTHS: [i64; 7] = [0, 3, 1, 0, 4, 0, 2];

/// Which place of its own segment each index reads, and how many each segment has.
const READ: [i64; 9] = [2, 0, 0, 0, 0, 3, 1, 1, 1];

const BY: [i64; 7] = [0, 2, 3, 0, 3, 0, 1];

#[test]
fn gathers_integers_of_segments(rt: HostRuntime) {
    let source = cut(&rt, rt.alloc(), &LENGTHS);
    let by = cut(&rt, rt.alloc(), &BY);
    assert!(rt; source.total() == ITEMS.len() && by.total() == READ.len());
    assert!(rt; source.count() == by.count());
    assert!(rt; in_range(&READ, &source, &by));
    let wanted = [0i64, 3, 7, 7, 7, 2, -9, -9, -6];
    by_chunks!(
        rt,
        7i64,
        wanted,
        back_permute_z,
        &ITEMS,
        &source,
        &READ,
        &by
    );
}

#[test]
fn gathers_truth_values_of_segments(rt: HostRuntime) {
    let source = cut(&rt, rt.alloc(), &LENGTHS);
    let by = cut(&rt, rt.alloc(), &BY);
    assert!(rt; source.total() == FLAGS.len() && by.total() == READ.len());
    assert!(rt; source.count() == by.count());
    assert!(rt; in_range(&READ, &source, &by));
    let wanted = [false, true, true, true, true, false, false, false, true];
    by_chunks!(
        rt,
        false,
        wanted,
        back_permute_b,
        &FLAGS,
        &source,
        &READ,
        &by
    );
}

/// Where each item goes in its segment.
const MOVED: [i64; 10] = [2, 0, 1, 0, 1, 3, 0, 2, 1, 0];

#[test]
fn permutes_integers_of_segments(rt: HostRuntime) {
    let segments = cut(&rt, rt.alloc(), &LENGTHS);
    assert!(rt; segments.total() == MOVED.len());
    let permutes = is_permutation(rt.alloc(), &MOVED, &segments).expect(&rt, "memory");
    assert!(rt; permutes);
    let wanted = [-4i64, 0, 3, 7, 5, 1, 2, -9, -6, 8];
    by_chunks!(rt, 7i64, wanted, permute_z, &ITEMS, &MOVED, &segments);
}

#[test]
fn permutes_truth_values_of_segments(rt: HostRuntime) {
    let segments = cut(&rt, rt.alloc(), &LENGTHS);
    assert!(rt; segments.total() == MOVED.len());
    let permutes = is_permutation(rt.alloc(), &MOVED, &segments).expect(&rt, "memory");
    assert!(rt; permutes);
    let wanted = [
        false, false, true, true, true, true, false, false, true, false,
    ];
    by_chunks!(rt, false, wanted, permute_b, &FLAGS, &MOVED, &segments);
}

#[test]
fn packs_integers(rt: HostRuntime) {
    let wanted = [3i64, 7, 1, 5, -6];
    by_chunks!(rt, 7i64, wanted, pack_z, &ITEMS, &FLAGS);
}

#[test]
fn packs_truth_values(rt: HostRuntime) {
    let kept = [
        true, true, false, false, true, false, false, true, false, false,
    ];
    let wanted = [true, false, true, false];
    by_chunks!(rt, false, wanted, pack_b, &FLAGS, &kept);
}

#[test]
fn counts_what_each_segment_keeps(rt: HostRuntime) {
    let segments = cut(&rt, rt.alloc(), &LENGTHS);
    assert!(rt; segments.total() == FLAGS.len());
    let wanted = [0i64, 1, 1, 0, 2, 0, 1];
    by_chunks!(rt, 7i64, wanted, packed_lengths, &FLAGS, &segments);
}

#[test]
fn packs_more_than_a_block(rt: HostRuntime) {
    let mut items = vec![in rt.alloc(); 0i64; 1_000].expect(&rt, "memory");
    for i in 0..items.len() {
        items[i] = i as i64;
    }
    let mut flags = vec![in rt.alloc(); true; 1_000].expect(&rt, "memory");
    flags[0] = false;
    flags[500] = false;
    let mut meter = Meter::with_chunk(300);
    let made = pack_z(&rt, rt.alloc(), &mut meter, &items, &flags).expect(&rt, "memory");
    assert!(rt; made.len() == 998);
    let around = [made.get(0), made.get(498), made.get(499), made.get(997)];
    assert!(rt; around == [Some(&1), Some(&499), Some(&501), Some(&999)]);
}
