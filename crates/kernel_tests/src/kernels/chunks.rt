//! Kernels in chunks of 1, 2, 7 and 4,096 items: in threads into fresh memory, and one chunk after another over a vector
//! that was kept.

use crate::by_chunks::{assert_both, by_chunks, kept};
use crate::cut::cut;
use crate::made::is_made;
use scan_kernels::{
    B1, B2, Cmp, Meter, ScanB, ScanZ, Sequential, Z1, Z2, compare2, distribute_b, distribute_z,
    index, index_whole, map1_b, map1_z, map2_b, map2_z, number, reduce_b, reduce_whole_b,
    reduce_whole_z, reduce_z, repeat_b, repeat_z, scan_b, scan_whole_b, scan_whole_z, scan_z,
    select_b, select_z, truth,
};
use std::process::Abort;

const LEFT: [i64; 10] = [3, -4, 0, 7, 1, -9, 5, 2, 8, -6];

const RIGHT: [i64; 10] = [1, 2, 3, -4, 5, 6, -7, 8, 9, 10];

const FLAGS: [bool; 10] = [
    true, false, false, true, true, false, true, false, false, true,
];

const OTHERS: [bool; 10] = [
    true, true, false, false, true, false, false, true, false, false,
];

/// The lengths of segments, with empty ones at the beginning, between others, and where chunks of two end.
const LENGTHS: [i64; 7] = [0, 3, 1, 0, 4, 0, 2];

#[test]
fn subtracts(rt: HostRuntime) {
    let wanted = [2i64, -6, -3, 11, -4, -15, 12, -6, -1, -16];
    by_chunks!(rt, 7i64, wanted, map2_z, Z2::Sub, &LEFT, &RIGHT);
}

#[test]
fn turns_bits_over(rt: HostRuntime) {
    let wanted = [-4i64, 3, -1, -8, -2, 8, -6, -3, -9, 5];
    by_chunks!(rt, 7i64, wanted, map1_z, Z1::Not, &LEFT);
}

#[test]
fn tells_which_are_less(rt: HostRuntime) {
    let wanted = [
        false, true, true, false, true, true, false, true, true, true,
    ];
    by_chunks!(rt, true, wanted, compare2, Cmp::Les, &LEFT, &RIGHT);
}

#[test]
fn tells_which_differ(rt: HostRuntime) {
    let wanted = [
        false, true, false, true, false, false, true, true, false, true,
    ];
    by_chunks!(rt, true, wanted, map2_b, B2::Xor, &FLAGS, &OTHERS);
}

#[test]
fn turns_truth_values_over(rt: HostRuntime) {
    let wanted = [
        false, true, true, false, false, true, false, true, true, false,
    ];
    by_chunks!(rt, true, wanted, map1_b, B1::Not, &FLAGS);
}

#[test]
fn tells_which_are_not_zero(rt: HostRuntime) {
    let wanted = [true, true, false, true, true, true, true, true, true, true];
    by_chunks!(rt, false, wanted, truth, &LEFT);
}

#[test]
fn gives_ones_for_true(rt: HostRuntime) {
    let wanted = [1i64, 0, 0, 1, 1, 0, 1, 0, 0, 1];
    by_chunks!(rt, 7i64, wanted, number, &FLAGS);
}

#[test]
fn chooses_integers(rt: HostRuntime) {
    let wanted = [3i64, 2, 3, 7, 1, 6, 5, 8, 9, -6];
    by_chunks!(rt, 7i64, wanted, select_z, &FLAGS, &LEFT, &RIGHT);
}

#[test]
fn chooses_truth_values(rt: HostRuntime) {
    let wanted = [
        true, false, false, false, true, false, false, false, false, false,
    ];
    by_chunks!(rt, true, wanted, select_b, &FLAGS, &OTHERS, &FLAGS);
}

#[test]
fn adds_up_segments(rt: HostRuntime) {
    let segments = cut(&rt, rt.alloc(), &LENGTHS);
    assert!(rt; segments.total() == LEFT.len());
    let wanted = [0i64, -1, 7, 0, -1, 0, 2];
    by_chunks!(rt, 7i64, wanted, reduce_z, ScanZ::Add, &LEFT, &segments);
}

#[test]
fn tells_in_which_segments_all_are_true(rt: HostRuntime) {
    let segments = cut(&rt, rt.alloc(), &LENGTHS);
    assert!(rt; segments.total() == FLAGS.len());
    let wanted = [true, false, true, true, false, true, false];
    by_chunks!(rt, true, wanted, reduce_b, ScanB::And, &FLAGS, &segments);
}

#[test]
fn reduces_all_items(rt: HostRuntime) {
    for chunk in [1, 2, 7, 4_096] {
        let mut meter = Meter::with_chunk(chunk);
        assert!(rt; reduce_whole_z(&rt, &mut meter, ScanZ::Add, &LEFT) == 7);
        assert!(rt; reduce_whole_z(&Sequential, &mut meter, ScanZ::Max, &LEFT) == 8);
        assert!(rt; reduce_whole_b(&rt, &mut meter, ScanB::Xor, &FLAGS));
        assert!(rt; !reduce_whole_b(&Sequential, &mut meter, ScanB::And, &FLAGS));
        assert!(rt; meter.runs() == 4);
    }
}

#[test]
fn adds_up_before_each_item(rt: HostRuntime) {
    let wanted = [0i64, 3, -1, -1, 6, 7, -2, 3, 5, 13];
    by_chunks!(rt, 7i64, wanted, scan_whole_z, ScanZ::Add, &LEFT);
}

#[test]
fn tells_before_which_items_one_is_true(rt: HostRuntime) {
    let wanted = [false, true, true, true, true, true, true, true, true, true];
    by_chunks!(rt, true, wanted, scan_whole_b, ScanB::Ior, &FLAGS);
}

#[test]
fn adds_up_before_each_item_of_a_segment(rt: HostRuntime) {
    let segments = cut(&rt, rt.alloc(), &LENGTHS);
    assert!(rt; segments.total() == LEFT.len());
    let wanted = [0i64, 3, -1, 0, 0, 1, -8, -3, 0, 8];
    by_chunks!(rt, 7i64, wanted, scan_z, ScanZ::Add, &LEFT, &segments);
}

#[test]
fn tells_before_which_items_of_a_segment_an_odd_number_is_true(rt: HostRuntime) {
    let segments = cut(&rt, rt.alloc(), &LENGTHS);
    assert!(rt; segments.total() == FLAGS.len());
    let wanted = [
        false, true, true, false, false, true, true, false, false, false,
    ];
    by_chunks!(rt, true, wanted, scan_b, ScanB::Xor, &FLAGS, &segments);
}

#[test]
fn repeats_an_item(rt: HostRuntime) {
    by_chunks!(rt, 7i64, [-5i64; 10], repeat_z, -5, 10);
    by_chunks!(rt, false, [true; 9], repeat_b, true, 9);
}

#[test]
fn rises_by_a_stride(rt: HostRuntime) {
    let wanted = [3i64, 1, -1, -3, -5, -7, -9, -11, -13, -15];
    by_chunks!(rt, 7i64, wanted, index_whole, 3, -2, 10);
}

#[test]
fn gives_out_integers(rt: HostRuntime) {
    let segments = cut(&rt, rt.alloc(), &LENGTHS);
    assert!(rt; segments.count() == 7);
    let wanted = [2i64, 2, 2, 3, 5, 5, 5, 5, 7, 7];
    by_chunks!(
        rt,
        7i64,
        wanted,
        distribute_z,
        &[1, 2, 3, 4, 5, 6, 7],
        &segments
    );
}

#[test]
fn gives_out_truth_values(rt: HostRuntime) {
    let segments = cut(&rt, rt.alloc(), &LENGTHS);
    assert!(rt; segments.count() == 7);
    let flags = [true, false, true, true, false, true, true];
    let wanted = [
        false, false, false, true, false, false, false, false, true, true,
    ];
    by_chunks!(rt, false, wanted, distribute_b, &flags, &segments);
}

#[test]
fn rises_in_each_segment(rt: HostRuntime) {
    let segments = cut(&rt, rt.alloc(), &LENGTHS);
    assert!(rt; segments.count() == 7);
    let starts = [9, 0, 5, 9, -1, 9, 100];
    let strides = [9, 2, 0, 9, 1, 9, -50];
    let wanted = [0i64, 2, 4, 5, -1, 0, 1, 2, 100, 50];
    by_chunks!(rt, 7i64, wanted, index, &starts, &strides, &segments);
}

#[test]
fn begins_anew_behind_empty_segments(rt: HostRuntime) {
    let segments = cut(&rt, rt.alloc(), &[0, 50_000, 0, 0, 50_000]);
    let ones = vec![in rt.alloc(); 1i64; 100_000].expect(&rt, "memory");
    assert!(rt; segments.total() == ones.len());
    let mut meter = Meter::with_chunk(4_095);
    let made = scan_z(&rt, rt.alloc(), &mut meter, ScanZ::Add, &ones, &segments);
    let made = made.expect(&rt, "memory");
    assert!(rt; made.get(49_999) == Some(&49_999) && made.get(50_000) == Some(&0));
    let sums = reduce_z(&rt, rt.alloc(), &mut meter, ScanZ::Add, &ones, &segments);
    let wanted = [0i64, 50_000, 0, 0, 50_000];
    assert!(rt; is_made(sums, wanted.as_slice()));
}
