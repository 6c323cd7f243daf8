//! Permutes and back permutes, of one segment and of several.

use crate::cut::cut;
use crate::made::is_made;
use permute_kernels::{
    are_places, back_permute_b, back_permute_z, gather_b, gather_z, in_range, is_permutation,
    is_whole_permutation, permute_b, permute_whole_b, permute_whole_z, permute_z,
};
use scan_kernels::{Execution, Meter, Sequential};
use std::alloc::Global;
use std::process::Abort;
use std::thread::Threads;

/// The permuted integers, where the index is a permutation and one run was counted.
fn permuted_z<R: Abort + Threads + Execution<Shared = R> + Sync>(
    rt: &R,
    alloc: Global,
    items: &[i64],
    index: &[i64],
    lengths: &[i64],
) -> Vec<i64> {
    let segments = cut(rt, alloc, lengths);
    assert!(rt; index.len() == items.len());
    assert!(rt; segments.total() == index.len());
    let permutes = is_permutation(alloc, index, &segments).expect(rt, "memory");
    assert!(rt; permutes);
    let mut meter = Meter::new();
    let made = permute_z(rt, alloc, &mut meter, items, index, &segments).expect(rt, "memory");
    assert!(rt; meter.runs() == 1);
    made
}

/// The integers that the index reads, where each index is in range and one run was counted.
fn gathered_z<R: Abort + Threads + Execution<Shared = R> + Sync>(
    rt: &R,
    alloc: Global,
    items: &[i64],
    source: &[i64],
    index: &[i64],
    by: &[i64],
) -> Vec<i64> {
    let (source, by) = (cut(rt, alloc, source), cut(rt, alloc, by));
    assert!(rt; source.total() == items.len());
    assert!(rt; by.total() == index.len());
    assert!(rt; source.count() == by.count());
    assert!(rt; in_range(index, &source, &by));
    let mut meter = Meter::new();
    let made = back_permute_z(rt, alloc, &mut meter, items, &source, index, &by).expect(
        rt, "memory",
    );
    assert!(rt; meter.runs() == 1);
    made
}

#[test]
fn permutes_a_vector(rt: HostRuntime) {
    let made = permuted_z(&rt, rt.alloc(), &[10, 20, 30], &[2, 0, 1], &[3]);
    assert!(rt; made.as_slice() == [20i64, 30, 10].as_slice());
}

#[test]
fn permutes_each_segment(rt: HostRuntime) {
    let made = permuted_z(&rt, rt.alloc(), &[7, 8, 9], &[1, 0, 0], &[2, 1]);
    assert!(rt; made.as_slice() == [8i64, 7, 9].as_slice());
    let made = permuted_z(&rt, rt.alloc(), &[7, 8, 9], &[1, 0, 0], &[0, 2, 0, 1, 0]);
    assert!(rt; made.as_slice() == [8i64, 7, 9].as_slice());
}

#[test]
fn permutes_truth_values(rt: HostRuntime) {
    let segments = cut(&rt, rt.alloc(), &[2]);
    assert!(rt; segments.total() == 2);
    let permutes = is_permutation(rt.alloc(), &[1, 0], &segments).expect(&rt, "memory");
    assert!(rt; permutes);
    let mut meter = Meter::new();
    let made = permute_b(
        &rt,
        rt.alloc(),
        &mut meter,
        &[true, false],
        &[1, 0],
        &segments,
    )
    .expect(&rt, "memory");
    assert!(rt; made.as_slice() == [false, true].as_slice());
    assert!(rt; meter.runs() == 1);
}

#[test]
fn permutes_with_no_segment_list(rt: HostRuntime) {
    let mut meter = Meter::new();
    let index = [2, 0, 1];
    let permutes = is_whole_permutation(rt.alloc(), &index).expect(&rt, "memory");
    assert!(rt; permutes);
    let made = permute_whole_z(&rt, rt.alloc(), &mut meter, &[10, 20, 30], &index).expect(
        &rt, "memory",
    );
    assert!(rt; made.as_slice() == [20i64, 30, 10].as_slice());
    assert!(rt; meter.runs() == 1);
    let made = permute_whole_b(&rt, rt.alloc(), &mut meter, &[true, false, false], &index).expect(
        &rt, "memory",
    );
    assert!(rt; made.as_slice() == [false, false, true].as_slice());
    assert!(rt; meter.runs() == 2);
}

#[test]
fn reads_places_again_and_again(rt: HostRuntime) {
    let made = gathered_z(&rt, rt.alloc(), &[10, 20, 30], &[3], &[2, 2, 0, 1], &[4]);
    assert!(rt; made.as_slice() == [30i64, 30, 10, 20].as_slice());
    assert!(rt; gathered_z(&rt, rt.alloc(), &[], &[0], &[], &[0]).len() == 0);
}

#[test]
fn reads_the_segment_of_its_number(rt: HostRuntime) {
    let made = gathered_z(&rt, rt.alloc(), &[1, 2, 3], &[2, 1], &[1, 0, 0, 0], &[3, 1]);
    assert!(rt; made.as_slice() == [2i64, 1, 1, 3].as_slice());
}

#[test]
fn reads_truth_values(rt: HostRuntime) {
    let (source, by) = (cut(&rt, rt.alloc(), &[2]), cut(&rt, rt.alloc(), &[2]));
    assert!(rt; source.total() == 2);
    assert!(rt; by.total() == 2);
    assert!(rt; source.count() == by.count());
    assert!(rt; in_range(&[1, 1], &source, &by));
    let mut meter = Meter::new();
    let made = back_permute_b(
        &rt,
        rt.alloc(),
        &mut meter,
        &[true, false],
        &source,
        &[1, 1],
        &by,
    )
    .expect(&rt, "memory");
    assert!(rt; made.as_slice() == [false, false].as_slice());
    assert!(rt; meter.runs() == 1);
}

#[test]
fn gathers_from_one_list(rt: HostRuntime) {
    let mut meter = Meter::new();
    let (items, index) = ([10, 20, 30], [2, 2, 0, 1]);
    assert!(rt; are_places(&index, items.len()));
    let made = gather_z(&rt, rt.alloc(), &mut meter, &items, &index);
    assert!(rt; is_made(made, &[30i64, 30, 10, 20]));
    assert!(rt; meter.runs() == 1);
    let flags = [true, false, false];
    assert!(rt; are_places(&index, flags.len()));
    let made = gather_b(&rt, rt.alloc(), &mut meter, &flags, &index);
    assert!(rt; is_made(made, &[false, false, true, false]));
    assert!(rt; are_places(&[], 0));
    let made = gather_z(&rt, rt.alloc(), &mut meter, &[], &[]);
    assert!(rt; is_made(made, &[]));
    assert!(rt; meter.runs() == 3);
}

#[test]
fn gathers_with_no_runtime(rt: HostRuntime) {
    let mut meter = Meter::new();
    assert!(rt; are_places(&[1, 0], 2));
    let made = gather_z(&Sequential, rt.alloc(), &mut meter, &[5, 6], &[1, 0]);
    assert!(rt; is_made(made, &[6i64, 5]));
    assert!(rt; meter.runs() == 1);
}
