//! Kernels over the segments of each part.

use super::{assert_counts, assert_starts, assert_totals};
use crate::cut::cut;
use crate::joined_parts::{gives_bools, gives_ints};
use scan_kernels::joined::{
    Distribute, IndexSegments, ReduceBoolSegments, ReduceIntSegments, ScanBoolSegments,
    ScanIntSegments,
};
use scan_kernels::{ScanB, ScanZ};
use segment_desc::Segd;

#[test]
fn scans_the_segments_of_each_part(rt: HostRuntime) {
    let (first, none) = (cut(&rt, rt.alloc(), &[2, 0, 1]), cut(&rt, rt.alloc(), &[]));
    let (last, empty) = (cut(&rt, rt.alloc(), &[0, 2]), cut(&rt, rt.alloc(), &[0]));
    let parts: [(&[i64], &Segd); 3] = [(&[1, 2, 3], &first), (&[], &none), (&[4, 5], &last)];
    assert_totals(&rt, &parts);
    let kernel = ScanIntSegments(ScanZ::Add);
    assert!(rt; gives_ints(&rt, rt.alloc(), kernel, &parts, &[&[0, 1, 0], &[], &[0, 4]]));
    let parts: [(&[bool], &Segd); 2] = [(&[], &empty), (&[true, true, false], &first)];
    assert_totals(&rt, &parts);
    let kernel = ScanBoolSegments(ScanB::Xor);
    let wanted: [&[bool]; 2] = [&[], &[false, true, false]];
    assert!(rt; gives_bools(&rt, rt.alloc(), kernel, &parts, &wanted));
}

#[test]
fn reduces_the_segments_of_each_part(rt: HostRuntime) {
    let (first, none) = (cut(&rt, rt.alloc(), &[2, 0, 1]), cut(&rt, rt.alloc(), &[]));
    let empty = cut(&rt, rt.alloc(), &[0]);
    let parts: [(&[i64], &Segd); 3] = [(&[2, 3, 4], &first), (&[], &none), (&[], &empty)];
    assert_totals(&rt, &parts);
    let kernel = ReduceIntSegments(ScanZ::Mul);
    assert!(rt; gives_ints(&rt, rt.alloc(), kernel, &parts, &[&[6, 1, 4], &[], &[1]]));
    let parts: [(&[bool], &Segd); 2] = [(&[], &empty), (&[true, true, false], &first)];
    assert_totals(&rt, &parts);
    let kernel = ReduceBoolSegments(ScanB::And);
    let wanted: [&[bool]; 2] = [&[true], &[true, true, false]];
    assert!(rt; gives_bools(&rt, rt.alloc(), kernel, &parts, &wanted));
}

#[test]
fn gives_out_the_values_of_each_part(rt: HostRuntime) {
    let (first, none) = (cut(&rt, rt.alloc(), &[2, 0, 1]), cut(&rt, rt.alloc(), &[]));
    let empty = cut(&rt, rt.alloc(), &[0]);
    let parts: [(&[i64], &Segd); 3] = [(&[5, 6, 7], &first), (&[], &none), (&[9], &empty)];
    assert_counts(&rt, &parts);
    assert!(rt; gives_ints(&rt, rt.alloc(), Distribute, &parts, &[&[5, 5, 7], &[], &[]]));
    let parts: [(&[bool], &Segd); 2] = [(&[false], &empty), (&[true, true, false], &first)];
    assert_counts(&rt, &parts);
    let wanted: [&[bool]; 2] = [&[], &[true, true, false]];
    assert!(rt; gives_bools(&rt, rt.alloc(), Distribute, &parts, &wanted));
}

#[test]
fn rises_in_the_segments_of_each_part(rt: HostRuntime) {
    let (first, none) = (cut(&rt, rt.alloc(), &[2, 0, 1]), cut(&rt, rt.alloc(), &[]));
    let last = cut(&rt, rt.alloc(), &[3]);
    let parts: [(&[i64], &[i64], &Segd); 3] = [
        (&[0, 8, 10], &[1, 8, -1], &first),
        (&[], &[], &none),
        (&[5], &[-2], &last),
    ];
    assert_starts(&rt, &parts);
    let wanted: [&[i64]; 3] = [&[0, 1, 10], &[], &[5, 3, 1]];
    assert!(rt; gives_ints(&rt, rt.alloc(), IndexSegments, &parts, &wanted));
}
