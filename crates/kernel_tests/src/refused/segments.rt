//! Kernels over segments of two items, of none and of one, while memory is refused.

use super::{begin, end};
use crate::cut::cut;
use scan_kernels::{
    Meter, ScanB, ScanZ, Sequential, distribute_b, distribute_z, index, reduce_b, reduce_z, scan_b,
    scan_z,
};
use std::alloc::{Alloc, Global};
use std::process::Abort;

/// The lengths of the segments.
const LENGTHS: [i64; 3] = [2, 0, 1];

#[test]
fn scans(rt: HostRuntime) {
    let (alloc, mut meter, segments) = (rt.alloc(), Meter::new(), cut(&rt, rt.alloc(), &LENGTHS));
    assert!(rt; segments.total() == 3);
    begin(&rt);
    let made = scan_z(
        &Sequential,
        alloc,
        &mut meter,
        ScanZ::Add,
        &[1, 2, 3],
        &segments,
    );
    end(&rt, &mut meter, made, &[0, 1, 0]);
    begin(&rt);
    let flags = [true, false, true];
    let made = scan_b(
        &Sequential,
        alloc,
        &mut meter,
        ScanB::And,
        &flags,
        &segments,
    );
    end(&rt, &mut meter, made, &[true, true, true]);
}

#[test]
fn reductions(rt: HostRuntime) {
    let (alloc, mut meter, segments) = (rt.alloc(), Meter::new(), cut(&rt, rt.alloc(), &LENGTHS));
    assert!(rt; segments.total() == 3);
    begin(&rt);
    let made = reduce_z(
        &Sequential,
        alloc,
        &mut meter,
        ScanZ::Add,
        &[1, 2, 3],
        &segments,
    );
    end(&rt, &mut meter, made, &[3, 0, 3]);
    begin(&rt);
    let flags = [true, false, true];
    let made = reduce_b(
        &Sequential,
        alloc,
        &mut meter,
        ScanB::Ior,
        &flags,
        &segments,
    );
    end(&rt, &mut meter, made, &[true, false, true]);
}

#[test]
fn spreads(rt: HostRuntime) {
    let (alloc, mut meter, segments) = (rt.alloc(), Meter::new(), cut(&rt, rt.alloc(), &LENGTHS));
    assert!(rt; segments.count() == 3);
    begin(&rt);
    let made = distribute_z(&Sequential, alloc, &mut meter, &[7, 8, 9], &segments);
    end(&rt, &mut meter, made, &[7, 7, 9]);
    begin(&rt);
    let made = distribute_b(
        &Sequential,
        alloc,
        &mut meter,
        &[true, false, false],
        &segments,
    );
    end(&rt, &mut meter, made, &[true, true, false]);
    begin(&rt);
    let made = index(
        &Sequential,
        alloc,
        &mut meter,
        &[1, 2, 3],
        &[10, 20, 30],
        &segments,
    );
    end(&rt, &mut meter, made, &[1, 11, 3]);
}
