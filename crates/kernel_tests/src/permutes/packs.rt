//! Packs, and how many items each segment keeps.

use crate::cut::cut;
use permute_kernels::{pack_b, pack_z, packed_lengths};
use scan_kernels::Meter;
use std::process::Abort;

#[test]
fn packs_integers(rt: HostRuntime) {
    let mut meter = Meter::new();
    let made = pack_z(
        &rt,
        rt.alloc(),
        &mut meter,
        &[5, 6, 7, 8],
        &[true, false, false, true],
    )
    .expect(&rt, "memory");
    assert!(rt; made.as_slice() == [5i64, 8].as_slice());
    assert!(rt; meter.runs() == 1);
}

#[test]
fn packs_truth_values(rt: HostRuntime) {
    let mut meter = Meter::new();
    let made = pack_b(&rt, rt.alloc(), &mut meter, &[true, false], &[false, true]).expect(
        &rt, "memory",
    );
    assert!(rt; made.as_slice() == [false].as_slice());
    assert!(rt; meter.runs() == 1);
}

#[test]
fn counts_what_each_segment_keeps(rt: HostRuntime) {
    let segments = cut(&rt, rt.alloc(), &[3, 1]);
    assert!(rt; segments.total() == 4);
    let mut meter = Meter::new();
    let flags = [true, false, false, true];
    let made = packed_lengths(&rt, rt.alloc(), &mut meter, &flags, &segments).expect(&rt, "memory");
    assert!(rt; made.as_slice() == [1i64, 1].as_slice());
    assert!(rt; meter.runs() == 1);
}
