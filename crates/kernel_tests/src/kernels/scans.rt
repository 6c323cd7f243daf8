//! Scans and reductions of segments, empty ones among them, and of the ends of the range.

use crate::cut::cut;
use crate::made::is_made;
use scan_kernels::{Execution, Meter, ScanB, ScanZ, reduce_b, reduce_z, scan_b, scan_z};
use std::alloc::Global;
use std::process::Abort;
use std::thread::Threads;

/// The scan, where the lengths add up to the items and one run was counted.
fn scanned_z<R: Abort + Threads + Execution<Shared = R> + Sync>(
    rt: &R,
    alloc: Global,
    op: ScanZ,
    items: &[i64],
    lengths: &[i64],
) -> Vec<i64> {
    let segments = cut(rt, alloc, lengths);
    assert!(rt; segments.total() == items.len());
    let mut meter = Meter::new();
    let made = scan_z(rt, alloc, &mut meter, op, items, &segments);
    assert!(rt; meter.runs() == 1);
    made.expect(rt, "memory")
}

/// The reductions, where the lengths add up to the items and one run was counted.
fn reduced_z<R: Abort + Threads + Execution<Shared = R> + Sync>(
    rt: &R,
    alloc: Global,
    op: ScanZ,
    items: &[i64],
    lengths: &[i64],
) -> Vec<i64> {
    let segments = cut(rt, alloc, lengths);
    assert!(rt; segments.total() == items.len());
    let mut meter = Meter::new();
    let made = reduce_z(rt, alloc, &mut meter, op, items, &segments);
    assert!(rt; meter.runs() == 1);
    made.expect(rt, "memory")
}

#[test]
fn scans_each_segment(rt: HostRuntime) {
    let items = [1i64, 2, 3, 4, 5];
    assert!(rt;
        scanned_z(&rt, rt.alloc(), ScanZ::Add, &items, &[3, 0, 0, 2]).as_slice()
            == [0i64, 1, 3, 0, 4].as_slice()
    );
    let least = i64::MIN;
    assert!(rt;
        scanned_z(&rt, rt.alloc(), ScanZ::Max, &[4, 2, 9, 1], &[1, 3]).as_slice()
            == [least, least, 2, 9].as_slice()
    );
    assert!(rt; scanned_z(&rt, rt.alloc(), ScanZ::Add, &[], &[0, 0]).len() == 0);
}

#[test]
fn reduces_each_segment(rt: HostRuntime) {
    let items = [1i64, 2, 3, 4, 5];
    assert!(rt;
        reduced_z(&rt, rt.alloc(), ScanZ::Mul, &items, &[3, 0, 0, 2]).as_slice()
            == [6i64, 1, 1, 20].as_slice()
    );
    assert!(rt;
        reduced_z(&rt, rt.alloc(), ScanZ::Mul, &[2, 3, 4], &[0, 2, 1, 0]).as_slice()
            == [1i64, 6, 4, 1].as_slice()
    );
    assert!(rt; reduced_z(&rt, rt.alloc(), ScanZ::Add, &[], &[]).len() == 0);
}

#[test]
fn takes_segments_of_one_item(rt: HostRuntime) {
    // 65 of them, then an empty segment and one of two items.
    let items = [7i64; 67];
    let mut lengths = [1i64; 67];
    lengths[65] = 0;
    lengths[66] = 2;
    let mut sums = [7i64; 67];
    sums[65] = 0;
    sums[66] = 14;
    assert!(rt;
        reduced_z(&rt, rt.alloc(), ScanZ::Add, &items, &lengths).as_slice() == sums.as_slice()
    );
    let mut before = [0i64; 67];
    before[66] = 7;
    assert!(rt;
        scanned_z(&rt, rt.alloc(), ScanZ::Add, &items, &lengths).as_slice() == before.as_slice()
    );
}

/// Operations, what they make of the ends of the range, and their units.
const ENDS: [(ScanZ, i64, i64); 7] = [
    (ScanZ::Add, i64::MAX - 1, 0),
    (ScanZ::Mul, i64::MIN, 1),
    (ScanZ::Max, i64::MAX, i64::MIN),
    (ScanZ::Min, i64::MIN, i64::MAX),
    (ScanZ::And, 0, -1),
    (ScanZ::Ior, -1, 0),
    (ScanZ::Xor, i64::MIN, 0),
];

#[test]
fn takes_the_ends_of_the_range(rt: HostRuntime) {
    let ends = [i64::MIN, i64::MAX, i64::MAX];
    for &(op, whole, unit) in &ENDS {
        assert!(rt;
            reduced_z(&rt, rt.alloc(), op, &ends, &[3, 0]).as_slice() == [whole, unit].as_slice()
        );
        assert!(rt;
            scanned_z(&rt, rt.alloc(), op, &ends, &[1, 2]).as_slice()
                == [unit, unit, i64::MAX].as_slice()
        );
    }
}

#[test]
fn scans_and_reduces_truth_values(rt: HostRuntime) {
    let mut meter = Meter::new();
    let four = cut(&rt, rt.alloc(), &[4]);
    assert!(rt; four.total() == 4);
    let odd = scan_b(
        &rt,
        rt.alloc(),
        &mut meter,
        ScanB::Xor,
        &[true, true, false, true],
        &four,
    );
    assert!(rt; is_made(odd, &[false, true, false, false]));
    assert!(rt; meter.runs() == 1);
    let three = cut(&rt, rt.alloc(), &[2, 0, 1]);
    assert!(rt; three.total() == 3);
    for (op, wanted) in [
        (ScanB::And, [false, true, true]),
        (ScanB::Ior, [true, false, true]),
        (ScanB::Xor, [true, false, true]),
    ] {
        let made = reduce_b(
            &rt,
            rt.alloc(),
            &mut meter,
            op,
            &[true, false, true],
            &three,
        );
        assert!(rt; is_made(made, &wanted));
    }
    assert!(rt; meter.runs() == 4);
}
