//! Kernels whose result is written over an operand.

use scan_kernels::{
    Meter, ScanZ, Sequential, Z1, Z2, map1_z_over, map2_z_over_first, map2_z_over_second,
    overwrites_pay, scan_whole_z_over,
};
use std::process::Abort;

#[test]
fn writes_over_the_first_vector(rt: HostRuntime) {
    let mut meter = Meter::new();
    let mut list = [1, 20, 3];
    map2_z_over_first(&mut meter, Z2::Sub, &mut list, &[10, 2, 3]);
    assert!(rt; list.as_slice() == [-9i64, 18, 0].as_slice());
    assert!(rt; meter.runs() == 1);
}

#[test]
fn writes_over_the_second_vector(rt: HostRuntime) {
    let mut meter = Meter::new();
    let mut list = [10, 2, 3];
    map2_z_over_second(&mut meter, Z2::Sub, &[1, 20, 3], &mut list);
    assert!(rt; list.as_slice() == [-9i64, 18, 0].as_slice());
    assert!(rt; meter.runs() == 1);
}

#[test]
fn writes_over_one_vector(rt: HostRuntime) {
    let mut meter = Meter::new();
    let mut list = [1, 20, 3];
    map1_z_over(&mut meter, Z1::Not, &mut list);
    assert!(rt; list.as_slice() == [-2i64, -21, -4].as_slice());
    assert!(rt; meter.runs() == 1);
}

#[test]
fn scans_over_a_vector(rt: HostRuntime) {
    let mut meter = Meter::new();
    let mut list = [1, 20, 3];
    scan_whole_z_over(&mut meter, ScanZ::Add, &mut list);
    assert!(rt; list.as_slice() == [0i64, 1, 21].as_slice());
    assert!(rt; meter.runs() == 1);
}

/// Not for few items, and not where a caller asks for small chunks.
#[test]
fn pays_for_many_items(rt: HostRuntime) {
    let meter = Meter::new();
    assert!(rt; overwrites_pay(&Sequential, &rt.alloc(), &meter, 4_096));
    assert!(rt; !overwrites_pay(&Sequential, &rt.alloc(), &meter, 4_095));
    assert!(rt; !overwrites_pay(&Sequential, &rt.alloc(), &Meter::with_chunk(7), 4_096));
}
