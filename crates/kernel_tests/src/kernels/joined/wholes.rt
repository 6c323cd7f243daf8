//! Kernels that take each part as one segment.

use crate::joined_parts::{are_parts, gives_bools, gives_ints};
use crate::made::is_made;
use scan_kernels::joined::{
    Index, Repeat, ScanBools, ScanInts, reduce_whole_b_joined, reduce_whole_z_joined,
};
use scan_kernels::{Meter, ScanB, ScanZ, run_joined};
use std::process::Abort;

#[test]
fn scans_each_part(rt: HostRuntime) {
    let parts: [&[i64]; 3] = [&[4, 2, 9], &[], &[1]];
    let greatest: [&[i64]; 3] = [&[i64::MIN, 4, 4], &[], &[i64::MIN]];
    assert!(rt; gives_ints(&rt, rt.alloc(), ScanInts(ScanZ::Max), &parts, &greatest));
    let parts: [&[bool]; 3] = [&[], &[false, true, false], &[true]];
    let any: [&[bool]; 3] = [&[], &[false, false, true], &[false]];
    assert!(rt; gives_bools(&rt, rt.alloc(), ScanBools(ScanB::Ior), &parts, &any));
}

#[test]
fn reduces_each_part(rt: HostRuntime) {
    let parts: [&[i64]; 3] = [&[1, 2, 3], &[], &[7]];
    let flags: [&[bool]; 2] = [&[], &[true, false]];
    for chunk in [1, 2, 7, 4_096] {
        let mut meter = Meter::with_chunk(chunk);
        let made = reduce_whole_z_joined(&rt, rt.alloc(), &mut meter, ScanZ::Add, &parts);
        assert!(rt; is_made(made, &[6i64, 0, 7]), "integers, chunk {chunk}");
        let made = reduce_whole_b_joined(&rt, rt.alloc(), &mut meter, ScanB::And, &flags);
        assert!(rt;
            is_made(made, &[true, false]),
            "truth values, chunk {chunk}"
        );
        assert!(rt; meter.runs() == 2, "chunk {chunk}");
    }
}

#[test]
fn repeats_the_item_of_each_part(rt: HostRuntime) {
    let parts = [(7i64, 3usize), (8, 0), (-9, 1)];
    assert!(rt; gives_ints(&rt, rt.alloc(), Repeat, &parts, &[&[7, 7, 7], &[], &[-9]]));
    let parts = [(true, 0usize), (false, 2)];
    assert!(rt; gives_bools(&rt, rt.alloc(), Repeat, &parts, &[&[], &[false, false]]));
}

#[test]
fn rises_in_each_part(rt: HostRuntime) {
    let mut meter = Meter::new();
    let parts = [(1i64, 2i64, 3usize), (9, 9, 0), (i64::MAX, 1, 2)];
    let wanted: [&[i64]; 3] = [&[1, 3, 5], &[], &[i64::MAX, i64::MIN]];
    let made = run_joined(&rt, rt.alloc(), &mut meter, Index, &parts).expect(&rt, "memory");
    assert!(rt; are_parts(&made, &wanted));
    assert!(rt; meter.runs() == 1);
}

#[test]
fn counts_one_run_for_no_parts(rt: HostRuntime) {
    let mut meter = Meter::new();
    let parts: [(i64, usize); 0] = [];
    let made = run_joined(&rt, rt.alloc(), &mut meter, Repeat, &parts).expect(&rt, "memory");
    assert!(rt; made.len() == 0);
    assert!(rt; meter.runs() == 1);
}
