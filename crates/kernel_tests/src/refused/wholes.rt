//! Kernels over whole vectors, while memory is refused.

use super::{begin, end};
use scan_kernels::joined::{reduce_whole_b_joined, reduce_whole_z_joined};
use scan_kernels::{
    B1, B2, Cmp, Meter, ScanB, ScanZ, Sequential, Z1, Z2, compare2, index_whole, map1_b, map1_z,
    map2_b, map2_z, number, repeat_b, repeat_z, scan_whole_b, scan_whole_z, select_b, select_z,
    truth,
};
use std::alloc::{Alloc, Global};
use std::process::Abort;

#[test]
fn maps(rt: HostRuntime) {
    let (alloc, mut meter) = (rt.alloc(), Meter::new());
    begin(&rt);
    let made = map1_z(&Sequential, alloc, &mut meter, Z1::Not, &[1, -2]);
    end(&rt, &mut meter, made, &[-2, 1]);
    begin(&rt);
    let made = map2_z(&Sequential, alloc, &mut meter, Z2::Add, &[1, 2], &[3, 4]);
    end(&rt, &mut meter, made, &[4, 6]);
    begin(&rt);
    let made = map1_b(&Sequential, alloc, &mut meter, B1::Not, &[true, false]);
    end(&rt, &mut meter, made, &[false, true]);
    begin(&rt);
    let made = map2_b(
        &Sequential,
        alloc,
        &mut meter,
        B2::Xor,
        &[true, false],
        &[true, true],
    );
    end(&rt, &mut meter, made, &[false, true]);
}

#[test]
fn choices(rt: HostRuntime) {
    let (alloc, mut meter, flags) = (rt.alloc(), Meter::new(), [true, false]);
    begin(&rt);
    let made = compare2(&Sequential, alloc, &mut meter, Cmp::Les, &[1, 2], &[2, 1]);
    end(&rt, &mut meter, made, &[true, false]);
    begin(&rt);
    let made = select_z(&Sequential, alloc, &mut meter, &flags, &[1, 2], &[3, 4]);
    end(&rt, &mut meter, made, &[1, 4]);
    begin(&rt);
    let made = select_b(
        &Sequential,
        alloc,
        &mut meter,
        &flags,
        &[true, true],
        &[false, false],
    );
    end(&rt, &mut meter, made, &[true, false]);
}

#[test]
fn conversions(rt: HostRuntime) {
    let (alloc, mut meter) = (rt.alloc(), Meter::new());
    begin(&rt);
    let made = truth(&Sequential, alloc, &mut meter, &[0, 5]);
    end(&rt, &mut meter, made, &[false, true]);
    begin(&rt);
    let made = number(&Sequential, alloc, &mut meter, &[true, false]);
    end(&rt, &mut meter, made, &[1, 0]);
}

#[test]
fn scans(rt: HostRuntime) {
    let (alloc, mut meter) = (rt.alloc(), Meter::new());
    begin(&rt);
    let made = scan_whole_z(&Sequential, alloc, &mut meter, ScanZ::Add, &[1, 2, 3]);
    end(&rt, &mut meter, made, &[0, 1, 3]);
    begin(&rt);
    let made = scan_whole_b(
        &Sequential,
        alloc,
        &mut meter,
        ScanB::Ior,
        &[false, true, false],
    );
    end(&rt, &mut meter, made, &[false, false, true]);
}

#[test]
fn reductions_of_parts(rt: HostRuntime) {
    let (alloc, mut meter) = (rt.alloc(), Meter::new());
    let parts: [&[i64]; 2] = [&[1, 2], &[]];
    begin(&rt);
    let made = reduce_whole_z_joined(&Sequential, alloc, &mut meter, ScanZ::Add, &parts);
    end(&rt, &mut meter, made, &[3, 0]);
    let parts: [&[bool]; 2] = [&[false, true], &[]];
    begin(&rt);
    let made = reduce_whole_b_joined(&Sequential, alloc, &mut meter, ScanB::Ior, &parts);
    end(&rt, &mut meter, made, &[true, false]);
}

#[test]
fn fills(rt: HostRuntime) {
    let (alloc, mut meter) = (rt.alloc(), Meter::new());
    begin(&rt);
    let made = repeat_z(&Sequential, alloc, &mut meter, 7, 2);
    end(&rt, &mut meter, made, &[7, 7]);
    begin(&rt);
    let made = repeat_b(&Sequential, alloc, &mut meter, true, 2);
    end(&rt, &mut meter, made, &[true, true]);
    begin(&rt);
    let made = index_whole(&Sequential, alloc, &mut meter, 5, -2, 3);
    end(&rt, &mut meter, made, &[5, 3, 1]);
}
