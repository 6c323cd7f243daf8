//! Values given out over segments, and integers that rise by strides.

use crate::cut::cut;
use crate::made::is_made;
use scan_kernels::{Meter, distribute_b, distribute_z, index};
use std::process::Abort;

#[test]
fn gives_out_each_value(rt: HostRuntime) {
    let mut meter = Meter::new();
    let three = cut(&rt, rt.alloc(), &[2, 0, 1]);
    assert!(rt; three.count() == 3);
    let made = distribute_z(&rt, rt.alloc(), &mut meter, &[5, 6, 7], &three);
    assert!(rt; is_made(made, &[5i64, 5, 7]));
    assert!(rt; meter.runs() == 1);
    let two = cut(&rt, rt.alloc(), &[1, 2]);
    assert!(rt; two.count() == 2);
    let made = distribute_b(&rt, rt.alloc(), &mut meter, &[true, false], &two);
    assert!(rt; is_made(made, &[true, false, false]));
    let none = cut(&rt, rt.alloc(), &[]);
    assert!(rt; none.count() == 0);
    let made = distribute_z(&rt, rt.alloc(), &mut meter, &[], &none);
    assert!(rt; is_made(made, &[]));
    assert!(rt; meter.runs() == 3);
}

#[test]
fn rises_by_the_stride_of_each_segment(rt: HostRuntime) {
    let mut meter = Meter::new();
    let two = cut(&rt, rt.alloc(), &[3, 2]);
    assert!(rt; two.count() == 2);
    let made = index(&rt, rt.alloc(), &mut meter, &[0, 10], &[1, -1], &two);
    assert!(rt; is_made(made, &[0i64, 1, 2, 10, 9]));
    assert!(rt; meter.runs() == 1);
    let one = cut(&rt, rt.alloc(), &[4]);
    assert!(rt; one.count() == 1);
    let made = index(&rt, rt.alloc(), &mut meter, &[5], &[-2], &one);
    assert!(rt; is_made(made, &[5i64, 3, 1, -1]));
    let made = index(&rt, rt.alloc(), &mut meter, &[i64::MAX], &[1], &one);
    let wrapped = [i64::MAX, i64::MIN, i64::MIN + 1, i64::MIN + 2];
    assert!(rt; is_made(made, &wrapped));
    assert!(rt; meter.runs() == 3);
}

#[test]
fn takes_segments_of_one_item(rt: HostRuntime) {
    // 65 of them, then an empty segment and one of two items.
    let mut lengths = [1i64; 67];
    lengths[65] = 0;
    lengths[66] = 2;
    let segments = cut(&rt, rt.alloc(), &lengths);
    assert!(rt; segments.count() == 67);
    let mut meter = Meter::new();
    let mut values = [5i64; 67];
    values[65] = 6;
    let made = distribute_z(&rt, rt.alloc(), &mut meter, &values, &segments);
    assert!(rt; is_made(made, &[5i64; 67]));
    let made = index(
        &rt,
        rt.alloc(),
        &mut meter,
        &[5i64; 67],
        &[3i64; 67],
        &segments,
    );
    let mut rising = [5i64; 67];
    rising[66] = 8;
    assert!(rt; is_made(made, &rising));
}
