//! A kernel in the calling thread alone, and by a runtime whose processors were counted, and the meter that goes with it.

use crate::made::is_made;
use scan_kernels::{Counted, Execution, Meter, Sequential, Z2, map2_z};
use std::process::Abort;

#[test]
fn runs_with_no_runtime(rt: HostRuntime) {
    let mut meter = Meter::with_chunk(2);
    let made = map2_z(
        &Sequential,
        rt.alloc(),
        &mut meter,
        Z2::Sub,
        &[1, 20, 3],
        &[10, 2, 3],
    );
    assert!(rt; is_made(made, &[-9i64, 18, 0]));
    assert!(rt; meter.runs() == 1);
    assert!(rt; meter.chunk() == 2);
    assert!(rt; Meter::new().chunk() == 4_096);
}

#[test]
fn runs_by_a_counted_runtime(rt: HostRuntime) {
    let counted = Counted::new(rt);
    let rt = counted.runtime();
    let mut meter = Meter::with_chunk(2);
    let made = map2_z(
        &counted,
        rt.alloc(),
        &mut meter,
        Z2::Sub,
        &[1, 20, 3],
        &[10, 2, 3],
    );
    assert!(rt; is_made(made, &[-9i64, 18, 0]));
    assert!(rt; meter.runs() == 1);
    assert!(rt; counted.processors() == rt.processors());
}
