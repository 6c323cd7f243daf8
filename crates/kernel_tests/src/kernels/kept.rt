//! Results in vectors that were kept: with space for as many items, for fewer, for more and for none.

use crate::cut::cut;
use crate::made::is_made;
use scan_kernels::{
    Cmp, Kept, Meter, ScanZ, Z1, Z2, compare2, index_whole, map1_z, map2_z, scan_z, select_b,
};
use std::process::Abort;

#[test]
fn integers_in_a_kept_vector(rt: HostRuntime) {
    for space in [3, 2, 5, 0] {
        let mut meter = Meter::new();
        let kept = Kept::new(vec![in rt.alloc(); 7i64; space].expect(&rt, "memory"));
        let made = map2_z(&rt, kept, &mut meter, Z2::Add, &[1, 2, 3], &[10, 20, 30]);
        assert!(rt; is_made(made, &[11i64, 22, 33]), "space {space}");
        let kept = Kept::new(vec![in rt.alloc(); 7i64; space].expect(&rt, "memory"));
        let made = index_whole(&rt, kept, &mut meter, 5, -2, 3);
        assert!(rt; is_made(made, &[5i64, 3, 1]), "space {space}");
        let kept = Kept::new(vec![in rt.alloc(); 7i64; space].expect(&rt, "memory"));
        let made = map1_z(&rt, kept, &mut meter, Z1::Not, &[]);
        assert!(rt; is_made(made, &[]), "space {space}");
        assert!(rt; meter.runs() == 3);
    }
}

#[test]
fn truth_values_in_a_kept_vector(rt: HostRuntime) {
    for space in [2, 1, 9, 0] {
        let mut meter = Meter::new();
        let kept = Kept::new(vec![in rt.alloc(); true; space].expect(&rt, "memory"));
        let made = compare2(&rt, kept, &mut meter, Cmp::Les, &[1, 2], &[2, 1]);
        assert!(rt; is_made(made, &[true, false]), "space {space}");
        let kept = Kept::new(vec![in rt.alloc(); true; space].expect(&rt, "memory"));
        let flags = [true, false];
        let made = select_b(&rt, kept, &mut meter, &flags, &[false, true], &[true, true]);
        assert!(rt; is_made(made, &[false, true]), "space {space}");
        assert!(rt; meter.runs() == 2);
    }
}

#[test]
fn segments_in_a_kept_vector(rt: HostRuntime) {
    let segments = cut(&rt, rt.alloc(), &[3, 0, 2]);
    for space in [5, 4, 6, 0] {
        let items = [1i64, 2, 3, 4, 5];
        assert!(rt; segments.total() == items.len());
        let mut meter = Meter::new();
        let kept = Kept::new(vec![in rt.alloc(); 7i64; space].expect(&rt, "memory"));
        let made = scan_z(&rt, kept, &mut meter, ScanZ::Add, &items, &segments);
        assert!(rt; is_made(made, &[0i64, 1, 3, 0, 4]), "space {space}");
        assert!(rt; meter.runs() == 1);
    }
}
