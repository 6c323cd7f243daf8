//! Results in vectors that were kept: with space for as many items, for fewer, for more and for none.

use crate::cut::cut;
use crate::made::is_made;
use permute_kernels::{
    are_places, gather_z, is_whole_permutation, pack_b, pack_z, packed_lengths, permute_whole_b,
};
use scan_kernels::{Kept, Meter};
use std::process::Abort;

#[test]
fn integers_in_a_kept_vector(rt: HostRuntime) {
    let index = [2, 0];
    for space in [2, 1, 4, 0] {
        let mut meter = Meter::new();
        let kept = Kept::new(vec![in rt.alloc(); 7i64; space].expect(&rt, "memory"));
        let flags = [true, false, true];
        let made = pack_z(&rt, kept, &mut meter, &[5, 6, 8], &flags);
        assert!(rt; is_made(made, &[5i64, 8]), "space {space}");
        let kept = Kept::new(vec![in rt.alloc(); 7i64; space].expect(&rt, "memory"));
        assert!(rt; are_places(&index, 3));
        let made = gather_z(&rt, kept, &mut meter, &[5, 6, 8], &index);
        assert!(rt; is_made(made, &[8i64, 5]), "space {space}");
        let segments = cut(&rt, rt.alloc(), &[1, 2]);
        assert!(rt; segments.total() == 3);
        let kept = Kept::new(vec![in rt.alloc(); 7i64; space].expect(&rt, "memory"));
        let made = packed_lengths(&rt, kept, &mut meter, &flags, &segments);
        assert!(rt; is_made(made, &[1i64, 1]), "space {space}");
        assert!(rt; meter.runs() == 3);
    }
}

#[test]
fn truth_values_in_a_kept_vector(rt: HostRuntime) {
    let index = [2, 0, 1];
    let permutes = is_whole_permutation(rt.alloc(), &index).expect(&rt, "memory");
    assert!(rt; permutes);
    for space in [3, 2, 8, 0] {
        let mut meter = Meter::new();
        let kept = Kept::new(vec![in rt.alloc(); true; space].expect(&rt, "memory"));
        let made = permute_whole_b(&rt, kept, &mut meter, &[true, false, false], &index);
        assert!(rt; is_made(made, &[false, false, true]), "space {space}");
        let kept = Kept::new(vec![in rt.alloc(); true; space].expect(&rt, "memory"));
        let made = pack_b(&rt, kept, &mut meter, &[true, false], &[false, false]);
        assert!(rt; is_made(made, &[]), "space {space}");
        assert!(rt; meter.runs() == 2);
    }
}
