//! Permutes, back permutes, gathers, packs and the tests of indices, while memory is refused.

use super::{begin, end};
use crate::cut::cut;
use permute_kernels::{
    are_places, back_permute_b, back_permute_z, gather_b, gather_z, in_range, is_permutation,
    is_permutation_by, is_whole_permutation, is_whole_permutation_by, pack_b, pack_z,
    packed_lengths, permute_b, permute_whole_b, permute_whole_z, permute_z,
};
use scan_kernels::{Meter, Sequential, index_whole};
use std::alloc::{Alloc, Global};
use std::process::Abort;

#[test]
fn whole_permutes(rt: HostRuntime) {
    let (alloc, mut meter, index) = (rt.alloc(), Meter::new(), [2, 0, 1]);
    let permutes = is_whole_permutation(alloc, &index).expect(&rt, "memory");
    assert!(rt; permutes);
    begin(&rt);
    let made = permute_whole_z(&Sequential, alloc, &mut meter, &[5, 6, 8], &index);
    end(&rt, &mut meter, made, &[6, 8, 5]);
    begin(&rt);
    let made = permute_whole_b(
        &Sequential,
        alloc,
        &mut meter,
        &[true, false, false],
        &index,
    );
    end(&rt, &mut meter, made, &[false, false, true]);
}

#[test]
fn permutes(rt: HostRuntime) {
    let (alloc, mut meter, segments) = (rt.alloc(), Meter::new(), cut(&rt, rt.alloc(), &[2, 0, 1]));
    let index = [1, 0, 0];
    assert!(rt; segments.total() == 3);
    let permutes = is_permutation(alloc, &index, &segments).expect(&rt, "memory");
    assert!(rt; permutes);
    begin(&rt);
    let made = permute_z(
        &Sequential,
        alloc,
        &mut meter,
        &[5, 6, 8],
        &index,
        &segments,
    );
    end(&rt, &mut meter, made, &[6, 5, 8]);
    begin(&rt);
    let flags = [true, false, true];
    let made = permute_b(&Sequential, alloc, &mut meter, &flags, &index, &segments);
    end(&rt, &mut meter, made, &[false, true, true]);
}

/// A test of an index answers, or memory is refused.
#[test]
fn tests_of_permutations(rt: HostRuntime) {
    let segments = cut(&rt, rt.alloc(), &[2, 0, 1]);
    assert!(rt; segments.total() == 3);
    begin(&rt);
    let whole = is_whole_permutation(rt.alloc(), &[2, 0, 0]);
    let each = is_permutation(rt.alloc(), &[1, 0, 0], &segments);
    println!(rt; "end").expect(&rt, "output");
    assert!(rt; !matches!(whole, Ok(true)) && !matches!(each, Ok(false)));
}

/// So does one by chunks, of a long segment.
#[test]
fn tests_of_permutations_by_chunks(rt: HostRuntime) {
    let (alloc, mut meter) = (rt.alloc(), Meter::with_chunk(2));
    let segments = cut(&rt, alloc, &[0, 5_000]);
    let zeros = vec![in alloc; 0i64; 5_000].expect(&rt, "memory");
    let falling = index_whole(&Sequential, alloc, &mut meter, 4_999, -1, 5_000);
    let falling = falling.expect(&rt, "memory");
    assert!(rt; segments.total() == falling.len());
    begin(&rt);
    let whole = is_whole_permutation_by(&Sequential, alloc, &meter, &zeros);
    let each = is_permutation_by(&Sequential, alloc, &meter, &falling, &segments);
    println!(rt; "end").expect(&rt, "output");
    assert!(rt; !matches!(whole, Ok(true)) && !matches!(each, Ok(false)));
}

/// Of short segments it takes no memory.
#[test]
fn tests_of_short_permutations_by_chunks(rt: HostRuntime) {
    let (alloc, meter, segments) = (
        rt.alloc(),
        Meter::with_chunk(2),
        cut(&rt, rt.alloc(), &[2, 0, 1]),
    );
    assert!(rt; segments.total() == 3);
    begin(&rt);
    let whole = is_whole_permutation_by(&Sequential, alloc, &meter, &[2, 0, 0]);
    let each = is_permutation_by(&Sequential, alloc, &meter, &[1, 0, 0], &segments);
    println!(rt; "end").expect(&rt, "output");
    assert!(rt; whole == Ok(false) && each == Ok(true));
}

#[test]
fn gathers(rt: HostRuntime) {
    let (alloc, mut meter, index) = (rt.alloc(), Meter::new(), [2, 0]);
    assert!(rt; are_places(&index, 3));
    begin(&rt);
    let made = gather_z(&Sequential, alloc, &mut meter, &[5, 6, 8], &index);
    end(&rt, &mut meter, made, &[8, 5]);
    begin(&rt);
    let made = gather_b(
        &Sequential,
        alloc,
        &mut meter,
        &[true, false, false],
        &index,
    );
    end(&rt, &mut meter, made, &[false, true]);
}

#[test]
fn back_permutes(rt: HostRuntime) {
    let (alloc, mut meter) = (rt.alloc(), Meter::new());
    let (source, by) = (cut(&rt, alloc, &[2, 0, 1]), cut(&rt, alloc, &[3, 0, 1]));
    let index = [1, 0, 1, 0];
    assert!(rt; source.total() == 3 && by.total() == 4 && source.count() == by.count());
    assert!(rt; in_range(&index, &source, &by));
    begin(&rt);
    let made = back_permute_z(
        &Sequential,
        alloc,
        &mut meter,
        &[5, 6, 8],
        &source,
        &index,
        &by,
    );
    end(&rt, &mut meter, made, &[6, 5, 6, 8]);
    begin(&rt);
    let flags = [true, false, true];
    let made = back_permute_b(&Sequential, alloc, &mut meter, &flags, &source, &index, &by);
    end(&rt, &mut meter, made, &[false, true, false, true]);
}

#[test]
fn packs(rt: HostRuntime) {
    let (alloc, mut meter, flags) = (rt.alloc(), Meter::new(), [true, false, true]);
    let segments = cut(&rt, alloc, &[2, 0, 1]);
    assert!(rt; segments.total() == 3);
    begin(&rt);
    let made = pack_z(&Sequential, alloc, &mut meter, &[5, 6, 8], &flags);
    end(&rt, &mut meter, made, &[5, 8]);
    begin(&rt);
    let made = pack_b(
        &Sequential,
        alloc,
        &mut meter,
        &[true, false, false],
        &flags,
    );
    end(&rt, &mut meter, made, &[true, false]);
    begin(&rt);
    let made = packed_lengths(&Sequential, alloc, &mut meter, &flags, &segments);
    end(&rt, &mut meter, made, &[1, 0, 1]);
}
