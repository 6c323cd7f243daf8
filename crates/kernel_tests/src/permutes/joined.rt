//! Each kernel on operands that lie in parts, some of them empty or with empty segments: one run is counted for all parts.

ghost use Rattle.std.specs.Prelude.{◌≡◌, length, sum, All};
ghost use Rattle.scan_kernels.specs.Indices.{HoldsEachPlaceOnce, IsPlaceOf, LieWithin, PermuteSegments};

use crate::cut::cut;
use crate::joined_parts::{gives_bools, gives_ints};
use permute_kernels::{
    BackPermute, Gather, Pack, PackLengths, PackSegments, Permute, PermuteWhole, are_places,
    in_range, is_permutation, is_whole_permutation,
};
use scan_kernels::{Meter, run_joined};
use segment_desc::Segd;
use std::alloc::Global;
use std::process::Abort;

/// Asserts that the index of each part permutes each segment of its items.
fn assert_permutes<T>(rt: &impl Abort, alloc: Global, parts: &[(&[T], &[i64], &Segd)])
    ensures { All (λ p. (length p.1.now ≡ length p.0.now) × (sum p.2.now ≡ length p.1.now) × PermuteSegments p.2.now p.1.now) parts.now }
{
    for part in parts {
        assert!(rt; part.1.len() == part.0.len());
        assert!(rt; part.2.total() == part.1.len());
        let permutes = is_permutation(alloc, part.1, part.2).expect(rt, "memory");
        assert!(rt; permutes);
    }
}

/// Asserts that the index of each part permutes all its items.
fn assert_permutes_whole<T>(rt: &impl Abort, alloc: Global, parts: &[(&[T], &[i64])])
    ensures { All (λ p. (length p.1.now ≡ length p.0.now) × HoldsEachPlaceOnce p.1.now) parts.now }
{
    for part in parts {
        assert!(rt; part.1.len() == part.0.len());
        let Ok(permutes) = is_whole_permutation(alloc, part.1) else {
            panic!(rt; "memory");
        };
        assert!(rt; permutes);
    }
}

/// Asserts that each index is a place of the segment of its number, in each part.
fn assert_in_range<T>(rt: &impl Abort, parts: &[(&[T], &Segd, &[i64], &Segd)])
    ensures { All (λ p. (sum p.1.now ≡ length p.0.now) × (sum p.3.now ≡ length p.2.now) × (length p.1.now ≡ length p.3.now) × LieWithin p.1.now p.3.now p.2.now) parts.now }
{
    for part in parts {
        assert!(rt; part.1.total() == part.0.len());
        assert!(rt; part.3.total() == part.2.len());
        assert!(rt; part.1.count() == part.3.count());
        assert!(rt; in_range(part.2, part.1, part.3));
    }
}

/// Asserts that each index of a part is a place of its items.
fn assert_places<T>(rt: &impl Abort, parts: &[(&[T], &[i64])])
    ensures { All (λ p. All (IsPlaceOf (length p.0.now)) p.1.now) parts.now }
{
    for part in parts {
        assert!(rt; are_places(part.1, part.0.len()));
    }
}

/// Asserts that each part has as many flags as items.
fn assert_flags<T>(rt: &impl Abort, parts: &[(&[T], &[bool])])
    ensures { All (λ p. length p.1.now ≡ length p.0.now) parts.now }
{
    for part in parts {
        assert!(rt; part.1.len() == part.0.len());
    }
}

/// Asserts that each part, which is cut into segments, has as many flags as items.
fn assert_flags_of_segments<T>(rt: &impl Abort, parts: &[(&[T], &[bool], &Segd)])
    ensures { All (λ p. length p.1.now ≡ length p.0.now) parts.now }
{
    for part in parts {
        assert!(rt; part.1.len() == part.0.len());
    }
}

/// Asserts that the segments of each part have all its flags.
fn assert_totals(rt: &impl Abort, parts: &[(&[bool], &Segd)])
    ensures { All (λ p. sum p.1.now ≡ length p.0.now) parts.now }
{
    for part in parts {
        assert!(rt; part.1.total() == part.0.len());
    }
}

#[test]
fn permutes_each_segment_of_each_part(rt: HostRuntime) {
    let (first, none, last) = (
        cut(&rt, rt.alloc(), &[2, 1]),
        cut(&rt, rt.alloc(), &[]),
        cut(&rt, rt.alloc(), &[0, 3, 0]),
    );
    let parts: [(&[i64], &[i64], &Segd); 3] = [
        (&[7, 8, 9], &[1, 0, 0], &first),
        (&[], &[], &none),
        (&[1, 2, 3], &[2, 0, 1], &last),
    ];
    assert_permutes(&rt, rt.alloc(), &parts);
    let wanted: [&[i64]; 3] = [&[8, 7, 9], &[], &[2, 3, 1]];
    assert!(rt; gives_ints(&rt, rt.alloc(), Permute, &parts, &wanted));
    let parts: [(&[bool], &[i64], &Segd); 2] = [
        (&[], &[], &none),
        (&[false, true, true], &[1, 0, 0], &first),
    ];
    assert_permutes(&rt, rt.alloc(), &parts);
    let wanted: [&[bool]; 2] = [&[], &[true, false, true]];
    assert!(rt; gives_bools(&rt, rt.alloc(), Permute, &parts, &wanted));
}

#[test]
fn permutes_each_part_whole(rt: HostRuntime) {
    let parts: [(&[i64], &[i64]); 3] = [
        (&[10, 20, 30], &[2, 0, 1]),
        (&[], &[]),
        (&[5, 6], &[1, 0]),
    ];
    assert_permutes_whole(&rt, rt.alloc(), &parts);
    let wanted: [&[i64]; 3] = [&[20, 30, 10], &[], &[6, 5]];
    assert!(rt; gives_ints(&rt, rt.alloc(), PermuteWhole, &parts, &wanted));
    let parts: [(&[bool], &[i64]); 2] = [(&[true, false, false], &[2, 1, 0]), (&[true], &[0])];
    assert_permutes_whole(&rt, rt.alloc(), &parts);
    let wanted: [&[bool]; 2] = [&[false, false, true], &[true]];
    assert!(rt; gives_bools(&rt, rt.alloc(), PermuteWhole, &parts, &wanted));
}

#[test]
fn reads_the_segments_of_each_part(rt: HostRuntime) {
    let (two_one, three_one) = (cut(&rt, rt.alloc(), &[2, 1]), cut(&rt, rt.alloc(), &[3, 1]));
    let (none_two, none) = (cut(&rt, rt.alloc(), &[0, 2]), cut(&rt, rt.alloc(), &[]));
    let (one, empty) = (cut(&rt, rt.alloc(), &[1]), cut(&rt, rt.alloc(), &[0]));
    let parts: [(&[i64], &Segd, &[i64], &Segd); 4] = [
        (&[1, 2, 3], &two_one, &[1, 0, 0, 0], &three_one),
        (&[], &none, &[], &none),
        (&[4, 5], &none_two, &[1, 1], &none_two),
        (&[6], &one, &[], &empty),
    ];
    assert_in_range(&rt, &parts);
    let wanted: [&[i64]; 4] = [&[2, 1, 1, 3], &[], &[5, 5], &[]];
    assert!(rt; gives_ints(&rt, rt.alloc(), BackPermute, &parts, &wanted));
    let parts: [(&[bool], &Segd, &[i64], &Segd); 2] = [
        (&[true, false, true], &two_one, &[1, 1, 0, 0], &three_one),
        (&[false], &one, &[], &empty),
    ];
    assert_in_range(&rt, &parts);
    let wanted: [&[bool]; 2] = [&[false, false, true, true], &[]];
    assert!(rt; gives_bools(&rt, rt.alloc(), BackPermute, &parts, &wanted));
}

#[test]
fn gathers_from_the_items_of_each_part(rt: HostRuntime) {
    let parts: [(&[i64], &[i64]); 4] = [
        (&[10, 20, 30], &[2, 2, 0, 1]),
        (&[1], &[]),
        (&[], &[]),
        (&[5, 6], &[1]),
    ];
    assert_places(&rt, &parts);
    let wanted: [&[i64]; 4] = [&[30, 30, 10, 20], &[], &[], &[6]];
    assert!(rt; gives_ints(&rt, rt.alloc(), Gather, &parts, &wanted));
    let parts: [(&[bool], &[i64]); 2] = [(&[true, false], &[1, 0, 1]), (&[true, true], &[1])];
    assert_places(&rt, &parts);
    let wanted: [&[bool]; 2] = [&[false, true, false], &[true]];
    assert!(rt; gives_bools(&rt, rt.alloc(), Gather, &parts, &wanted));
}

#[test]
fn packs_each_part(rt: HostRuntime) {
    let parts: [(&[i64], &[bool]); 4] = [
        (&[5, 6, 7, 8], &[true, false, false, true]),
        (&[], &[]),
        (&[1, 2], &[false, false]),
        (&[3], &[true]),
    ];
    assert_flags(&rt, &parts);
    let wanted: [&[i64]; 4] = [&[5, 8], &[], &[], &[3]];
    assert!(rt; gives_ints(&rt, rt.alloc(), Pack, &parts, &wanted));
    let parts: [(&[bool], &[bool]); 2] = [
        (&[true, false], &[false, true]),
        (&[true, true], &[true, true]),
    ];
    assert_flags(&rt, &parts);
    let wanted: [&[bool]; 2] = [&[false], &[true, true]];
    assert!(rt; gives_bools(&rt, rt.alloc(), Pack, &parts, &wanted));
}

#[test]
fn packs_the_segments_of_each_part(rt: HostRuntime) {
    let (first, empty) = (cut(&rt, rt.alloc(), &[3, 1]), cut(&rt, rt.alloc(), &[0, 0]));
    let parts: [(&[i64], &[bool], &Segd); 2] = [
        (&[5, 6, 7, 8], &[true, false, false, true], &first),
        (&[], &[], &empty),
    ];
    assert_flags_of_segments(&rt, &parts);
    assert!(rt; gives_ints(&rt, rt.alloc(), PackSegments, &parts, &[&[5, 8], &[]]));
    let parts: [(&[bool], &[bool], &Segd); 2] = [
        (&[], &[], &empty),
        (
            &[true, false, true, true],
            &[false, true, true, false],
            &first,
        ),
    ];
    assert_flags_of_segments(&rt, &parts);
    let wanted: [&[bool]; 2] = [&[], &[false, true]];
    assert!(rt; gives_bools(&rt, rt.alloc(), PackSegments, &parts, &wanted));
}

#[test]
fn counts_what_each_segment_of_each_part_keeps(rt: HostRuntime) {
    let (first, empty) = (cut(&rt, rt.alloc(), &[3, 1]), cut(&rt, rt.alloc(), &[0, 0]));
    let (none, last) = (cut(&rt, rt.alloc(), &[]), cut(&rt, rt.alloc(), &[0, 2, 0]));
    let parts: [(&[bool], &Segd); 4] = [
        (&[true, false, false, true], &first),
        (&[], &empty),
        (&[], &none),
        (&[true, true], &last),
    ];
    assert_totals(&rt, &parts);
    let wanted: [&[i64]; 4] = [&[1, 1], &[0, 0], &[], &[0, 2, 0]];
    assert!(rt; gives_ints(&rt, rt.alloc(), PackLengths, &parts, &wanted));
}

#[test]
fn counts_one_run_for_no_parts(rt: HostRuntime) {
    let mut meter = Meter::new();
    let parts: [(&[i64], &[i64]); 0] = [];
    assert_places(&rt, &parts);
    let made = run_joined(&rt, rt.alloc(), &mut meter, Gather, &parts).expect(&rt, "memory");
    assert!(rt; made.len() == 0);
    assert!(rt; meter.runs() == 1);
}
