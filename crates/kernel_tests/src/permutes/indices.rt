//! The tests of indices.

use crate::cut::cut;
use permute_kernels::{are_places, in_range, is_permutation};
use segment_desc::OutOfMemory;
use std::alloc::Global;
use std::process::Abort;

/// The answer, where the lengths add up to the indices.
fn permutes(
    rt: &impl Abort,
    alloc: Global,
    index: &[i64],
    lengths: &[i64],
) -> Result<bool, OutOfMemory> {
    let segments = cut(rt, alloc, lengths);
    assert!(rt; segments.total() == index.len());
    is_permutation(alloc, index, &segments)
}

#[test]
fn tells_permutations(rt: HostRuntime) {
    let permutes = |index: &[i64], lengths: &[i64]| permutes(&rt, rt.alloc(), index, lengths);
    assert!(rt; permutes(&[1, 0, 0], &[2, 1]) == Ok(true));
    assert!(rt; permutes(&[1, 0, 0], &[3]) == Ok(false));
    assert!(rt; permutes(&[], &[]) == Ok(true));
    assert!(rt; permutes(&[0, 0, 1], &[3]) == Ok(false));
    assert!(rt; permutes(&[0, 2], &[2]) == Ok(false));
    assert!(rt; permutes(&[-1, 0], &[2]) == Ok(false));
    assert!(rt; permutes(&[i64::MIN, i64::MAX], &[2]) == Ok(false));
}

#[test]
fn tells_indices_in_range(rt: HostRuntime) {
    let (source, by) = (cut(&rt, rt.alloc(), &[0, 2]), cut(&rt, rt.alloc(), &[0, 3]));
    assert!(rt; source.count() == by.count());
    assert!(rt; by.total() == 3);
    assert!(rt; in_range(&[1, 0, 1], &source, &by));
    assert!(rt; !in_range(&[1, 0, 2], &source, &by));
    assert!(rt; !in_range(&[1, -1, 0], &source, &by));
    let (source, by) = (cut(&rt, rt.alloc(), &[0]), cut(&rt, rt.alloc(), &[1]));
    assert!(rt; source.count() == by.count());
    assert!(rt; by.total() == 1);
    assert!(rt; !in_range(&[0], &source, &by));
}

#[test]
fn tells_places(rt: HostRuntime) {
    assert!(rt; are_places(&[2, 2, 0, 1], 3));
    assert!(rt; are_places(&[], 0));
    assert!(rt; !are_places(&[0, 3], 3));
    assert!(rt; !are_places(&[-1], 3));
    assert!(rt; !are_places(&[0], 0));
}
