//! Tests of indices, for a caller to make once before a kernel runs.

ghost use Rattle.std.specs.Prelude.{◌≡◌, ◌↔◌, length, sum, replicate, false, All, IsTrue, IfOk};
ghost use Rattle.scan_kernels.specs.Indices.{HoldsEachPlaceOnce, IsPlaceOf, LieWithin, PermuteSegments};

use scan_kernels::index_tests::{
    lie_within_by_chunks, permutation_test_size, permutations_test_size, permutes_by_chunks,
    places_test_size,
};
use scan_kernels::{Execution, Meter, are_places, is_place, place_of};
use segment_desc::{OutOfMemory, Segd};
use std::alloc::{AllocError, Global};

/// Whether each segment of the index holds each of its places once, as `permute_z` and `permute_b` ask. The segments have
/// all the indices together. One pass over the index, and a byte for each of its items.
pub fn is_permutation(alloc: Global, index: &[i64], segments: &Segd) -> Result<bool, OutOfMemory>
    requires { sum segments.now ≡ length index.now }
    ensures { IfOk result (λ b. IsTrue b ↔ PermuteSegments segments.now index.now) }
{
    Ok(permutes_each(alloc, index, segments.lengths())?)
}

/// Whether the index holds each of its own places once: `is_permutation` where one segment has all items. One pass over the
/// index, and a byte for each of its items.
#[inline(never)]
pub fn is_whole_permutation(alloc: Global, index: &[i64]) -> Result<bool, OutOfMemory>
    ensures { IfOk result (λ b. IsTrue b ↔ HoldsEachPlaceOnce index.now) }
{
    let mut seen = vec![in alloc; false; index.len()]?;
    Ok(holds_each_once(index, seen.as_mut_slice()))
}

#[tactic(auto, unfolding(scan_kernels::specs::Indices::PermuteSegments))]
fn permutes_each(alloc: Global, index: &[i64], lengths: &[usize]) -> Result<bool, AllocError>
    requires { sum lengths.now ≡ length index.now }
    ensures { IfOk result (λ b. IsTrue b ↔ PermuteSegments lengths.now index.now) }
{
    let mut seen = Vec::with_capacity(alloc, index.len())?;
    let mut at = 0;
    for &length in lengths {
        let end = at + length;
        seen.clear();
        seen.resize(length, false)?;
        if !holds_each_once(&index[at..end], seen.as_mut_slice()) {
            return Ok(false);
        }
        at = end;
    }
    Ok(true)
}

#[inline(always)]
fn holds_each_once(index: &[i64], seen: &mut [bool]) -> bool
    requires { seen.old ≡ replicate (length index.now) false }
    ensures { IsTrue result ↔ HoldsEachPlaceOnce index.now }
{
    for &held in index {
        if !is_place(held, seen.len()) {
            return false;
        }
        let place = place_of(held);
        if seen[place] {
            return false;
        }
        seen[place] = true;
    }
    true
}

/// Whether each index is a place of its segment of the source, as `back_permute_z` and `back_permute_b` ask. The index has
/// the segments `by`, as many as the source. It takes no memory.
pub fn in_range(index: &[i64], source: &Segd, by: &Segd) -> bool
    requires counts { length source.now ≡ length by.now }
    requires total { sum by.now ≡ length index.now }
    ensures { IsTrue result ↔ LieWithin source.now by.now index.now }
{
    each_within(index, source.lengths(), by.lengths())
}

#[inline(never)]
fn each_within(index: &[i64], source: &[usize], by: &[usize]) -> bool
    requires counts { length source.now ≡ length by.now }
    requires total { sum by.now ≡ length index.now }
    ensures { IsTrue result ↔ LieWithin source.now by.now index.now }
{
    let mut at = 0;
    for j in 0..by.len() {
        let end = at + by[j];
        if !are_places(&index[at..end], source[j]) {
            return false;
        }
        at = end;
    }
    true
}

/// `is_permutation`, by chunks where these pay. The meter says how many items a chunk has, and is not raised.
#[inline(always)]
pub fn is_permutation_by(
    execution: &impl Execution,
    alloc: Global,
    meter: &Meter,
    index: &[i64],
    segments: &Segd,
) -> Result<bool, OutOfMemory>
    requires { sum segments.now ≡ length index.now }
    ensures { IfOk result (λ b. IsTrue b ↔ PermuteSegments segments.now index.now) }
{
    let lengths = segments.lengths();
    match permutations_test_size(execution, meter, index.len(), lengths) {
        Some(size) => Ok(permutes_by_chunks(execution, alloc, index, lengths, size)?),
        None => is_permutation(alloc, index, segments),
    }
}

/// `is_whole_permutation`, by chunks where these pay. The meter says how many items a chunk has, and is not raised.
#[inline(always)]
pub fn is_whole_permutation_by(
    execution: &impl Execution,
    alloc: Global,
    meter: &Meter,
    index: &[i64],
) -> Result<bool, OutOfMemory>
    ensures { IfOk result (λ b. IsTrue b ↔ HoldsEachPlaceOnce index.now) }
{
    match permutation_test_size(execution, meter, index.len()) {
        Some(size) => Ok(permutes_by_chunks(execution, alloc, index, &[index.len()], size)?),
        None => is_whole_permutation(alloc, index),
    }
}

/// `in_range`, by chunks where these pay. The meter says how many items a chunk has, and is not raised.
#[inline(always)]
pub fn in_range_by(
    execution: &impl Execution,
    meter: &Meter,
    index: &[i64],
    source: &Segd,
    by: &Segd,
) -> bool
    requires counts { length source.now ≡ length by.now }
    requires total { sum by.now ≡ length index.now }
    ensures { IsTrue result ↔ LieWithin source.now by.now index.now }
{
    match places_test_size(execution, meter, index.len()) {
        Some(size) => {
            lie_within_by_chunks(execution, index, source.lengths(), by.lengths(), size)
        }
        None => in_range(index, source, by),
    }
}

/// `are_places`, by chunks where these pay. The meter says how many items a chunk has, and is not raised.
#[inline(always)]
pub fn are_places_by(
    execution: &impl Execution,
    meter: &Meter,
    index: &[i64],
    length: usize,
) -> bool
    ensures { IsTrue result ↔ All (IsPlaceOf length) index.now }
{
    match places_test_size(execution, meter, index.len()) {
        Some(size) => lie_within_by_chunks(execution, index, &[length], &[index.len()], size),
        None => are_places(index, length),
    }
}
