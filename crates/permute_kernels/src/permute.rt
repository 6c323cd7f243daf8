//! Items moved to the places that an index holds, segment by segment. Want of memory leaves the meter as it was.

ghost use Rattle.std.specs.Prelude.{◌≡◌, length, sum, IfOk};
ghost use Rattle.segment_desc.specs.Appended.{IsExact};
ghost use Rattle.scan_kernels.specs.Metering.{CountsRun};
ghost use Rattle.scan_kernels.specs.Indices.{HoldsEachPlaceOnce, PermuteSegments};
ghost use Rattle.scan_kernels.specs.Permuted.{IsPermuted, IsPermutedBySegments, permuted, segmented_permute};

use scan_kernels::{
    BoolRow, Execution, IntRow, Meter, PermutedSegments, Source, bools_by_chunks, ints_by_chunks,
    permute_size, place_of,
};
use segment_desc::{OutOfMemory, Segd, append_reserved};
use std::alloc::AllocError;

/// In each segment, the integer at place i goes to the place that the index holds at i. There are as many indices as
/// integers, the segments have them all together, and each segment of the index holds each of its places once, as
/// `is_permutation` tells. A copy, and one pass that writes over it.
pub fn permute_z(
    execution: &impl Execution,
    alloc: impl Source<i64>,
    meter: &mut Meter,
    items: &[i64],
    index: &[i64],
    segments: &Segd,
) -> Result<Vec<i64>, OutOfMemory>
    requires same_length { length index.now ≡ length items.now }
    requires total { sum segments.now ≡ length index.now }
    requires permutation { PermuteSegments segments.now index.now }
    ensures permute { IfOk result (λ v. v.items ≡ segmented_permute segments.now index.now items.now) }
    ensures places { IfOk result (λ v. IsPermutedBySegments segments.now index.now items.now v.items) }
    ensures exact { IfOk result (λ v. IsExact v) }
    ensures counted { CountsRun result meter.old meter.new }
{
    let lengths = segments.lengths();
    let made = match permute_size(execution, meter, index.len()) {
        Some(size) => {
            let row = IntRow::PermutedSegments(PermutedSegments {
                items,
                index,
                lengths,
            });
            ints_by_chunks(execution, alloc, row, size)?
        }
        None => permuted(alloc, items, index, lengths)?,
    };
    meter.raise();
    Ok(made)
}

/// The same for truth values.
pub fn permute_b(
    execution: &impl Execution,
    alloc: impl Source<bool>,
    meter: &mut Meter,
    flags: &[bool],
    index: &[i64],
    segments: &Segd,
) -> Result<Vec<bool>, OutOfMemory>
    requires same_length { length index.now ≡ length flags.now }
    requires total { sum segments.now ≡ length index.now }
    requires permutation { PermuteSegments segments.now index.now }
    ensures permute { IfOk result (λ v. v.items ≡ segmented_permute segments.now index.now flags.now) }
    ensures places { IfOk result (λ v. IsPermutedBySegments segments.now index.now flags.now v.items) }
    ensures exact { IfOk result (λ v. IsExact v) }
    ensures counted { CountsRun result meter.old meter.new }
{
    let lengths = segments.lengths();
    let made = match permute_size(execution, meter, index.len()) {
        Some(size) => {
            let row = BoolRow::PermutedSegments(PermutedSegments {
                items: flags,
                index,
                lengths,
            });
            bools_by_chunks(execution, alloc, row, size)?
        }
        None => permuted(alloc, flags, index, lengths)?,
    };
    meter.raise();
    Ok(made)
}

pub(crate) fn permuted<T: Copy + Send + Sync>(
    alloc: impl Source<T>,
    items: &[T],
    index: &[i64],
    lengths: &[usize],
) -> Result<Vec<T>, AllocError>
    requires same_length { length index.now ≡ length items.now }
    requires total { sum lengths.now ≡ length index.now }
    requires permutation { PermuteSegments lengths.now index.now }
    ensures permute { IfOk result (λ v. v.items ≡ segmented_permute lengths.now index.now items.now) }
    ensures places { IfOk result (λ v. IsPermutedBySegments lengths.now index.now items.now v.items) }
    ensures exact { IfOk result (λ v. IsExact v) }
{
    let mut made = alloc.vector(items.len())?;
    append_reserved(items, &mut made);
    scatter_each(items, index, lengths, made.as_mut_slice());
    Ok(made)
}

fn scatter_each<T: Copy + Send + Sync>(
    items: &[T],
    index: &[i64],
    lengths: &[usize],
    made: &mut [T],
)
    requires same_length { length index.now ≡ length items.now }
    requires room { length made.old ≡ length items.now }
    requires total { sum lengths.now ≡ length index.now }
    requires permutation { PermuteSegments lengths.now index.now }
    ensures permute { made.new ≡ segmented_permute lengths.now index.now items.now }
    ensures places { IsPermutedBySegments lengths.now index.now items.now made.new }
{
    let mut at = 0;
    for &length in lengths {
        let end = at + length;
        scatter(&items[at..end], &index[at..end], &mut made[at..end]);
        at = end;
    }
}

#[inline(always)]
pub(crate) fn scatter<T: Copy + Send + Sync>(items: &[T], index: &[i64], made: &mut [T])
    requires same_length { length index.now ≡ length items.now }
    requires room { length made.old ≡ length items.now }
    requires each_once { HoldsEachPlaceOnce index.now }
    ensures permute { made.new ≡ permuted index.now items.now }
    ensures places { IsPermuted index.now items.now made.new }
{
    for i in 0..items.len() {
        made[place_of(index[i])] = items[i];
    }
}
