//! Tests of indices by chunks, and the sizes of the chunks where they go by chunks.

ghost use Rattle.std.specs.Prelude.{◌≡◌, ◌↔◌, ℕ, ◌*◌, ◌<◌, ◌≤◌, length, sum, IsTrue, IfOk};
ghost use Rattle.scan_kernels.specs.Indices.{LieWithin, PermuteSegments};

use crate::chunks::{MOST_CHUNKS, bools_by_chunks, size_of_few};
pub use crate::chunks::{permutation_test_size, permutations_test_size, places_test_size};
use crate::chunks_marked::{ChunksMarked, are_short};
use crate::chunks_within::ChunksWithin;
use crate::execution::Execution;
use crate::marks::Marked;
use crate::rows::BoolRow;
use crate::set_flags::all_set;
use std::alloc::{AllocError, Global};

/// Whether each segment of the index holds each of its places once, in chunks of a size. The segments have all the indices together.
/// Where all places are held, none is held twice, since a segment has no more indices than places. Short segments take no memory. Else
/// there is a byte for each index, which says whether the place of its number is held.
#[inline(never)]
pub fn permutes_by_chunks(
    execution: &impl Execution,
    alloc: Global,
    index: &[i64],
    lengths: &[usize],
    size: usize,
) -> Result<bool, AllocError>
    requires total { sum lengths.now ≡ length index.now }
    requires size { 0 < size }
    ensures { IfOk result (λ b. IsTrue b ↔ PermuteSegments lengths.now index.now) }
{
    if are_short(lengths) {
        return Ok(permute_in_blocks(execution, index, lengths, size));
    }
    let row = BoolRow::Marked(Marked { index, lengths });
    let marks = bools_by_chunks(execution, alloc, row, size)?;
    Ok(all_set(&marks))
}

/// Whether each segment of the index holds each of its places once, in chunks of a size, each of which marks a block of places at a
/// time. What is known of the chunks lies on the stack, so there are few.
fn permute_in_blocks(
    execution: &impl Execution,
    index: &[i64],
    lengths: &[usize],
    size: usize,
) -> bool
    requires total { sum lengths.now ≡ length index.now }
    requires size { 0 < size }
    ensures { IsTrue result ↔ PermuteSegments lengths.now index.now }
{
    let chunk = size_of_few(index.len(), size);
    let count = index.len().div_ceil(chunk);
    let chunks = ChunksMarked {
        index,
        lengths,
        size: chunk,
        count,
    };
    let mut each = [false; MOST_CHUNKS];
    are_all_marked(execution, chunks, &mut each[..count])
}

/// Tests as many chunks as there are truth values.
fn are_all_marked(execution: &impl Execution, chunks: ChunksMarked<'_>, each: &mut [bool]) -> bool
    requires total { sum chunks.lengths.now ≡ length chunks.index.now }
    requires size { 0 < chunks.size }
    requires begun { (k : ℕ) → k < chunks.count → k * chunks.size < length chunks.index.now }
    requires all { length chunks.index.now ≤ chunks.count * chunks.size }
    requires long { length each.old ≡ chunks.count }
    ensures { IsTrue result ↔ PermuteSegments chunks.entry.lengths.now chunks.entry.index.now }
{
    execution.write_bools(BoolRow::ChunksMarked(chunks), 1, each);
    all_set(each)
}

/// Whether each index is a place of the segment of the source that has the number of its own, in chunks of a size. The indices have
/// the segments `by`, as many as the source. It takes no memory: what is known of the chunks lies on the stack.
#[inline(never)]
pub fn lie_within_by_chunks(
    execution: &impl Execution,
    index: &[i64],
    source: &[usize],
    by: &[usize],
    size: usize,
) -> bool
    requires counts { length source.now ≡ length by.now }
    requires total { sum by.now ≡ length index.now }
    requires size { 0 < size }
    requires few { length index.now ≤ MOST_CHUNKS * size }
    ensures { IsTrue result ↔ LieWithin source.now by.now index.now }
{
    let count = index.len().div_ceil(size);
    let chunks = ChunksWithin {
        index,
        source,
        by,
        size,
        count,
    };
    let mut each = [false; MOST_CHUNKS];
    are_all_within(execution, chunks, &mut each[..count])
}

/// Tests as many chunks as there are truth values.
fn are_all_within(execution: &impl Execution, chunks: ChunksWithin<'_>, each: &mut [bool]) -> bool
    requires counts { length chunks.source.now ≡ length chunks.by.now }
    requires total { sum chunks.by.now ≡ length chunks.index.now }
    requires size { 0 < chunks.size }
    requires begun { (k : ℕ) → k < chunks.count → k * chunks.size < length chunks.index.now }
    requires all { length chunks.index.now ≤ chunks.count * chunks.size }
    requires long { length each.old ≡ chunks.count }
    ensures { IsTrue result ↔ LieWithin chunks.entry.source.now chunks.entry.by.now chunks.entry.index.now }
{
    execution.write_bools(BoolRow::ChunksWithin(chunks), 1, each);
    all_set(each)
}
