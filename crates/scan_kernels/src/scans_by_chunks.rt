//! Scans by chunks: where the edges between the chunks lie, what is carried over each, and then each chunk from what is
//! carried into it (Blelloch 1990). A scan without a list of segments is that of one segment.

ghost use Rattle.std.specs.Prelude.{◌≡◌, ℕ, ◌+◌, ◌*◌, ◌<◌, ◌≤◌, ◌^◌, length, sum, slice_get, Some, All, FitsSigned, IfOk};
ghost use Rattle.std.specs.Int.{w64};
ghost use Rattle.segment_desc.specs.Appended.{IsExact};
ghost use Rattle.item_operations.specs.BooleanScans.{combine_b, unit_b};
ghost use Rattle.item_operations.specs.IntegerScans.{combine_z, unit_z};
ghost use Rattle.scan_kernels.specs.Edges.{AreCarries};
ghost use Rattle.scan_kernels.specs.Segmented.{segmented_scan};

use crate::carries::{CarriedOver, carry_on};
use crate::chunks::{MOST_CHUNKS, bools_by_chunks, ints_by_chunks, size_of_few};
use crate::edges::{Edge, NO_EDGE, find_edges};
use crate::execution::Execution;
use crate::rows::{BoolRow, IntRow};
use crate::scans_in_parts::Scanned;
use crate::source::Source;
use item_operations::{Combine, ScanB, ScanZ};
use std::alloc::AllocError;

/// The scan of each segment of integers, in chunks of a size, or of a greater one if they would be too many.
pub(crate) fn scan_ints_by_chunks(
    execution: &impl Execution,
    source: impl Source<i64>,
    op: ScanZ,
    items: &[i64],
    lengths: &[usize],
    size: usize,
) -> Result<Vec<i64>, AllocError>
    requires size { 0 < size }
    requires total { sum lengths.now ≡ length items.now }
    ensures items { IfOk result (λ v. v.items ≡ segmented_scan (combine_z op) (unit_z op) lengths.now items.now) }
    ensures exact { IfOk result (λ v. IsExact v) }
{
    let size = size_of_few(items.len(), size);
    let count = edges_within(items.len(), size);
    let mut edges = [NO_EDGE; MOST_CHUNKS];
    let mut carries = [op.unit(); MOST_CHUNKS];
    let edges = &mut edges[..count];
    let carries = &mut carries[..count + 1];
    carry_ints(execution, op, items, lengths, size, edges, carries);
    let row = IntRow::Scanned(Scanned {
        op,
        items,
        lengths,
        carries,
        size,
    });
    ints_by_chunks(execution, source, row, size)
}

/// Finds what a scan of integers carries into each chunk.
fn carry_ints(
    execution: &impl Execution,
    op: ScanZ,
    items: &[i64],
    lengths: &[usize],
    size: usize,
    edges: &mut [Edge],
    carries: &mut [i64],
)
    requires size { 0 < size }
    requires total { sum lengths.now ≡ length items.now }
    requires within { (k : ℕ) → k < length edges.old → (k + 1) * size < length items.now }
    requires all { (k : ℕ) → k * size < length items.now → k < length edges.old + 1 }
    requires long { length carries.old ≡ length edges.old + 1 }
    requires first { slice_get carries.old 0 ≡ Some (unit_z op) }
    ensures { AreCarries size (segmented_scan (combine_z op) (unit_z op) lengths.now items.now) carries.new }
{
    each_fits(items);
    find_edges(lengths, size, edges);
    let row = IntRow::CarriedOver(CarriedOver { op, items, edges });
    execution.write_ints(row, 1, &mut carries[1..]);
    carry_on(op, edges, carries);
}

/// The scan of each segment of truth values, in chunks of a size, or of a greater one if they would be too many.
pub(crate) fn scan_bools_by_chunks(
    execution: &impl Execution,
    source: impl Source<bool>,
    op: ScanB,
    items: &[bool],
    lengths: &[usize],
    size: usize,
) -> Result<Vec<bool>, AllocError>
    requires size { 0 < size }
    requires total { sum lengths.now ≡ length items.now }
    ensures items { IfOk result (λ v. v.items ≡ segmented_scan (combine_b op) (unit_b op) lengths.now items.now) }
    ensures exact { IfOk result (λ v. IsExact v) }
{
    let size = size_of_few(items.len(), size);
    let count = edges_within(items.len(), size);
    let mut edges = [NO_EDGE; MOST_CHUNKS];
    let mut carries = [op.unit(); MOST_CHUNKS];
    let edges = &mut edges[..count];
    let carries = &mut carries[..count + 1];
    carry_bools(execution, op, items, lengths, size, edges, carries);
    let row = BoolRow::Scanned(Scanned {
        op,
        items,
        lengths,
        carries,
        size,
    });
    bools_by_chunks(execution, source, row, size)
}

/// Finds what a scan of truth values carries into each chunk.
fn carry_bools(
    execution: &impl Execution,
    op: ScanB,
    items: &[bool],
    lengths: &[usize],
    size: usize,
    edges: &mut [Edge],
    carries: &mut [bool],
)
    requires size { 0 < size }
    requires total { sum lengths.now ≡ length items.now }
    requires within { (k : ℕ) → k < length edges.old → (k + 1) * size < length items.now }
    requires all { (k : ℕ) → k * size < length items.now → k < length edges.old + 1 }
    requires long { length carries.old ≡ length edges.old + 1 }
    requires first { slice_get carries.old 0 ≡ Some (unit_b op) }
    ensures { AreCarries size (segmented_scan (combine_b op) (unit_b op) lengths.now items.now) carries.new }
{
    find_edges(lengths, size, edges);
    let row = BoolRow::CarriedOver(CarriedOver { op, items, edges });
    execution.write_bools(row, 1, &mut carries[1..]);
    carry_on(op, edges, carries);
}

/// Each integer is one of 64 bits, as all of its type are. It does nothing.
pub(crate) fn each_fits(items: &[i64])
    ensures { All (FitsSigned w64) items.now }
{
    for &_item in items {}
}

/// How many edges lie within a list, between its chunks.
fn edges_within(count: usize, size: usize) -> usize
    requires size { 0 < size }
    requires few { count ≤ MOST_CHUNKS * size }
    ensures within { (k : ℕ) → k < result → (k + 1) * size < count }
    ensures all { (k : ℕ) → k * size < count → k < result + 1 }
    ensures few { result < MOST_CHUNKS }
{
    count.saturating_sub(1) / size
}
