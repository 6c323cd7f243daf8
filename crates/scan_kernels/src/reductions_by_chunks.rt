//! Reductions of all items by chunks: each chunk by itself, as one of the segments of a list, and then what these come to one
//! after another. They take no memory: what is known of the chunks lies on the stack.

ghost use Rattle.std.specs.Prelude.{◌≡◌, ℕ, ◌+◌, ◌*◌, ◌<◌, ◌≤◌, ◌^◌, length, sum, All, FitsSigned};
ghost use Rattle.std.specs.Int.{w64};
ghost use Rattle.item_operations.specs.BooleanScans.{combine_b, unit_b};
ghost use Rattle.item_operations.specs.IntegerScans.{combine_z, unit_z};
ghost use Rattle.scan_kernels.specs.Segmented.{reduced};

use crate::chunks::{MOST_CHUNKS, size_of_few};
use crate::execution::Execution;
use crate::reductions::{ReducedBools, ReducedInts};
use crate::rows::{BoolRow, IntRow};
use crate::scans_by_chunks::each_fits;
use crate::whole::{chosen_reduction_b, chosen_reduction_z};
use item_operations::{Combine, ScanB, ScanZ};

/// What the operation makes of all integers, in chunks of a size, or of a greater one if they would be too many.
pub(crate) fn reduce_ints_by_chunks(
    execution: &impl Execution,
    op: ScanZ,
    items: &[i64],
    size: usize,
) -> i64
    requires { 0 < size }
    ensures { result ≡ reduced (combine_z op) (unit_z op) items.now }
{
    each_fits(items);
    let size = size_of_few(items.len(), size);
    let count = items.len().div_ceil(size);
    let mut lengths = [0; MOST_CHUNKS];
    let mut sums = [op.unit(); MOST_CHUNKS];
    reduce_cut_ints(
        execution,
        op,
        items,
        size,
        &mut lengths[..count],
        &mut sums[..count],
    )
}

/// Reduces as many chunks as there are lengths and sums.
#[tactic(auto, using(crate::proofs::ReducedParts::reduced_long))]
fn reduce_cut_ints(
    execution: &impl Execution,
    op: ScanZ,
    items: &[i64],
    size: usize,
    lengths: &mut [usize],
    sums: &mut [i64],
) -> i64
    requires items { All (FitsSigned w64) items.now }
    requires begun { (k : ℕ) → k < length lengths.old → k * size < length items.now }
    requires all { length items.now ≤ length lengths.old * size }
    requires long { length sums.old ≡ length lengths.old }
    ensures { result ≡ reduced (combine_z op) (unit_z op) items.now }
{
    cut_evenly(items.len(), size, lengths);
    let row = IntRow::Reduced(ReducedInts { op, items, lengths });
    execution.write_ints(row, 1, sums);
    chosen_reduction_z(op, sums)
}

/// What the operation makes of all truth values, in chunks of a size, or of a greater one if they would be too many.
pub(crate) fn reduce_bools_by_chunks(
    execution: &impl Execution,
    op: ScanB,
    items: &[bool],
    size: usize,
) -> bool
    requires { 0 < size }
    ensures { result ≡ reduced (combine_b op) (unit_b op) items.now }
{
    let size = size_of_few(items.len(), size);
    let count = items.len().div_ceil(size);
    let mut lengths = [0; MOST_CHUNKS];
    let mut sums = [op.unit(); MOST_CHUNKS];
    reduce_cut_bools(
        execution,
        op,
        items,
        size,
        &mut lengths[..count],
        &mut sums[..count],
    )
}

/// Reduces as many chunks as there are lengths and sums.
#[tactic(auto, using(crate::proofs::ReducedParts::reduced_long))]
fn reduce_cut_bools(
    execution: &impl Execution,
    op: ScanB,
    items: &[bool],
    size: usize,
    lengths: &mut [usize],
    sums: &mut [bool],
) -> bool
    requires begun { (k : ℕ) → k < length lengths.old → k * size < length items.now }
    requires all { length items.now ≤ length lengths.old * size }
    requires long { length sums.old ≡ length lengths.old }
    ensures { result ≡ reduced (combine_b op) (unit_b op) items.now }
{
    cut_evenly(items.len(), size, lengths);
    let row = BoolRow::Reduced(ReducedBools { op, items, lengths });
    execution.write_bools(row, 1, sums);
    chosen_reduction_b(op, sums)
}

/// Cuts so many items into chunks of a size, of which the last may be shorter.
pub(crate) fn cut_evenly(count: usize, size: usize, lengths: &mut [usize])
    requires begun { (k : ℕ) → k < length lengths.old → k * size < count }
    requires all { count ≤ length lengths.old * size }
    ensures { sum lengths.new ≡ count }
{
    for k in 0..lengths.len() {
        lengths[k] = size.min(count - k * size);
    }
}
