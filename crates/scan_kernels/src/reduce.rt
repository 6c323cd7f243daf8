//! The reduction of each segment, one segment after another.

ghost use Rattle.std.specs.Prelude.{◌≡◌, ◌+◌, ◌≤◌, length, drop, map, sum, fold, vec_len, vec_capacity, IfOk};
ghost use Rattle.segment_desc.specs.Appended.{Appends, IsExact};
ghost use Rattle.scan_kernels.specs.Segmented.{segmented_reduce};
ghost use Rattle.item_operations.specs.IntegerScans.{combine_z, unit_z};
ghost use Rattle.item_operations.specs.BooleanScans.{combine_b, unit_b};
ghost use Rattle.scan_kernels.specs.Metering.{CountsRun};

use crate::choices::{by_name, by_scan_b, by_scan_z};
use crate::chunks::{bools_by_chunks, ints_by_chunks};
use crate::execution::Execution;
use crate::meter::Meter;
use crate::reduction_sizes::segments_size;
use crate::reductions::{ReducedBools, ReducedInts};
use crate::rows::{BoolRow, IntRow};
use crate::singles::{BLOCK, are_single};
use crate::source::Source;
use item_operations::{Combine, ScanB, ScanZ};
use segment_desc::{OutOfMemory, Segd};
use std::alloc::AllocError;

/// What the operation makes of each segment of integers, in one pass into a vector with one item for each segment. The
/// segments have all the items together.
pub fn reduce_z(
    execution: &impl Execution,
    alloc: impl Source<i64>,
    meter: &mut Meter,
    op: ScanZ,
    items: &[i64],
    segments: &Segd,
) -> Result<Vec<i64>, OutOfMemory>
    requires { sum segments.now ≡ length items.now }
    ensures reduce { IfOk result (λ v. v.items ≡ segmented_reduce (combine_z op) (unit_z op) segments.now items.now) }
    ensures exact { IfOk result (λ v. IsExact v) }
    ensures counted { CountsRun result meter.old meter.new }
{
    let lengths = segments.lengths();
    let made = match segments_size(execution, meter, lengths.len(), items.len()) {
        Some(size) => {
            let row = IntRow::Reduced(ReducedInts { op, items, lengths });
            ints_by_chunks(execution, alloc, row, size)?
        }
        None => by_scan_z!(op, reduce(alloc, op, items, lengths)?),
    };
    meter.raise();
    Ok(made)
}

/// What the operation makes of each segment of truth values, in one pass into a vector with one item for each segment. The
/// segments have all the items together.
pub fn reduce_b(
    execution: &impl Execution,
    alloc: impl Source<bool>,
    meter: &mut Meter,
    op: ScanB,
    items: &[bool],
    segments: &Segd,
) -> Result<Vec<bool>, OutOfMemory>
    requires { sum segments.now ≡ length items.now }
    ensures reduce { IfOk result (λ v. v.items ≡ segmented_reduce (combine_b op) (unit_b op) segments.now items.now) }
    ensures exact { IfOk result (λ v. IsExact v) }
    ensures counted { CountsRun result meter.old meter.new }
{
    let lengths = segments.lengths();
    let made = match segments_size(execution, meter, lengths.len(), items.len()) {
        Some(size) => {
            let row = BoolRow::Reduced(ReducedBools { op, items, lengths });
            bools_by_chunks(execution, alloc, row, size)?
        }
        None => by_scan_b!(op, reduce(alloc, op, items, lengths)?),
    };
    meter.raise();
    Ok(made)
}

#[inline(always)]
pub(crate) fn reduce<O: Combine>(
    alloc: impl Source<O::Item>,
    op: O,
    items: &[O::Item],
    lengths: &[usize],
) -> Result<Vec<O::Item>, AllocError>
    requires { sum lengths.now ≡ length items.now }
    ensures items { IfOk result (λ v. v.items ≡ segmented_reduce (O.combined op) (O.unit_of op) lengths.now items.now) }
    ensures exact { IfOk result (λ v. IsExact v) }
{
    let mut made = alloc.vector(lengths.len())?;
    let mut rest = items;
    for block in lengths.chunks(BLOCK) {
        rest = reduce_block(op, rest, block, &mut made);
    }
    Ok(made)
}

// Reduces the first segments of the items, and gives the items behind them.
#[inline(always)]
fn reduce_block<'a, O: Combine>(
    op: O,
    items: &'a [O::Item],
    lengths: &[usize],
    made: &mut Vec<O::Item>,
) -> &'a [O::Item]
    requires within { sum lengths.now ≤ length items.now }
    requires room { vec_len made.old + length lengths.now ≤ vec_capacity made.old }
    ensures reduce { Appends made.old made.new (segmented_reduce (O.combined op) (O.unit_of op) lengths.now items.now) }
    ensures rest { result.now ≡ drop (sum lengths.now) items.now }
{
    if !are_single(lengths) {
        return reduce_each(op, items, lengths, made);
    }
    let (singles, rest) = items.split_at(lengths.len());
    reduce_singles(op, singles, made);
    rest
}

#[inline(always)]
fn reduce_singles<O: Combine>(op: O, items: &[O::Item], made: &mut Vec<O::Item>)
    requires room { vec_len made.old + length items.now ≤ vec_capacity made.old }
    ensures { Appends made.old made.new (map (O.combined op (O.unit_of op)) items.now) }
{
    for &item in items {
        made.push_reserved(op.combine(op.unit(), item));
    }
}

#[inline(always)]
fn reduce_each<'a, O: Combine>(
    op: O,
    items: &'a [O::Item],
    lengths: &[usize],
    made: &mut Vec<O::Item>,
) -> &'a [O::Item]
    requires within { sum lengths.now ≤ length items.now }
    requires room { vec_len made.old + length lengths.now ≤ vec_capacity made.old }
    ensures reduce { Appends made.old made.new (segmented_reduce (O.combined op) (O.unit_of op) lengths.now items.now) }
    ensures rest { result.now ≡ drop (sum lengths.now) items.now }
{
    let mut rest = items;
    for &length in lengths {
        let (segment, behind) = rest.split_at(length);
        made.push_reserved(reduce_segment(op, segment));
        rest = behind;
    }
    rest
}

#[inline(always)]
#[tactic(auto, using(crate::proofs::Scanned::fold_push))]
pub(crate) fn reduce_segment<O: Combine>(op: O, items: &[O::Item]) -> O::Item
    ensures { result ≡ fold (O.combined op) (O.unit_of op) items.now }
{
    let mut so_far = op.unit();
    for &item in items {
        so_far = op.combine(so_far, item);
    }
    so_far
}
