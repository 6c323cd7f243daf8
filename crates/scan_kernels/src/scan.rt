//! The exclusive scan of each segment, one segment after another.

ghost use Rattle.std.specs.Prelude.{◌≡◌, ◌+◌, ◌≤◌, ◌%◌, length, drop, sum, fold, vec_len, vec_capacity, IfOk};
ghost use Rattle.segment_desc.specs.Appended.{Appends, IsExact};
ghost use Rattle.scan_kernels.specs.Segmented.{scanned, segmented_scan};
ghost use Rattle.item_operations.specs.IntegerScans.{combine_z, unit_z};
ghost use Rattle.item_operations.specs.BooleanScans.{combine_b, unit_b};
ghost use Rattle.scan_kernels.specs.Metering.{CountsRun};

use crate::choices::{by_name, by_scan_b, by_scan_z};
use crate::chunks::write_size;
use crate::execution::Execution;
use crate::fill::repeat;
use crate::meter::Meter;
use crate::scans_by_chunks::{scan_bools_by_chunks, scan_ints_by_chunks};
use crate::singles::{BLOCK, are_single};
use crate::source::Source;
use item_operations::{Combine, ScanB, ScanZ};
use segment_desc::{OutOfMemory, Segd};
use std::alloc::AllocError;

/// The exclusive scan of each segment of integers, in one pass into a vector of its final size. The segments have all the
/// items together.
pub fn scan_z(
    execution: &impl Execution,
    alloc: impl Source<i64>,
    meter: &mut Meter,
    op: ScanZ,
    items: &[i64],
    segments: &Segd,
) -> Result<Vec<i64>, OutOfMemory>
    requires { sum segments.now ≡ length items.now }
    ensures scan { IfOk result (λ v. v.items ≡ segmented_scan (combine_z op) (unit_z op) segments.now items.now) }
    ensures exact { IfOk result (λ v. IsExact v) }
    ensures counted { CountsRun result meter.old meter.new }
{
    let lengths = segments.lengths();
    let made = match write_size(execution, &alloc, meter, items.len()) {
        Some(size) => scan_ints_by_chunks(execution, alloc, op, items, lengths, size)?,
        None => by_scan_z!(op, scan(alloc, op, items, lengths)?),
    };
    meter.raise();
    Ok(made)
}

/// The exclusive scan of each segment of truth values, in one pass into a vector of its final size. The segments have all
/// the items together.
pub fn scan_b(
    execution: &impl Execution,
    alloc: impl Source<bool>,
    meter: &mut Meter,
    op: ScanB,
    items: &[bool],
    segments: &Segd,
) -> Result<Vec<bool>, OutOfMemory>
    requires { sum segments.now ≡ length items.now }
    ensures scan { IfOk result (λ v. v.items ≡ segmented_scan (combine_b op) (unit_b op) segments.now items.now) }
    ensures exact { IfOk result (λ v. IsExact v) }
    ensures counted { CountsRun result meter.old meter.new }
{
    let lengths = segments.lengths();
    let made = match write_size(execution, &alloc, meter, items.len()) {
        Some(size) => scan_bools_by_chunks(execution, alloc, op, items, lengths, size)?,
        None => by_scan_b!(op, scan(alloc, op, items, lengths)?),
    };
    meter.raise();
    Ok(made)
}

#[inline(always)]
pub(crate) fn scan<O: Combine>(
    alloc: impl Source<O::Item>,
    op: O,
    items: &[O::Item],
    lengths: &[usize],
) -> Result<Vec<O::Item>, AllocError>
    requires { sum lengths.now ≡ length items.now }
    ensures items { IfOk result (λ v. v.items ≡ segmented_scan (O.combined op) (O.unit_of op) lengths.now items.now) }
    ensures exact { IfOk result (λ v. IsExact v) }
{
    let mut made = alloc.vector(items.len())?;
    let mut rest = items;
    for block in lengths.chunks(BLOCK) {
        rest = scan_block(op, rest, block, &mut made);
    }
    Ok(made)
}

// Scans the first segments of the items, and gives the items behind them.
#[inline(always)]
fn scan_block<'a, O: Combine>(
    op: O,
    items: &'a [O::Item],
    lengths: &[usize],
    made: &mut Vec<O::Item>,
) -> &'a [O::Item]
    requires within { sum lengths.now ≤ length items.now }
    requires room { vec_len made.old + sum lengths.now ≤ vec_capacity made.old }
    ensures scan { Appends made.old made.new (segmented_scan (O.combined op) (O.unit_of op) lengths.now items.now) }
    ensures rest { result.now ≡ drop (sum lengths.now) items.now }
{
    if !are_single(lengths) {
        return scan_each(op, items, lengths, made);
    }
    let (singles, rest) = items.split_at(lengths.len());
    repeat(op.unit(), singles.len(), made);
    rest
}

#[inline(always)]
fn scan_each<'a, O: Combine>(
    op: O,
    items: &'a [O::Item],
    lengths: &[usize],
    made: &mut Vec<O::Item>,
) -> &'a [O::Item]
    requires within { sum lengths.now ≤ length items.now }
    requires room { vec_len made.old + sum lengths.now ≤ vec_capacity made.old }
    ensures scan { Appends made.old made.new (segmented_scan (O.combined op) (O.unit_of op) lengths.now items.now) }
    ensures rest { result.now ≡ drop (sum lengths.now) items.now }
{
    let mut rest = items;
    for &length in lengths {
        let (segment, behind) = rest.split_at(length);
        scan_segment(op, segment, made);
        rest = behind;
    }
    rest
}

#[inline(always)]
pub(crate) fn scan_segment<O: Combine>(op: O, items: &[O::Item], made: &mut Vec<O::Item>)
    requires room { vec_len made.old + length items.now ≤ vec_capacity made.old }
    ensures { Appends made.old made.new (scanned (O.combined op) (O.unit_of op) items.now) }
{
    let (fours, rest) = items.split_at(items.len() - items.len() % 4);
    let so_far = scan_fours(op, op.unit(), fours, made);
    scan_from(op, so_far, rest, made);
}

// Four items a turn, which takes fewer instructions an item than one.
#[inline(always)]
fn scan_fours<O: Combine>(
    op: O,
    first: O::Item,
    items: &[O::Item],
    made: &mut Vec<O::Item>,
) -> O::Item
    requires fours { length items.now % 4 ≡ 0 }
    requires room { vec_len made.old + length items.now ≤ vec_capacity made.old }
    ensures scan { Appends made.old made.new (scanned (O.combined op) first items.now) }
    ensures last { result ≡ fold (O.combined op) first items.now }
{
    let mut so_far = first;
    for four in 0..items.len() / 4 {
        let at = 4 * four;
        so_far = scan_four(op, so_far, &items[at..at + 4], made);
    }
    so_far
}

#[inline(always)]
fn scan_four<O: Combine>(
    op: O,
    first: O::Item,
    items: &[O::Item],
    made: &mut Vec<O::Item>,
) -> O::Item
    requires four { length items.now ≡ 4 }
    requires room { vec_len made.old + 4 ≤ vec_capacity made.old }
    ensures scan { Appends made.old made.new (scanned (O.combined op) first items.now) }
    ensures last { result ≡ fold (O.combined op) first items.now }
{
    let second = op.combine(first, items[0]);
    let third = op.combine(second, items[1]);
    let fourth = op.combine(third, items[2]);
    made.push_reserved(first);
    made.push_reserved(second);
    made.push_reserved(third);
    made.push_reserved(fourth);
    op.combine(fourth, items[3])
}

#[inline(always)]
fn scan_from<O: Combine>(op: O, first: O::Item, items: &[O::Item], made: &mut Vec<O::Item>)
    requires room { vec_len made.old + length items.now ≤ vec_capacity made.old }
    ensures { Appends made.old made.new (scanned (O.combined op) first items.now) }
{
    let mut so_far = first;
    for &item in items {
        made.push_reserved(so_far);
        so_far = op.combine(so_far, item);
    }
}
