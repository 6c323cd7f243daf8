//! Kernels over one segment that has all the items, without a list of it. Want of memory leaves the meter as it was.

ghost use Rattle.std.specs.Prelude.{◌≡◌, ◌≤◌, replicate, IfOk};
ghost use Rattle.segment_desc.specs.Appended.{IsExact};
ghost use Rattle.segment_desc.specs.Lengths.{most};
ghost use Rattle.item_operations.specs.BooleanScans.{combine_b, unit_b};
ghost use Rattle.item_operations.specs.IntegerScans.{combine_z, unit_z};
ghost use Rattle.scan_kernels.specs.Indexed.{indexed};
ghost use Rattle.scan_kernels.specs.Metering.{CountsRun, raised};
ghost use Rattle.scan_kernels.specs.Segmented.{reduced, scanned};

use crate::choices::{by_name, by_scan_b, by_scan_z};
use crate::chunks::{bools_by_chunks, fill_size, ints_by_chunks, write_size};
use crate::execution::Execution;
use crate::fill::repeat;
use crate::fills::{Repeated, Rising};
use crate::indices::index_segment;
use crate::meter::Meter;
use crate::reduce::reduce_segment;
use crate::reduction_sizes::items_size;
use crate::reductions_by_chunks::{reduce_bools_by_chunks, reduce_ints_by_chunks};
use crate::rows::{BoolRow, IntRow};
use crate::scan::scan_segment;
use crate::scans_by_chunks::{scan_bools_by_chunks, scan_ints_by_chunks};
use crate::source::Source;
use item_operations::{Combine, ScanB, ScanZ};
use segment_desc::OutOfMemory;
use std::alloc::AllocError;

/// The exclusive scan of all the integers, in one pass into a vector of its final size.
#[tactic(auto, using(crate::proofs::Carried::scan_of_one))]
pub fn scan_whole_z(
    execution: &impl Execution,
    alloc: impl Source<i64>,
    meter: &mut Meter,
    op: ScanZ,
    items: &[i64],
) -> Result<Vec<i64>, OutOfMemory>
    ensures scan { IfOk result (λ v. v.items ≡ scanned (combine_z op) (unit_z op) items.now) }
    ensures exact { IfOk result (λ v. IsExact v) }
    ensures counted { CountsRun result meter.old meter.new }
{
    let made = match write_size(execution, &alloc, meter, items.len()) {
        Some(size) => scan_ints_by_chunks(execution, alloc, op, items, &[items.len()], size)?,
        None => by_scan_z!(op, scan_whole(alloc, op, items)?),
    };
    meter.raise();
    Ok(made)
}

/// The exclusive scan of all the truth values, in one pass into a vector of its final size.
#[tactic(auto, using(crate::proofs::Carried::scan_of_one))]
pub fn scan_whole_b(
    execution: &impl Execution,
    alloc: impl Source<bool>,
    meter: &mut Meter,
    op: ScanB,
    items: &[bool],
) -> Result<Vec<bool>, OutOfMemory>
    ensures scan { IfOk result (λ v. v.items ≡ scanned (combine_b op) (unit_b op) items.now) }
    ensures exact { IfOk result (λ v. IsExact v) }
    ensures counted { CountsRun result meter.old meter.new }
{
    let made = match write_size(execution, &alloc, meter, items.len()) {
        Some(size) => scan_bools_by_chunks(execution, alloc, op, items, &[items.len()], size)?,
        None => by_scan_b!(op, scan_whole(alloc, op, items)?),
    };
    meter.raise();
    Ok(made)
}

#[inline(always)]
pub(crate) fn scan_whole<O: Combine>(
    alloc: impl Source<O::Item>,
    op: O,
    items: &[O::Item],
) -> Result<Vec<O::Item>, AllocError>
    ensures items { IfOk result (λ v. v.items ≡ scanned (O.combined op) (O.unit_of op) items.now) }
    ensures exact { IfOk result (λ v. IsExact v) }
{
    let mut made = alloc.vector(items.len())?;
    scan_segment(op, items, &mut made);
    Ok(made)
}

/// What the operation makes of all the integers. It takes no memory.
pub fn reduce_whole_z(
    execution: &impl Execution,
    meter: &mut Meter,
    op: ScanZ,
    items: &[i64],
) -> i64
    ensures reduce { result ≡ reduced (combine_z op) (unit_z op) items.now }
    ensures counted { meter.new ≡ raised meter.old }
{
    meter.raise();
    match items_size(execution, meter, items.len()) {
        Some(size) => reduce_ints_by_chunks(execution, op, items, size),
        None => chosen_reduction_z(op, items),
    }
}

pub(crate) fn chosen_reduction_z(op: ScanZ, items: &[i64]) -> i64
    ensures { result ≡ reduced (combine_z op) (unit_z op) items.now }
{
    by_scan_z!(op, reduce_segment(op, items))
}

/// What the operation makes of all the truth values. It takes no memory.
pub fn reduce_whole_b(
    execution: &impl Execution,
    meter: &mut Meter,
    op: ScanB,
    items: &[bool],
) -> bool
    ensures reduce { result ≡ reduced (combine_b op) (unit_b op) items.now }
    ensures counted { meter.new ≡ raised meter.old }
{
    meter.raise();
    match items_size(execution, meter, items.len()) {
        Some(size) => reduce_bools_by_chunks(execution, op, items, size),
        None => chosen_reduction_b(op, items),
    }
}

pub(crate) fn chosen_reduction_b(op: ScanB, items: &[bool]) -> bool
    ensures { result ≡ reduced (combine_b op) (unit_b op) items.now }
{
    by_scan_b!(op, reduce_segment(op, items))
}

/// The integer so many times, in one pass into a vector of its final size.
pub fn repeat_z(
    execution: &impl Execution,
    alloc: impl Source<i64>,
    meter: &mut Meter,
    item: i64,
    count: usize,
) -> Result<Vec<i64>, OutOfMemory>
    ensures repeat { IfOk result (λ v. v.items ≡ replicate count item) }
    ensures exact { IfOk result (λ v. IsExact v) }
    ensures counted { CountsRun result meter.old meter.new }
{
    let made = match fill_size(execution, &alloc, meter, count) {
        Some(size) => {
            let row = IntRow::Repeated(Repeated { item, count });
            ints_by_chunks(execution, alloc, row, size)?
        }
        None => repeated(alloc, item, count)?,
    };
    meter.raise();
    Ok(made)
}

/// The truth value so many times, in one pass into a vector of its final size.
pub fn repeat_b(
    execution: &impl Execution,
    alloc: impl Source<bool>,
    meter: &mut Meter,
    item: bool,
    count: usize,
) -> Result<Vec<bool>, OutOfMemory>
    ensures repeat { IfOk result (λ v. v.items ≡ replicate count item) }
    ensures exact { IfOk result (λ v. IsExact v) }
    ensures counted { CountsRun result meter.old meter.new }
{
    let made = match fill_size(execution, &alloc, meter, count) {
        Some(size) => {
            let row = BoolRow::Repeated(Repeated { item, count });
            bools_by_chunks(execution, alloc, row, size)?
        }
        None => repeated(alloc, item, count)?,
    };
    meter.raise();
    Ok(made)
}

#[inline(always)]
pub(crate) fn repeated<T: Copy + Send + Sync>(
    alloc: impl Source<T>,
    item: T,
    count: usize,
) -> Result<Vec<T>, AllocError>
    ensures items { IfOk result (λ v. v.items ≡ replicate count item) }
    ensures exact { IfOk result (λ v. IsExact v) }
{
    let mut made = alloc.vector(count)?;
    repeat(item, count, &mut made);
    Ok(made)
}

/// So many integers from the start on by the stride, which wrap, in one pass into a vector of its final size.
pub fn index_whole(
    execution: &impl Execution,
    alloc: impl Source<i64>,
    meter: &mut Meter,
    start: i64,
    stride: i64,
    count: usize,
) -> Result<Vec<i64>, OutOfMemory>
    requires { count ≤ most }
    ensures index { IfOk result (λ v. v.items ≡ indexed start stride count) }
    ensures exact { IfOk result (λ v. IsExact v) }
    ensures counted { CountsRun result meter.old meter.new }
{
    let made = match fill_size(execution, &alloc, meter, count) {
        Some(size) => {
            let row = IntRow::Rising(Rising {
                start,
                stride,
                count,
            });
            ints_by_chunks(execution, alloc, row, size)?
        }
        None => rising(alloc, start, stride, count)?,
    };
    meter.raise();
    Ok(made)
}

#[inline(never)]
pub(crate) fn rising(
    alloc: impl Source<i64>,
    start: i64,
    stride: i64,
    count: usize,
) -> Result<Vec<i64>, AllocError>
    requires { count ≤ most }
    ensures items { IfOk result (λ v. v.items ≡ indexed start stride count) }
    ensures exact { IfOk result (λ v. IsExact v) }
{
    let mut made = alloc.vector(count)?;
    index_segment(start, stride, count, &mut made);
    Ok(made)
}
