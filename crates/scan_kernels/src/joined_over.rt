//! A joined run whose results are written over vectors of as many items, which takes no memory for them.

ghost use Rattle.std.specs.Prelude.{◌≡◌, length, map, All, IsTrue, OnErr, OnOk};
ghost use Rattle.segment_desc.specs.Appended.{IsExact};
ghost use Rattle.scan_kernels.specs.Lists.{FitInts, ints_of};
ghost use Rattle.scan_kernels.specs.Metering.{CountsRun};
ghost use Rattle.scan_kernels.specs.Parts.{parts_made};
ghost use Rattle.scan_kernels.specs.RowLists.{AreAsLong};

use crate::chunks::{WRITES_PAY, joined_size};
use crate::execution::Execution;
use crate::joined_rows::{IntKernel, int_rows, total};
use crate::meter::Meter;
use crate::rows::{IntRow, count_ints};
use segment_desc::OutOfMemory;
use std::alloc::Global;

/// Whether each row has as many integers as the vector at its place.
fn are_as_long(rows: &[IntRow<'_>], lists: &[Vec<i64>]) -> bool
    requires { All FitInts rows.now }
    ensures long { IsTrue result → AreAsLong ints_of rows.now 0 lists.now }
    ensures count { IsTrue result → length lists.now ≡ length rows.now }
{
    if lists.len() != rows.len() {
        return false;
    }
    for place in 0..lists.len() {
        if lists[place].len() != count_ints(rows[place]) {
            return false;
        }
    }
    true
}

/// Writes the integers of each row over the vector at its place, by chunks of rows where that pays.
fn write_over(
    execution: &impl Execution,
    meter: &Meter,
    rows: &[IntRow<'_>],
    lists: &mut Vec<Vec<i64>>,
)
    requires fits { All FitInts rows.now }
    requires long { AreAsLong ints_of rows.now 0 lists.old.items }
    requires count { length lists.old.items ≡ length rows.now }
    ensures items { parts_made lists.new.items ≡ map ints_of rows.now }
    ensures long { map (λ v. length v.items) lists.new.items ≡ map (λ v. length v.items) lists.old.items }
    ensures exact { All IsExact lists.old.items → All IsExact lists.new.items }
{
    let total = total(rows);
    let chunks = joined_size(execution, meter, rows.len(), total, total >= WRITES_PAY);
    let size = chunks.unwrap_or(rows.len().max(1));
    execution.write_each_ints(rows, size, lists);
}

/// `run_joined` of a kernel of integers, whose results are written over vectors that have as many items already, in threads where that
/// pays: by chunks of whole parts. Where memory is wanted for what is noted of the parts, or a vector has another number of items than its
/// result, the vectors stay as they are.
pub fn run_joined_ints_over<'a, P, K: IntKernel<'a, P>>(
    execution: &impl Execution,
    alloc: Global,
    meter: &mut Meter,
    kernel: K,
    parts: &[P],
    lists: &mut Vec<Vec<i64>>,
) -> Result<(), OutOfMemory>
    requires { All (K.Takes kernel) parts.now }
    ensures parts { OnOk result (parts_made lists.new.items ≡ map (K.makes kernel) parts.now) }
    ensures long { OnOk result (map (λ v. length v.items) lists.new.items ≡ map (λ v. length v.items) lists.old.items) }
    ensures exact { All IsExact lists.old.items → All IsExact lists.new.items }
    ensures unchanged { OnErr result (lists.new ≡ lists.old) }
    ensures counted { CountsRun result meter.old meter.new }
{
    let Some(rows) = int_rows(alloc, kernel, parts) else {
        return Err(OutOfMemory);
    };
    if !are_as_long(&rows, lists) {
        return Err(OutOfMemory);
    }
    write_over(execution, meter, &rows, lists);
    meter.raise();
    Ok(())
}
