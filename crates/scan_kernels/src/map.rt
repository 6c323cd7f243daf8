//! An operation item by item, on one vector or on two. Want of memory leaves the meter as it was.

ghost use Rattle.std.specs.Prelude.{◌≡◌, length, map, All, IfOk};
ghost use Rattle.segment_desc.specs.Appended.{IsExact};
ghost use Rattle.item_operations.specs.IntegerOps.{IsAllowed, alter_z, apply_z};
ghost use Rattle.item_operations.specs.BooleanOps.{alter_b, apply_b};
ghost use Rattle.scan_kernels.specs.Elementwise.{item_by_item};
ghost use Rattle.scan_kernels.specs.Metering.{CountsRun};

use crate::choices::{by_b1, by_b2, by_name, by_z1, by_z2};
use crate::chunks::{bools_by_chunks, ints_by_chunks, write_size};
use crate::execution::Execution;
use crate::lists::{AlteredBools, AlteredInts, AppliedBools, AppliedInts};
use crate::meter::Meter;
use crate::placewise::collected;
use crate::rows::{BoolRow, IntRow};
use crate::source::Source;
use item_operations::{B1, B2, Z1, Z2};
use segment_desc::OutOfMemory;
use std::alloc::AllocError;

/// The operation on each integer, in one pass into a vector of its final size.
pub fn map1_z(
    execution: &impl Execution,
    alloc: impl Source<i64>,
    meter: &mut Meter,
    op: Z1,
    a: &[i64],
) -> Result<Vec<i64>, OutOfMemory>
    ensures map { IfOk result (λ v. v.items ≡ map (alter_z op) a.now) }
    ensures exact { IfOk result (λ v. IsExact v) }
    ensures counted { CountsRun result meter.old meter.new }
{
    let made = match write_size(execution, &alloc, meter, a.len()) {
        Some(size) => {
            let row = IntRow::Altered(AlteredInts { op, items: a });
            ints_by_chunks(execution, alloc, row, size)?
        }
        None => by_z1!(op, altered_z(alloc, op, a)?),
    };
    meter.raise();
    Ok(made)
}

#[inline(always)]
pub(crate) fn altered_z(alloc: impl Source<i64>, op: Z1, a: &[i64]) -> Result<Vec<i64>, AllocError>
    ensures items { IfOk result (λ v. v.items ≡ map (alter_z op) a.now) }
    ensures exact { IfOk result (λ v. IsExact v) }
{
    collected(alloc, &AlteredInts { op, items: a })
}

/// The operation on each truth value, in one pass into a vector of its final size.
pub fn map1_b(
    execution: &impl Execution,
    alloc: impl Source<bool>,
    meter: &mut Meter,
    op: B1,
    a: &[bool],
) -> Result<Vec<bool>, OutOfMemory>
    ensures map { IfOk result (λ v. v.items ≡ map (alter_b op) a.now) }
    ensures exact { IfOk result (λ v. IsExact v) }
    ensures counted { CountsRun result meter.old meter.new }
{
    let made = match write_size(execution, &alloc, meter, a.len()) {
        Some(size) => {
            let row = BoolRow::Altered(AlteredBools { op, items: a });
            bools_by_chunks(execution, alloc, row, size)?
        }
        None => by_b1!(op, altered_b(alloc, op, a)?),
    };
    meter.raise();
    Ok(made)
}

#[inline(always)]
pub(crate) fn altered_b(
    alloc: impl Source<bool>,
    op: B1,
    a: &[bool],
) -> Result<Vec<bool>, AllocError>
    ensures items { IfOk result (λ v. v.items ≡ map (alter_b op) a.now) }
    ensures exact { IfOk result (λ v. IsExact v) }
{
    collected(alloc, &AlteredBools { op, items: a })
}

/// The operation on the two integers at each place of two vectors of one length, in one pass into a vector of its final
/// size. `Div` and `Mod` ask for `divisors_ok` of the second vector, `Lsh` and `Rsh` for `shifts_ok`.
pub fn map2_z(
    execution: &impl Execution,
    alloc: impl Source<i64>,
    meter: &mut Meter,
    op: Z2,
    a: &[i64],
    b: &[i64],
) -> Result<Vec<i64>, OutOfMemory>
    requires same_length { length a.now ≡ length b.now }
    requires allowed { All (IsAllowed op) b.now }
    ensures map { IfOk result (λ v. v.items ≡ item_by_item (apply_z op) a.now b.now) }
    ensures exact { IfOk result (λ v. IsExact v) }
    ensures counted { CountsRun result meter.old meter.new }
{
    let made = match write_size(execution, &alloc, meter, a.len()) {
        Some(size) => {
            let row = IntRow::Applied(AppliedInts {
                op,
                left: a,
                right: b,
            });
            ints_by_chunks(execution, alloc, row, size)?
        }
        None => chosen_z(alloc, op, a, b)?,
    };
    meter.raise();
    Ok(made)
}

fn chosen_z(alloc: impl Source<i64>, op: Z2, a: &[i64], b: &[i64]) -> Result<Vec<i64>, AllocError>
    requires same_length { length a.now ≡ length b.now }
    requires allowed { All (IsAllowed op) b.now }
    ensures items { IfOk result (λ v. v.items ≡ item_by_item (apply_z op) a.now b.now) }
    ensures exact { IfOk result (λ v. IsExact v) }
{
    by_z2!(op, applied_z(alloc, op, a, b))
}

#[inline(always)]
pub(crate) fn applied_z(
    alloc: impl Source<i64>,
    op: Z2,
    a: &[i64],
    b: &[i64],
) -> Result<Vec<i64>, AllocError>
    requires same_length { length a.now ≡ length b.now }
    requires allowed { All (IsAllowed op) b.now }
    ensures items { IfOk result (λ v. v.items ≡ item_by_item (apply_z op) a.now b.now) }
    ensures exact { IfOk result (λ v. IsExact v) }
{
    let list = AppliedInts {
        op,
        left: a,
        right: b,
    };
    collected(alloc, &list)
}

/// The operation on the two truth values at each place of two vectors of one length, in one pass into a vector of its
/// final size.
pub fn map2_b(
    execution: &impl Execution,
    alloc: impl Source<bool>,
    meter: &mut Meter,
    op: B2,
    a: &[bool],
    b: &[bool],
) -> Result<Vec<bool>, OutOfMemory>
    requires { length a.now ≡ length b.now }
    ensures map { IfOk result (λ v. v.items ≡ item_by_item (apply_b op) a.now b.now) }
    ensures exact { IfOk result (λ v. IsExact v) }
    ensures counted { CountsRun result meter.old meter.new }
{
    let made = match write_size(execution, &alloc, meter, a.len()) {
        Some(size) => {
            let row = BoolRow::Applied(AppliedBools {
                op,
                left: a,
                right: b,
            });
            bools_by_chunks(execution, alloc, row, size)?
        }
        None => by_b2!(op, applied_b(alloc, op, a, b)?),
    };
    meter.raise();
    Ok(made)
}

#[inline(always)]
pub(crate) fn applied_b(
    alloc: impl Source<bool>,
    op: B2,
    a: &[bool],
    b: &[bool],
) -> Result<Vec<bool>, AllocError>
    requires { length a.now ≡ length b.now }
    ensures items { IfOk result (λ v. v.items ≡ item_by_item (apply_b op) a.now b.now) }
    ensures exact { IfOk result (λ v. IsExact v) }
{
    let list = AppliedBools {
        op,
        left: a,
        right: b,
    };
    collected(alloc, &list)
}
