//! Integers as truth values, and truth values as integers. Want of memory leaves the meter as it was.

ghost use Rattle.std.specs.Prelude.{◌≡◌, map, IfOk};
ghost use Rattle.segment_desc.specs.Appended.{IsExact};
ghost use Rattle.scan_kernels.specs.Elementwise.{as_number, is_true};
ghost use Rattle.scan_kernels.specs.Metering.{CountsRun};

use crate::chunks::{bools_by_chunks, ints_by_chunks, write_size};
use crate::execution::Execution;
use crate::lists::{Numbers, Truths};
use crate::meter::Meter;
use crate::placewise::collected;
use crate::rows::{BoolRow, IntRow};
use crate::source::Source;
use segment_desc::OutOfMemory;
use std::alloc::AllocError;

/// True for each integer that is not 0, in one pass into a vector of its final size.
pub fn truth(
    execution: &impl Execution,
    alloc: impl Source<bool>,
    meter: &mut Meter,
    a: &[i64],
) -> Result<Vec<bool>, OutOfMemory>
    ensures map { IfOk result (λ v. v.items ≡ map is_true a.now) }
    ensures exact { IfOk result (λ v. IsExact v) }
    ensures counted { CountsRun result meter.old meter.new }
{
    let made = match write_size(execution, &alloc, meter, a.len()) {
        Some(size) => {
            let row = BoolRow::Truths(Truths { items: a });
            bools_by_chunks(execution, alloc, row, size)?
        }
        None => truths(alloc, a)?,
    };
    meter.raise();
    Ok(made)
}

pub(crate) fn truths(alloc: impl Source<bool>, a: &[i64]) -> Result<Vec<bool>, AllocError>
    ensures items { IfOk result (λ v. v.items ≡ map is_true a.now) }
    ensures exact { IfOk result (λ v. IsExact v) }
{
    collected(alloc, &Truths { items: a })
}

/// 1 for each truth value that is true and 0 for the others, in one pass into a vector of its final size.
pub fn number(
    execution: &impl Execution,
    alloc: impl Source<i64>,
    meter: &mut Meter,
    a: &[bool],
) -> Result<Vec<i64>, OutOfMemory>
    ensures map { IfOk result (λ v. v.items ≡ map as_number a.now) }
    ensures exact { IfOk result (λ v. IsExact v) }
    ensures counted { CountsRun result meter.old meter.new }
{
    let made = match write_size(execution, &alloc, meter, a.len()) {
        Some(size) => {
            let row = IntRow::Numbers(Numbers { items: a });
            ints_by_chunks(execution, alloc, row, size)?
        }
        None => numbers(alloc, a)?,
    };
    meter.raise();
    Ok(made)
}

pub(crate) fn numbers(alloc: impl Source<i64>, a: &[bool]) -> Result<Vec<i64>, AllocError>
    ensures items { IfOk result (λ v. v.items ≡ map as_number a.now) }
    ensures exact { IfOk result (λ v. IsExact v) }
{
    collected(alloc, &Numbers { items: a })
}
