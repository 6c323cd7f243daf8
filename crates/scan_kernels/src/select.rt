//! The choice between two vectors item by item. Want of memory leaves the meter as it was.

ghost use Rattle.std.specs.Prelude.{◌≡◌, length, if◌then◌else◌, IfOk};
ghost use Rattle.segment_desc.specs.Appended.{IsExact};
ghost use Rattle.scan_kernels.specs.Elementwise.{selected};
ghost use Rattle.scan_kernels.specs.Metering.{CountsRun};

use crate::chunks::{bools_by_chunks, ints_by_chunks, write_size};
use crate::execution::Execution;
use crate::lists::Selected;
use crate::meter::Meter;
use crate::placewise::collected;
use crate::rows::{BoolRow, IntRow};
use crate::source::Source;
use segment_desc::OutOfMemory;
use std::alloc::AllocError;

/// At each place the integer of the first vector where the flag is set, else that of the second. All three have one
/// length. One pass into a vector of its final size.
pub fn select_z(
    execution: &impl Execution,
    alloc: impl Source<i64>,
    meter: &mut Meter,
    flags: &[bool],
    a: &[i64],
    b: &[i64],
) -> Result<Vec<i64>, OutOfMemory>
    requires first { length flags.now ≡ length a.now }
    requires second { length flags.now ≡ length b.now }
    ensures selected { IfOk result (λ v. v.items ≡ selected flags.now a.now b.now) }
    ensures exact { IfOk result (λ v. IsExact v) }
    ensures counted { CountsRun result meter.old meter.new }
{
    let made = match write_size(execution, &alloc, meter, flags.len()) {
        Some(size) => {
            let row = IntRow::Selected(Selected {
                flags,
                set: a,
                unset: b,
            });
            ints_by_chunks(execution, alloc, row, size)?
        }
        None => chosen(alloc, flags, a, b)?,
    };
    meter.raise();
    Ok(made)
}

/// At each place the truth value of the first vector where the flag is set, else that of the second. All three have one
/// length. One pass into a vector of its final size.
pub fn select_b(
    execution: &impl Execution,
    alloc: impl Source<bool>,
    meter: &mut Meter,
    flags: &[bool],
    a: &[bool],
    b: &[bool],
) -> Result<Vec<bool>, OutOfMemory>
    requires first { length flags.now ≡ length a.now }
    requires second { length flags.now ≡ length b.now }
    ensures selected { IfOk result (λ v. v.items ≡ selected flags.now a.now b.now) }
    ensures exact { IfOk result (λ v. IsExact v) }
    ensures counted { CountsRun result meter.old meter.new }
{
    let made = match write_size(execution, &alloc, meter, flags.len()) {
        Some(size) => {
            let row = BoolRow::Selected(Selected {
                flags,
                set: a,
                unset: b,
            });
            bools_by_chunks(execution, alloc, row, size)?
        }
        None => chosen(alloc, flags, a, b)?,
    };
    meter.raise();
    Ok(made)
}

pub(crate) fn chosen<T: Copy + Send + Sync>(
    alloc: impl Source<T>,
    flags: &[bool],
    a: &[T],
    b: &[T],
) -> Result<Vec<T>, AllocError>
    requires first { length flags.now ≡ length a.now }
    requires second { length flags.now ≡ length b.now }
    ensures items { IfOk result (λ v. v.items ≡ selected flags.now a.now b.now) }
    ensures exact { IfOk result (λ v. IsExact v) }
{
    let list = Selected {
        flags,
        set: a,
        unset: b,
    };
    collected(alloc, &list)
}
