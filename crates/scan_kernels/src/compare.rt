//! A comparison item by item. Want of memory leaves the meter as it was.

ghost use Rattle.std.specs.Prelude.{◌≡◌, length, IfOk};
ghost use Rattle.segment_desc.specs.Appended.{IsExact};
ghost use Rattle.item_operations.specs.IntegerOps.{compares};
ghost use Rattle.scan_kernels.specs.Elementwise.{item_by_item};
ghost use Rattle.scan_kernels.specs.Metering.{CountsRun};

use crate::choices::{by_comparison, by_name};
use crate::chunks::{bools_by_chunks, write_size};
use crate::execution::Execution;
use crate::lists::Compared;
use crate::meter::Meter;
use crate::placewise::collected;
use crate::rows::BoolRow;
use crate::source::Source;
use item_operations::Cmp;
use segment_desc::OutOfMemory;
use std::alloc::AllocError;

/// Whether the comparison holds of the two integers at each place of two vectors of one length, in one pass into a vector
/// of its final size.
pub fn compare2(
    execution: &impl Execution,
    alloc: impl Source<bool>,
    meter: &mut Meter,
    op: Cmp,
    a: &[i64],
    b: &[i64],
) -> Result<Vec<bool>, OutOfMemory>
    requires { length a.now ≡ length b.now }
    ensures map { IfOk result (λ v. v.items ≡ item_by_item (compares op) a.now b.now) }
    ensures exact { IfOk result (λ v. IsExact v) }
    ensures counted { CountsRun result meter.old meter.new }
{
    let made = match write_size(execution, &alloc, meter, a.len()) {
        Some(size) => {
            let row = BoolRow::Compared(Compared {
                op,
                left: a,
                right: b,
            });
            bools_by_chunks(execution, alloc, row, size)?
        }
        None => by_comparison!(op, compared(alloc, op, a, b)?),
    };
    meter.raise();
    Ok(made)
}

// Inlined, so that the loop is built for each comparison that a caller names.
#[inline(always)]
pub(crate) fn compared(
    alloc: impl Source<bool>,
    op: Cmp,
    a: &[i64],
    b: &[i64],
) -> Result<Vec<bool>, AllocError>
    requires { length a.now ≡ length b.now }
    ensures items { IfOk result (λ v. v.items ≡ item_by_item (compares op) a.now b.now) }
    ensures exact { IfOk result (λ v. IsExact v) }
{
    let list = Compared {
        op,
        left: a,
        right: b,
    };
    collected(alloc, &list)
}
