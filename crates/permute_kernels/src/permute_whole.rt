//! Items moved to the places that an index holds, all of one segment, without a list of it. Want of memory leaves the meter as
//! it was.

ghost use Rattle.std.specs.Prelude.{◌≡◌, length, IfOk};
ghost use Rattle.segment_desc.specs.Appended.{IsExact};
ghost use Rattle.scan_kernels.specs.Metering.{CountsRun};
ghost use Rattle.scan_kernels.specs.Indices.{HoldsEachPlaceOnce};
ghost use Rattle.scan_kernels.specs.Permuted.{IsPermuted, permuted};

use crate::permute::scatter;
use scan_kernels::{
    BoolRow, Execution, IntRow, Meter, Permuted, Source, bools_by_chunks, ints_by_chunks,
    permute_size,
};
use segment_desc::{OutOfMemory, append_reserved};
use std::alloc::AllocError;

/// The integer at place i goes to the place that the index holds at i. There are as many indices as integers, and the index
/// holds each of its places once, as `is_whole_permutation` tells. A copy, and one pass that writes over it.
pub fn permute_whole_z(
    execution: &impl Execution,
    alloc: impl Source<i64>,
    meter: &mut Meter,
    items: &[i64],
    index: &[i64],
) -> Result<Vec<i64>, OutOfMemory>
    requires same_length { length index.now ≡ length items.now }
    requires each_once { HoldsEachPlaceOnce index.now }
    ensures permute { IfOk result (λ v. v.items ≡ permuted index.now items.now) }
    ensures places { IfOk result (λ v. IsPermuted index.now items.now v.items) }
    ensures exact { IfOk result (λ v. IsExact v) }
    ensures counted { CountsRun result meter.old meter.new }
{
    let made = match permute_size(execution, meter, index.len()) {
        Some(size) => {
            let row = IntRow::Permuted(Permuted { items, index });
            ints_by_chunks(execution, alloc, row, size)?
        }
        None => permuted_whole(alloc, items, index)?,
    };
    meter.raise();
    Ok(made)
}

/// The same for truth values.
pub fn permute_whole_b(
    execution: &impl Execution,
    alloc: impl Source<bool>,
    meter: &mut Meter,
    flags: &[bool],
    index: &[i64],
) -> Result<Vec<bool>, OutOfMemory>
    requires same_length { length index.now ≡ length flags.now }
    requires each_once { HoldsEachPlaceOnce index.now }
    ensures permute { IfOk result (λ v. v.items ≡ permuted index.now flags.now) }
    ensures places { IfOk result (λ v. IsPermuted index.now flags.now v.items) }
    ensures exact { IfOk result (λ v. IsExact v) }
    ensures counted { CountsRun result meter.old meter.new }
{
    let made = match permute_size(execution, meter, index.len()) {
        Some(size) => {
            let row = BoolRow::Permuted(Permuted {
                items: flags,
                index,
            });
            bools_by_chunks(execution, alloc, row, size)?
        }
        None => permuted_whole(alloc, flags, index)?,
    };
    meter.raise();
    Ok(made)
}

pub(crate) fn permuted_whole<T: Copy + Send + Sync>(
    alloc: impl Source<T>,
    items: &[T],
    index: &[i64],
) -> Result<Vec<T>, AllocError>
    requires same_length { length index.now ≡ length items.now }
    requires each_once { HoldsEachPlaceOnce index.now }
    ensures permute { IfOk result (λ v. v.items ≡ permuted index.now items.now) }
    ensures places { IfOk result (λ v. IsPermuted index.now items.now v.items) }
    ensures exact { IfOk result (λ v. IsExact v) }
{
    let mut made = alloc.vector(items.len())?;
    append_reserved(items, &mut made);
    scatter(items, index, made.as_mut_slice());
    Ok(made)
}
