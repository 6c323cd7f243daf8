//! Items read from the places that an index holds, all of one list. Want of memory leaves the meter as it was.

ghost use Rattle.std.specs.Prelude.{◌≡◌, ◌+◌, ◌≤◌, length, vec_len, vec_capacity, All, IfOk};
ghost use Rattle.segment_desc.specs.Appended.{Appends, IsExact};
ghost use Rattle.scan_kernels.specs.Metering.{CountsRun};
ghost use Rattle.scan_kernels.specs.Indices.{IsPlaceOf};
ghost use Rattle.scan_kernels.specs.Gathered.{gathered};

use scan_kernels::{
    BoolRow, Execution, Gathered, IntRow, Meter, Source, bools_by_chunks, gather_size,
    ints_by_pieces, place_of,
};
use segment_desc::OutOfMemory;
use std::alloc::AllocError;

/// For each index in order the integer at its place, in one pass into a vector of its final size. Each index is a place of
/// the integers, as `are_places` tells.
pub fn gather_z(
    execution: &impl Execution,
    alloc: impl Source<i64>,
    meter: &mut Meter,
    items: &[i64],
    index: &[i64],
) -> Result<Vec<i64>, OutOfMemory>
    requires { All (IsPlaceOf (length items.now)) index.now }
    ensures gather { IfOk result (λ v. v.items ≡ gathered index.now items.now) }
    ensures exact { IfOk result (λ v. IsExact v) }
    ensures counted { CountsRun result meter.old meter.new }
{
    let made = match gather_size(execution, meter, index.len()) {
        Some(size) => {
            let row = IntRow::Gathered(Gathered { items, index });
            ints_by_pieces(execution, alloc, row, size)?
        }
        None => gathered(alloc, items, index)?,
    };
    meter.raise();
    Ok(made)
}

/// The same for truth values.
pub fn gather_b(
    execution: &impl Execution,
    alloc: impl Source<bool>,
    meter: &mut Meter,
    flags: &[bool],
    index: &[i64],
) -> Result<Vec<bool>, OutOfMemory>
    requires { All (IsPlaceOf (length flags.now)) index.now }
    ensures gather { IfOk result (λ v. v.items ≡ gathered index.now flags.now) }
    ensures exact { IfOk result (λ v. IsExact v) }
    ensures counted { CountsRun result meter.old meter.new }
{
    let made = match gather_size(execution, meter, index.len()) {
        Some(size) => {
            let row = BoolRow::Gathered(Gathered {
                items: flags,
                index,
            });
            bools_by_chunks(execution, alloc, row, size)?
        }
        None => gathered(alloc, flags, index)?,
    };
    meter.raise();
    Ok(made)
}

#[inline(never)]
pub(crate) fn gathered<T: Copy + Send + Sync>(
    alloc: impl Source<T>,
    items: &[T],
    index: &[i64],
) -> Result<Vec<T>, AllocError>
    requires { All (IsPlaceOf (length items.now)) index.now }
    ensures items { IfOk result (λ v. v.items ≡ gathered index.now items.now) }
    ensures exact { IfOk result (λ v. IsExact v) }
{
    let mut made = alloc.vector(index.len())?;
    gather(items, index, &mut made);
    Ok(made)
}

/// Puts the item at the place of each index behind the others, in order.
#[inline(always)]
pub fn gather<T: Copy + Send + Sync>(items: &[T], index: &[i64], made: &mut Vec<T>)
    requires within { All (IsPlaceOf (length items.now)) index.now }
    requires room { vec_len made.old + length index.now ≤ vec_capacity made.old }
    ensures { Appends made.old made.new (gathered index.now items.now) }
{
    for &held in index {
        made.push_reserved(items[place_of(held)]);
    }
}
