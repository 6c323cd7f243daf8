//! Items kept by a flag, and how many each segment keeps. Want of memory leaves the meter as it was.

ghost use Rattle.std.specs.Prelude.{◌≡◌, length, sum, IfOk};
ghost use Rattle.segment_desc.specs.Appended.{IsExact};
ghost use Rattle.scan_kernels.specs.Metering.{CountsRun};
ghost use Rattle.scan_kernels.specs.Packed.{numbers_set, packed};

use scan_kernels::{
    Execution, IntRow, Meter, PACK_BLOCK, SetNumbers, Source, ints_by_chunks, pack_size, packed,
    packed_bools_by_chunks, packed_ints_by_chunks, segments_size, set_numbers,
};
use segment_desc::{OutOfMemory, Segd};
use std::alloc::AllocError;

/// The integers whose flag is set, in order. There are as many flags as integers. A pass that counts the flags, and one
/// into a vector of the final size.
pub fn pack_z(
    execution: &impl Execution,
    alloc: impl Source<i64>,
    meter: &mut Meter,
    items: &[i64],
    flags: &[bool],
) -> Result<Vec<i64>, OutOfMemory>
    requires { length flags.now ≡ length items.now }
    ensures pack { IfOk result (λ v. v.items ≡ packed flags.now items.now) }
    ensures exact { IfOk result (λ v. IsExact v) }
    ensures counted { CountsRun result meter.old meter.new }
{
    let made = match pack_size(execution, meter, items.len()) {
        Some(size) => packed_ints_by_chunks(execution, alloc, items, flags, size)?,
        None => packed_ints(alloc, items, flags)?,
    };
    meter.raise();
    Ok(made)
}

/// The same for truth values.
pub fn pack_b(
    execution: &impl Execution,
    alloc: impl Source<bool>,
    meter: &mut Meter,
    truths: &[bool],
    flags: &[bool],
) -> Result<Vec<bool>, OutOfMemory>
    requires { length flags.now ≡ length truths.now }
    ensures pack { IfOk result (λ v. v.items ≡ packed flags.now truths.now) }
    ensures exact { IfOk result (λ v. IsExact v) }
    ensures counted { CountsRun result meter.old meter.new }
{
    let made = match pack_size(execution, meter, truths.len()) {
        Some(size) => packed_bools_by_chunks(execution, alloc, truths, flags, size)?,
        None => packed_bools(alloc, truths, flags)?,
    };
    meter.raise();
    Ok(made)
}

// Apart from what goes by chunks, so that the loop is built alike for each policy, over a buffer of a known size.
#[inline(never)]
fn packed_ints(
    alloc: impl Source<i64>,
    items: &[i64],
    flags: &[bool],
) -> Result<Vec<i64>, AllocError>
    requires { length flags.now ≡ length items.now }
    ensures items { IfOk result (λ v. v.items ≡ packed flags.now items.now) }
    ensures exact { IfOk result (λ v. IsExact v) }
{
    packed(alloc, items, flags, &mut [0; PACK_BLOCK])
}

#[inline(never)]
fn packed_bools(
    alloc: impl Source<bool>,
    truths: &[bool],
    flags: &[bool],
) -> Result<Vec<bool>, AllocError>
    requires { length flags.now ≡ length truths.now }
    ensures items { IfOk result (λ v. v.items ≡ packed flags.now truths.now) }
    ensures exact { IfOk result (λ v. IsExact v) }
{
    packed(alloc, truths, flags, &mut [false; PACK_BLOCK])
}

/// How many flags are set in each segment, in one pass. The segments have all the flags together.
pub fn packed_lengths(
    execution: &impl Execution,
    alloc: impl Source<i64>,
    meter: &mut Meter,
    flags: &[bool],
    segments: &Segd,
) -> Result<Vec<i64>, OutOfMemory>
    requires { sum segments.now ≡ length flags.now }
    ensures lengths { IfOk result (λ v. v.items ≡ numbers_set segments.now flags.now) }
    ensures exact { IfOk result (λ v. IsExact v) }
    ensures counted { CountsRun result meter.old meter.new }
{
    let lengths = segments.lengths();
    let made = match segments_size(execution, meter, lengths.len(), flags.len()) {
        Some(size) => {
            let row = IntRow::SetNumbers(SetNumbers { flags, lengths });
            ints_by_chunks(execution, alloc, row, size)?
        }
        None => set_numbers(alloc, flags, lengths)?,
    };
    meter.raise();
    Ok(made)
}
