//! Each value as often as its segment is long.

ghost use Rattle.std.specs.Prelude.{◌≡◌, ◌+◌, ◌≤◌, length, sum, vec_len, vec_capacity, IfOk};
ghost use Rattle.segment_desc.specs.Appended.{Appends, IsExact};
ghost use Rattle.scan_kernels.specs.Distributed.{distributed};
ghost use Rattle.scan_kernels.specs.Metering.{CountsRun};

use crate::chunks::{bools_by_chunks, ints_by_chunks, segmented_size};
use crate::execution::Execution;
use crate::fill::repeat;
use crate::fills_by_segments::Distributed;
use crate::meter::Meter;
use crate::rows::{BoolRow, IntRow};
use crate::singles::{BLOCK, are_single};
use crate::source::Source;
use segment_desc::{OutOfMemory, Segd, append_reserved};
use std::alloc::AllocError;

/// Integer j as often as segment j is long, in one pass into a vector of its final size. There are as many integers as
/// segments.
pub fn distribute_z(
    execution: &impl Execution,
    alloc: impl Source<i64>,
    meter: &mut Meter,
    values: &[i64],
    segments: &Segd,
) -> Result<Vec<i64>, OutOfMemory>
    requires { length segments.now ≡ length values.now }
    ensures distribute { IfOk result (λ v. v.items ≡ distributed segments.now values.now) }
    ensures exact { IfOk result (λ v. IsExact v) }
    ensures counted { CountsRun result meter.old meter.new }
{
    let (lengths, total) = (segments.lengths(), segments.total());
    let made = match segmented_size(execution, &alloc, meter, total) {
        Some(size) => {
            let row = IntRow::Distributed(Distributed {
                values,
                lengths,
                total,
            });
            ints_by_chunks(execution, alloc, row, size)?
        }
        None => distribute(alloc, values, lengths, total)?,
    };
    meter.raise();
    Ok(made)
}

/// Truth value j as often as segment j is long, in one pass into a vector of its final size. There are as many truth
/// values as segments.
pub fn distribute_b(
    execution: &impl Execution,
    alloc: impl Source<bool>,
    meter: &mut Meter,
    flags: &[bool],
    segments: &Segd,
) -> Result<Vec<bool>, OutOfMemory>
    requires { length segments.now ≡ length flags.now }
    ensures distribute { IfOk result (λ v. v.items ≡ distributed segments.now flags.now) }
    ensures exact { IfOk result (λ v. IsExact v) }
    ensures counted { CountsRun result meter.old meter.new }
{
    let (lengths, total) = (segments.lengths(), segments.total());
    let made = match segmented_size(execution, &alloc, meter, total) {
        Some(size) => {
            let row = BoolRow::Distributed(Distributed {
                values: flags,
                lengths,
                total,
            });
            bools_by_chunks(execution, alloc, row, size)?
        }
        None => distribute(alloc, flags, lengths, total)?,
    };
    meter.raise();
    Ok(made)
}

pub(crate) fn distribute<T: Copy + Send + Sync>(
    alloc: impl Source<T>,
    values: &[T],
    lengths: &[usize],
    total: usize,
) -> Result<Vec<T>, AllocError>
    requires count { length lengths.now ≡ length values.now }
    requires total { total ≡ sum lengths.now }
    ensures items { IfOk result (λ v. v.items ≡ distributed lengths.now values.now) }
    ensures exact { IfOk result (λ v. IsExact v) }
{
    let mut made = alloc.vector(total)?;
    let mut rest = values;
    for block in lengths.chunks(BLOCK) {
        let (block_values, behind) = rest.split_at(block.len());
        distribute_block(block_values, block, &mut made);
        rest = behind;
    }
    Ok(made)
}

#[inline(always)]
fn distribute_block<T: Copy + Send + Sync>(values: &[T], lengths: &[usize], made: &mut Vec<T>)
    requires count { length lengths.now ≡ length values.now }
    requires room { vec_len made.old + sum lengths.now ≤ vec_capacity made.old }
    ensures { Appends made.old made.new (distributed lengths.now values.now) }
{
    if are_single(lengths) {
        append_reserved(values, made);
    } else {
        distribute_each(values, lengths, made);
    }
}

#[inline(always)]
fn distribute_each<T: Copy + Send + Sync>(values: &[T], lengths: &[usize], made: &mut Vec<T>)
    requires count { length lengths.now ≡ length values.now }
    requires room { vec_len made.old + sum lengths.now ≤ vec_capacity made.old }
    ensures { Appends made.old made.new (distributed lengths.now values.now) }
{
    for j in 0..lengths.len() {
        repeat(values[j], lengths[j], made);
    }
}
