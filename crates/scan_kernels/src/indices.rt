//! Integers that rise by a stride from the start of each segment.

ghost use Rattle.std.specs.Prelude.{◌≡◌, ◌+◌, ◌≤◌, length, map, sum, vec_len, vec_capacity, IfOk};
ghost use Rattle.std.specs.List.{zip};
ghost use Rattle.segment_desc.specs.Lengths.{IsWithinLimits, most};
ghost use Rattle.segment_desc.specs.Appended.{Appends, IsExact};
ghost use Rattle.scan_kernels.specs.Indexed.{indexed, index_at, segmented_index};
ghost use Rattle.scan_kernels.specs.Metering.{CountsRun};

use crate::chunks::{ints_by_chunks, segmented_size};
use crate::execution::Execution;
use crate::fills_by_segments::RisingSegments;
use crate::meter::Meter;
use crate::rows::IntRow;
use crate::singles::{BLOCK, are_single};
use crate::source::Source;
use segment_desc::{OutOfMemory, Segd};
use std::alloc::AllocError;

/// In segment j the integers from start j on by stride j, which wrap, in one pass into a vector of its final size. There
/// are as many starts, and as many strides, as segments.
pub fn index(
    execution: &impl Execution,
    alloc: impl Source<i64>,
    meter: &mut Meter,
    starts: &[i64],
    strides: &[i64],
    segments: &Segd,
) -> Result<Vec<i64>, OutOfMemory>
    requires starts { length segments.now ≡ length starts.now }
    requires strides { length segments.now ≡ length strides.now }
    ensures index { IfOk result (λ v. v.items ≡ segmented_index segments.now starts.now strides.now) }
    ensures exact { IfOk result (λ v. IsExact v) }
    ensures counted { CountsRun result meter.old meter.new }
{
    let (lengths, total) = (segments.lengths(), segments.total());
    let made = match segmented_size(execution, &alloc, meter, total) {
        Some(size) => {
            let row = IntRow::RisingSegments(RisingSegments {
                starts,
                strides,
                lengths,
                total,
            });
            ints_by_chunks(execution, alloc, row, size)?
        }
        None => index_each(alloc, starts, strides, lengths, total)?,
    };
    meter.raise();
    Ok(made)
}

pub(crate) fn index_each(
    alloc: impl Source<i64>,
    starts: &[i64],
    strides: &[i64],
    lengths: &[usize],
    total: usize,
) -> Result<Vec<i64>, AllocError>
    requires starts { length lengths.now ≡ length starts.now }
    requires strides { length lengths.now ≡ length strides.now }
    requires total { total ≡ sum lengths.now }
    requires within { IsWithinLimits lengths.now }
    ensures items { IfOk result (λ v. v.items ≡ segmented_index lengths.now starts.now strides.now) }
    ensures exact { IfOk result (λ v. IsExact v) }
{
    let mut made = alloc.vector(total)?;
    let mut rest_starts = starts;
    let mut rest_strides = strides;
    for block in lengths.chunks(BLOCK) {
        let (block_starts, later_starts) = rest_starts.split_at(block.len());
        let (block_strides, later_strides) = rest_strides.split_at(block.len());
        index_block(block_starts, block_strides, block, &mut made);
        rest_starts = later_starts;
        rest_strides = later_strides;
    }
    Ok(made)
}

#[inline(always)]
fn index_block(starts: &[i64], strides: &[i64], lengths: &[usize], made: &mut Vec<i64>)
    requires starts { length lengths.now ≡ length starts.now }
    requires strides { length lengths.now ≡ length strides.now }
    requires room { vec_len made.old + sum lengths.now ≤ vec_capacity made.old }
    requires within { IsWithinLimits lengths.now }
    ensures { Appends made.old made.new (segmented_index lengths.now starts.now strides.now) }
{
    if are_single(lengths) {
        index_singles(starts, strides, made);
    } else {
        index_segments(starts, strides, lengths, made);
    }
}

#[inline(always)]
fn index_singles(starts: &[i64], strides: &[i64], made: &mut Vec<i64>)
    requires same_length { length starts.now ≡ length strides.now }
    requires room { vec_len made.old + length starts.now ≤ vec_capacity made.old }
    ensures { Appends made.old made.new (map (λ p. index_at p.0 p.1 0) (zip starts.now strides.now)) }
{
    for j in 0..starts.len() {
        made.push_reserved(index_at(starts[j], strides[j], 0));
    }
}

#[inline(always)]
fn index_segments(starts: &[i64], strides: &[i64], lengths: &[usize], made: &mut Vec<i64>)
    requires starts { length lengths.now ≡ length starts.now }
    requires strides { length lengths.now ≡ length strides.now }
    requires room { vec_len made.old + sum lengths.now ≤ vec_capacity made.old }
    requires within { IsWithinLimits lengths.now }
    ensures { Appends made.old made.new (segmented_index lengths.now starts.now strides.now) }
{
    for j in 0..lengths.len() {
        index_segment(starts[j], strides[j], lengths[j], made);
    }
}

#[inline(always)]
pub(crate) fn index_segment(start: i64, stride: i64, length: usize, made: &mut Vec<i64>)
    requires room { vec_len made.old + length ≤ vec_capacity made.old }
    requires within { length ≤ most }
    ensures { Appends made.old made.new (indexed start stride length) }
{
    for i in 0..length {
        made.push_reserved(index_at(start, stride, i));
    }
}

#[inline(always)]
#[tactic(auto, unfolding(crate::specs::Indexed::index_at))]
pub(crate) fn index_at(start: i64, stride: i64, place: usize) -> i64
    requires { place ≤ most }
    ensures { result ≡ index_at start stride place }
{
    start.wrapping_add((place as i64).wrapping_mul(stride))
}
