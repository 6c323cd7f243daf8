//! The reduction of each part, which is one segment.

ghost use Rattle.std.specs.Prelude.{◌≡◌, length, map, IfOk};
ghost use Rattle.std.specs.List.{flat_map};
ghost use Rattle.segment_desc.specs.Appended.{IsExact};
ghost use Rattle.item_operations.specs.BooleanScans.{combine_b, unit_b};
ghost use Rattle.item_operations.specs.IntegerScans.{combine_z, unit_z};
ghost use Rattle.scan_kernels.specs.Metering.{CountsRun};
ghost use Rattle.scan_kernels.specs.Segmented.{reduced, segmented_reduce};

use crate::choices::{by_name, by_scan_b, by_scan_z};
use crate::chunks::{bools_by_chunks, ints_by_chunks};
use crate::execution::Execution;
use crate::meter::Meter;
use crate::reduce::reduce_segment;
use crate::reduced_parts::ReducedParts;
use crate::reduction_sizes::parts_size;
use crate::rows::{BoolRow, IntRow};
use crate::source::Source;
use item_operations::{Combine, ScanB, ScanZ};
use segment_desc::OutOfMemory;
use std::alloc::AllocError;

/// What the operation makes of each part of integers, which is one segment: one run, which gives an item for each
/// part. The result may lie in a vector that was kept.
pub fn reduce_whole_z_joined(
    execution: &impl Execution,
    source: impl Source<i64>,
    meter: &mut Meter,
    op: ScanZ,
    parts: &[&[i64]],
) -> Result<Vec<i64>, OutOfMemory>
    ensures parts { IfOk result (λ made. made.items ≡ map (λ p. reduced (combine_z op) (unit_z op) p.now) parts.now) }
    ensures joined { IfOk result (λ made. made.items ≡ segmented_reduce (combine_z op) (unit_z op) (map (λ p. length p.now) parts.now) (flat_map (λ p. p.now) parts.now)) }
    ensures exact { IfOk result (λ made. IsExact made) }
    ensures counted { CountsRun result meter.old meter.new }
{
    let made = reduced_parts_z(execution, source, meter, op, parts)?;
    meter.raise();
    Ok(made)
}

/// The reductions of the parts of integers, by chunks of parts where that pays.
fn reduced_parts_z(
    execution: &impl Execution,
    source: impl Source<i64>,
    meter: &Meter,
    op: ScanZ,
    parts: &[&[i64]],
) -> Result<Vec<i64>, AllocError>
    ensures parts { IfOk result (λ made. made.items ≡ map (λ p. reduced (combine_z op) (unit_z op) p.now) parts.now) }
    ensures exact { IfOk result (λ made. IsExact made) }
{
    match parts_size(execution, meter, parts.len(), total_items(parts)) {
        Some(size) => {
            let row = IntRow::ReducedParts(ReducedParts { op, parts });
            ints_by_chunks(execution, source, row, size)
        }
        None => chosen_parts_z(source, op, parts),
    }
}

fn chosen_parts_z(
    source: impl Source<i64>,
    op: ScanZ,
    parts: &[&[i64]],
) -> Result<Vec<i64>, AllocError>
    ensures parts { IfOk result (λ made. made.items ≡ map (λ p. reduced (combine_z op) (unit_z op) p.now) parts.now) }
    ensures exact { IfOk result (λ made. IsExact made) }
{
    by_scan_z!(op, reduce_parts(source, op, parts))
}

/// What the operation makes of each part of truth values, which is one segment: one run, which gives an item for each
/// part. The result may lie in a vector that was kept.
pub fn reduce_whole_b_joined(
    execution: &impl Execution,
    source: impl Source<bool>,
    meter: &mut Meter,
    op: ScanB,
    parts: &[&[bool]],
) -> Result<Vec<bool>, OutOfMemory>
    ensures parts { IfOk result (λ made. made.items ≡ map (λ p. reduced (combine_b op) (unit_b op) p.now) parts.now) }
    ensures joined { IfOk result (λ made. made.items ≡ segmented_reduce (combine_b op) (unit_b op) (map (λ p. length p.now) parts.now) (flat_map (λ p. p.now) parts.now)) }
    ensures exact { IfOk result (λ made. IsExact made) }
    ensures counted { CountsRun result meter.old meter.new }
{
    let made = reduced_parts_b(execution, source, meter, op, parts)?;
    meter.raise();
    Ok(made)
}

/// The reductions of the parts of truth values, by chunks of parts where that pays.
fn reduced_parts_b(
    execution: &impl Execution,
    source: impl Source<bool>,
    meter: &Meter,
    op: ScanB,
    parts: &[&[bool]],
) -> Result<Vec<bool>, AllocError>
    ensures parts { IfOk result (λ made. made.items ≡ map (λ p. reduced (combine_b op) (unit_b op) p.now) parts.now) }
    ensures exact { IfOk result (λ made. IsExact made) }
{
    match parts_size(execution, meter, parts.len(), total_items(parts)) {
        Some(size) => {
            let row = BoolRow::ReducedParts(ReducedParts { op, parts });
            bools_by_chunks(execution, source, row, size)
        }
        None => chosen_parts_b(source, op, parts),
    }
}

fn chosen_parts_b(
    source: impl Source<bool>,
    op: ScanB,
    parts: &[&[bool]],
) -> Result<Vec<bool>, AllocError>
    ensures parts { IfOk result (λ made. made.items ≡ map (λ p. reduced (combine_b op) (unit_b op) p.now) parts.now) }
    ensures exact { IfOk result (λ made. IsExact made) }
{
    by_scan_b!(op, reduce_parts(source, op, parts))
}

/// How many items the parts have, or as many as can be told.
fn total_items<T>(parts: &[&[T]]) -> usize {
    let mut total: usize = 0;
    for part in parts {
        total = total.saturating_add(part.len());
    }
    total
}

#[inline(always)]
fn reduce_parts<O: Combine>(
    source: impl Source<O::Item>,
    op: O,
    parts: &[&[O::Item]],
) -> Result<Vec<O::Item>, AllocError>
    ensures parts { IfOk result (λ made. made.items ≡ map (λ p. reduced (O.combined op) (O.unit_of op) p.now) parts.now) }
    ensures exact { IfOk result (λ made. IsExact made) }
{
    let mut made = source.vector(parts.len())?;
    for part in parts {
        made.push_reserved(reduce_segment(op, part));
    }
    Ok(made)
}
