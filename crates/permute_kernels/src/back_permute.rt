//! Items read from the places that an index holds, segment by segment. Want of memory leaves the meter as it was.

ghost use Rattle.std.specs.Prelude.{◌≡◌, length, sum, IfOk};
ghost use Rattle.segment_desc.specs.Appended.{IsExact};
ghost use Rattle.scan_kernels.specs.Metering.{CountsRun};
ghost use Rattle.scan_kernels.specs.Indices.{LieWithin};
ghost use Rattle.scan_kernels.specs.Gathered.{segmented_gather};

use crate::gather::gather;
use scan_kernels::{
    BoolRow, Execution, GatheredSegments, IntRow, Meter, Source, bools_by_chunks,
    gather_segments_size, ints_by_chunks,
};
use segment_desc::{OutOfMemory, Segd};
use std::alloc::AllocError;

/// For each index in order the integer at its place, in one pass into a vector of its final size. Segment j of the index,
/// by the lengths `by`, holds places of segment j of the integers, by the lengths `source`, as `in_range` tells. The
/// segments are as many on both sides, and have the integers and the indices all together.
pub fn back_permute_z(
    execution: &impl Execution,
    alloc: impl Source<i64>,
    meter: &mut Meter,
    items: &[i64],
    source: &Segd,
    index: &[i64],
    by: &Segd,
) -> Result<Vec<i64>, OutOfMemory>
    requires source_total { sum source.now ≡ length items.now }
    requires total { sum by.now ≡ length index.now }
    requires counts { length source.now ≡ length by.now }
    requires within { LieWithin source.now by.now index.now }
    ensures gather { IfOk result (λ v. v.items ≡ segmented_gather source.now items.now by.now index.now) }
    ensures exact { IfOk result (λ v. IsExact v) }
    ensures counted { CountsRun result meter.old meter.new }
{
    let (source, by) = (source.lengths(), by.lengths());
    let made = match gather_segments_size(execution, meter, index.len()) {
        Some(size) => {
            let row = IntRow::GatheredSegments(GatheredSegments {
                items,
                source,
                index,
                by,
            });
            ints_by_chunks(execution, alloc, row, size)?
        }
        None => gather_each(alloc, items, source, index, by)?,
    };
    meter.raise();
    Ok(made)
}

/// The same for truth values.
pub fn back_permute_b(
    execution: &impl Execution,
    alloc: impl Source<bool>,
    meter: &mut Meter,
    flags: &[bool],
    source: &Segd,
    index: &[i64],
    by: &Segd,
) -> Result<Vec<bool>, OutOfMemory>
    requires source_total { sum source.now ≡ length flags.now }
    requires total { sum by.now ≡ length index.now }
    requires counts { length source.now ≡ length by.now }
    requires within { LieWithin source.now by.now index.now }
    ensures gather { IfOk result (λ v. v.items ≡ segmented_gather source.now flags.now by.now index.now) }
    ensures exact { IfOk result (λ v. IsExact v) }
    ensures counted { CountsRun result meter.old meter.new }
{
    let (source, by) = (source.lengths(), by.lengths());
    let made = match gather_segments_size(execution, meter, index.len()) {
        Some(size) => {
            let row = BoolRow::GatheredSegments(GatheredSegments {
                items: flags,
                source,
                index,
                by,
            });
            bools_by_chunks(execution, alloc, row, size)?
        }
        None => gather_each(alloc, flags, source, index, by)?,
    };
    meter.raise();
    Ok(made)
}

pub(crate) fn gather_each<T: Copy + Send + Sync>(
    alloc: impl Source<T>,
    items: &[T],
    source: &[usize],
    index: &[i64],
    by: &[usize],
) -> Result<Vec<T>, AllocError>
    requires source_total { sum source.now ≡ length items.now }
    requires total { sum by.now ≡ length index.now }
    requires counts { length source.now ≡ length by.now }
    requires within { LieWithin source.now by.now index.now }
    ensures items { IfOk result (λ v. v.items ≡ segmented_gather source.now items.now by.now index.now) }
    ensures exact { IfOk result (λ v. IsExact v) }
{
    let mut made = alloc.vector(index.len())?;
    let mut from = 0;
    let mut at = 0;
    for j in 0..by.len() {
        let source_end = from + source[j];
        let end = at + by[j];
        gather(&items[from..source_end], &index[at..end], &mut made);
        from = source_end;
        at = end;
    }
    Ok(made)
}
