//! The reductions of segments, as a list of which each part is written by itself.

ghost use Rattle.std.specs.Prelude.{◌≡◌, ◌+◌, ◌<◌, ◌≤◌, ◌^◌, length, take, drop, map, sum};
ghost use Rattle.scan_kernels.specs.Lists.{bools_of, ints_of};
ghost use Rattle.scan_kernels.specs.Segmented.{segmented_reduce};

use crate::choices::{by_name, by_scan_b, by_scan_z};
use crate::in_order::end_of;
use crate::reduce::reduce_segment;
use crate::rows::{BoolRow, IntRow};
use crate::singles::{BLOCK, are_single};
use item_operations::{Combine, ScanB, ScanZ};

/// What the operation makes of each segment of integers. The segments have all the items together.
#[derive(Clone, Copy)]
pub struct ReducedInts<'a> {
    pub op: ScanZ,
    pub items: &'a [i64],
    pub lengths: &'a [usize],
}

/// What the operation makes of each segment of truth values. The segments have all the items together.
#[derive(Clone, Copy)]
pub struct ReducedBools<'a> {
    pub op: ScanB,
    pub items: &'a [bool],
    pub lengths: &'a [usize],
}

/// How many reductions of integers there are.
#[tactic(auto, using(crate::proofs::ReducedParts::reduced_long))]
pub(crate) fn count_reduced_ints(list: ReducedInts<'_>) -> usize
    ensures { result ≡ length (ints_of (IntRow.Reduced list.entry)) }
{
    list.lengths.len()
}

/// Writes the reductions of integers from a segment on, as many as the part has.
pub(crate) fn write_reduced_ints(list: ReducedInts<'_>, start: usize, part: &mut [i64])
    requires total { sum list.lengths.now ≡ length list.items.now }
    requires within { start + length part.old ≤ length (ints_of (IntRow.Reduced list)) }
    ensures { part.new ≡ take (length part.old) (drop start (ints_of (IntRow.Reduced list.entry))) }
{
    let ReducedInts { op, items, lengths } = list;
    by_scan_z!(op, write_reduced(op, items, lengths, start, part))
}

/// How many reductions of truth values there are.
#[tactic(auto, using(crate::proofs::ReducedParts::reduced_long))]
pub(crate) fn count_reduced_bools(list: ReducedBools<'_>) -> usize
    ensures { result ≡ length (bools_of (BoolRow.Reduced list.entry)) }
{
    list.lengths.len()
}

/// Writes the reductions of truth values from a segment on, as many as the part has.
pub(crate) fn write_reduced_bools(list: ReducedBools<'_>, start: usize, part: &mut [bool])
    requires total { sum list.lengths.now ≡ length list.items.now }
    requires within { start + length part.old ≤ length (bools_of (BoolRow.Reduced list)) }
    ensures { part.new ≡ take (length part.old) (drop start (bools_of (BoolRow.Reduced list.entry))) }
{
    let ReducedBools { op, items, lengths } = list;
    by_scan_b!(op, write_reduced(op, items, lengths, start, part))
}

// The items of the part's first segment lie behind those of the segments before it.
#[inline(always)]
#[tactic(auto, using(crate::proofs::ReducedParts::reduced_long))]
fn write_reduced<O: Combine>(
    op: O,
    items: &[O::Item],
    lengths: &[usize],
    start: usize,
    part: &mut [O::Item],
)
    requires total { sum lengths.now ≡ length items.now }
    requires within { start + length part.old ≤ length (segmented_reduce (O.combined op) (O.unit_of op) lengths.now items.now) }
    ensures { part.new ≡ take (length part.old) (drop start (segmented_reduce (O.combined op) (O.unit_of op) lengths.now items.now)) }
{
    let (before, behind) = lengths.split_at(start);
    let (_, rest) = items.split_at(total(before));
    let (own, _) = behind.split_at(part.len());
    reduce_over(op, rest, own, part);
}

/// How many items the segments have together.
pub(crate) fn total(lengths: &[usize]) -> usize
    requires { sum lengths.now < 2 ^ 64 }
    ensures { result ≡ sum lengths.now }
{
    let mut total = 0;
    for length in lengths {
        total += *length;
    }
    total
}

// Writes the reductions of the first segments of the items over a part with as many.
#[inline(always)]
fn reduce_over<O: Combine>(op: O, items: &[O::Item], lengths: &[usize], part: &mut [O::Item])
    requires within { sum lengths.now ≤ length items.now }
    requires long { length part.old ≡ length lengths.now }
    ensures { part.new ≡ segmented_reduce (O.combined op) (O.unit_of op) lengths.now items.now }
{
    let mut rest = items;
    let mut start = 0;
    while start < part.len() {
        let end = end_of(start, BLOCK, part.len());
        rest = reduce_block_over(op, rest, &lengths[start..end], &mut part[start..end]);
        start = end;
    }
}

// Gives the items behind these segments.
#[inline(always)]
fn reduce_block_over<'a, O: Combine>(
    op: O,
    items: &'a [O::Item],
    lengths: &[usize],
    part: &mut [O::Item],
) -> &'a [O::Item]
    requires within { sum lengths.now ≤ length items.now }
    requires long { length part.old ≡ length lengths.now }
    ensures reduce { part.new ≡ segmented_reduce (O.combined op) (O.unit_of op) lengths.now items.now }
    ensures rest { result.now ≡ drop (sum lengths.now) items.now }
{
    if !are_single(lengths) {
        return reduce_each_over(op, items, lengths, part);
    }
    let (singles, rest) = items.split_at(lengths.len());
    reduce_singles_over(op, singles, part);
    rest
}

#[inline(always)]
fn reduce_singles_over<O: Combine>(op: O, items: &[O::Item], part: &mut [O::Item])
    requires { length part.old ≡ length items.now }
    ensures { part.new ≡ map (O.combined op (O.unit_of op)) items.now }
{
    for i in 0..part.len() {
        part[i] = op.combine(op.unit(), items[i]);
    }
}

#[inline(always)]
fn reduce_each_over<'a, O: Combine>(
    op: O,
    items: &'a [O::Item],
    lengths: &[usize],
    part: &mut [O::Item],
) -> &'a [O::Item]
    requires within { sum lengths.now ≤ length items.now }
    requires long { length part.old ≡ length lengths.now }
    ensures reduce { part.new ≡ segmented_reduce (O.combined op) (O.unit_of op) lengths.now items.now }
    ensures rest { result.now ≡ drop (sum lengths.now) items.now }
{
    let mut rest = items;
    for i in 0..part.len() {
        let (segment, behind) = rest.split_at(lengths[i]);
        part[i] = reduce_segment(op, segment);
        rest = behind;
    }
    rest
}
