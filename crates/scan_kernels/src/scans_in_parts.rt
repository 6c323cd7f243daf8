//! The scan of segments, written part by part: each part begins from what is carried into its chunk.

ghost use Rattle.std.specs.Prelude.{◌≡◌, ◌+◌, ◌-◌, ◌*◌, ◌/◌, ◌<◌, ◌≤◌, ◌^◌, Some, length, take, drop, sum, fold, slice_get};
ghost use Rattle.item_operations.specs.BooleanScans.{combine_b, unit_b};
ghost use Rattle.item_operations.specs.IntegerScans.{combine_z, unit_z};
ghost use Rattle.scan_kernels.specs.Edges.{FitsScan, LiesIn};
ghost use Rattle.scan_kernels.specs.Segmented.{reduced, scanned, segmented_scan};

use crate::choices::{by_name, by_scan_b, by_scan_z};
use crate::edges::{FIRST, Segment, segment_of};
use item_operations::{Combine, ScanB, ScanZ};

/// The exclusive scan of each segment, with what it carries into each chunk of a size.
#[derive(Clone, Copy)]
pub struct Scanned<'a, O, T> {
    pub op: O,
    pub items: &'a [T],
    pub lengths: &'a [usize],
    pub carries: &'a [T],
    pub size: usize,
}

impl<O, T> Scanned<'_, O, T> {
    /// How many items there are.
    pub fn count(&self) -> usize
        ensures { result ≡ length self.now.items.now }
    {
        self.items.len()
    }
}

/// Writes a scan of integers from a place on, as much of it as the part has.
pub fn write_scanned_ints(list: Scanned<'_, ScanZ, i64>, start: usize, part: &mut [i64])
    requires fits { FitsScan (combine_z list.op) (unit_z list.op) list.lengths.now list.items.now list.carries.now list.size }
    requires within { start + length part.old ≤ length list.items.now }
    requires small { start + length part.old < 2 ^ 64 }
    ensures { part.new ≡ take (length part.old) (drop start (segmented_scan (combine_z list.entry.op) (unit_z list.entry.op) list.entry.lengths.now list.entry.items.now)) }
{
    let Scanned {
        op,
        items,
        lengths,
        carries,
        size,
    } = list;
    by_scan_z!(
        op,
        write_scan(op, items, lengths, carries, size, start, part)
    )
}

/// Writes a scan of truth values from a place on, as much of it as the part has.
pub fn write_scanned_bools(list: Scanned<'_, ScanB, bool>, start: usize, part: &mut [bool])
    requires fits { FitsScan (combine_b list.op) (unit_b list.op) list.lengths.now list.items.now list.carries.now list.size }
    requires within { start + length part.old ≤ length list.items.now }
    requires small { start + length part.old < 2 ^ 64 }
    ensures { part.new ≡ take (length part.old) (drop start (segmented_scan (combine_b list.entry.op) (unit_b list.entry.op) list.entry.lengths.now list.entry.items.now)) }
{
    let Scanned {
        op,
        items,
        lengths,
        carries,
        size,
    } = list;
    by_scan_b!(
        op,
        write_scan(op, items, lengths, carries, size, start, part)
    )
}

/// Writes the scan from a place on, as much of it as the part has.
#[inline(always)]
pub fn write_scan<O: Combine>(
    op: O,
    items: &[O::Item],
    lengths: &[usize],
    carries: &[O::Item],
    size: usize,
    start: usize,
    part: &mut [O::Item],
)
    requires fits { FitsScan (O.combined op) (O.unit_of op) lengths.now items.now carries.now size }
    requires within { start + length part.old ≤ length items.now }
    requires small { start + length part.old < 2 ^ 64 }
    ensures { part.new ≡ take (length part.old) (drop start (segmented_scan (O.combined op) (O.unit_of op) lengths.now items.now)) }
{
    if part.is_empty() {
        return;
    }
    let segment = segment_of(lengths, FIRST, start);
    let carry = carry_at(op, items, carries, size, segment.begin, start);
    write_segments(op, items, lengths, segment, carry, start, part);
}

/// What the scan carries into a place of a segment that begins at a place.
#[inline(always)]
fn carry_at<O: Combine>(
    op: O,
    items: &[O::Item],
    carries: &[O::Item],
    size: usize,
    begin: usize,
    place: usize,
) -> O::Item
    requires size { 0 < size }
    requires behind { begin ≤ place }
    requires within { place < length items.now }
    requires carried { begin < place / size * size
        → slice_get carries.now (place / size) ≡ Some (reduced (O.combined op) (O.unit_of op) (take (place / size * size - begin) (drop begin items.now))) }
    ensures { result ≡ reduced (O.combined op) (O.unit_of op) (take (place - begin) (drop begin items.now)) }
{
    let chunk = place / size;
    let edge = chunk * size;
    if begin < edge {
        folded(op, carries[chunk], &items[edge..place])
    } else {
        folded(op, op.unit(), &items[begin..place])
    }
}

/// What the operation makes of the items behind a first one.
#[inline(always)]
#[tactic(auto, using(crate::proofs::Scanned::fold_push))]
pub(crate) fn folded<O: Combine>(op: O, first: O::Item, items: &[O::Item]) -> O::Item
    ensures { result ≡ fold (O.combined op) first items.now }
{
    let mut so_far = first;
    for &item in items {
        so_far = op.combine(so_far, item);
    }
    so_far
}

/// Writes the scan from a place on over a part, where the segment is known in which the place lies, and what the scan carries
/// into it.
#[inline(always)]
fn write_segments<O: Combine>(
    op: O,
    items: &[O::Item],
    lengths: &[usize],
    segment: Segment,
    carry: O::Item,
    start: usize,
    part: &mut [O::Item],
)
    requires total { sum lengths.now ≡ length items.now }
    requires segment { LiesIn lengths.now start segment.number segment.begin }
    requires carry { carry ≡ reduced (O.combined op) (O.unit_of op) (take (start - segment.begin) (drop segment.begin items.now)) }
    requires within { start + length part.old ≤ length items.now }
    requires small { start + length part.old < 2 ^ 64 }
    ensures { part.new ≡ take (length part.old) (drop start (segmented_scan (O.combined op) (O.unit_of op) lengths.now items.now)) }
{
    let Segment {
        mut number,
        mut begin,
    } = segment;
    let mut carry = carry;
    let mut done = 0;
    while done < part.len() {
        let left = lengths[number] - (start + done - begin);
        let end = done + left.min(part.len() - done);
        write_scanned(
            op,
            carry,
            &items[start + done..start + end],
            &mut part[done..end],
        );
        number += 1;
        begin = start + end;
        carry = op.unit();
        done = end;
    }
}

/// Writes the scan of a part's items, from a first one on.
#[inline(always)]
pub(crate) fn write_scanned<O: Combine>(
    op: O,
    first: O::Item,
    items: &[O::Item],
    part: &mut [O::Item],
)
    requires { length items.now ≡ length part.old }
    ensures { part.new ≡ scanned (O.combined op) first items.now }
{
    let mut so_far = first;
    for i in 0..part.len() {
        part[i] = so_far;
        so_far = op.combine(so_far, items[i]);
    }
}
