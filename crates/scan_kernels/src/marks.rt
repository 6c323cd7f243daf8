//! The places that an index holds, marked segment by segment, as a list of which each part is written by itself.

ghost use Rattle.std.specs.Prelude.{◌≡◌, ℕ, ◌+◌, ◌<◌, ◌≤◌, ◌^◌, ◌&&◌, ◌||◌, false, pos, [], nat_eq, nat_lt, count_by, length, map, sum, take, drop, replicate, slice_index_or, IsTrue};
ghost use Rattle.std.specs.Ordering.{int_eq};
ghost use Rattle.segment_desc.specs.Cut.{cut};
ghost use Rattle.scan_kernels.specs.Indices.{times_held};
ghost use Rattle.scan_kernels.specs.Marked.{marks, segmented_marks};

use crate::moves::behind;
use crate::segmentwise::{Segmentwise, segment_at};

/// How many indices are sorted out at a time.
const BLOCK: usize = 256;

/// For each place of each segment of the index, whether the segment holds it. The segments have all the indices together.
#[derive(Clone, Copy)]
pub struct Marked<'a> {
    pub index: &'a [i64],
    pub lengths: &'a [usize],
}

impl Segmentwise<bool> for Marked<'_> {
    ghost Fits = { λ l. sum l.lengths.now ≡ length l.index.now };

    ghost items = { λ l. segmented_marks l.lengths.now l.index.now };

    ghost segments = { λ l. map marks (cut l.lengths.now l.index.now) };

    ghost origin_of = { λ l number. 0 };

    #[inline(always)]
    fn count(&self) -> usize {
        self.index.len()
    }

    #[tactic(auto, using(crate::proofs::SegmentLists::joined_map))]
    fn joins(&self) {}

    #[inline(always)]
    fn lengths(&self) -> &[usize] {
        self.lengths
    }

    #[inline(always)]
    fn origin(&self, _number: usize) -> usize {
        0
    }

    #[inline(always)]
    fn next(&self, _number: usize, _origin: usize) -> usize {
        0
    }

    #[inline(always)]
    fn write(&self, number: usize, _origin: usize, begin: usize, offset: usize, part: &mut [bool]) {
        part.fill(false);
        self.mark_segment(number, begin, offset, part);
    }
}

impl Marked<'_> {
    /// Marks the places that a segment holds, which begins at a place of the index, from an offset on, where nothing is marked yet.
    #[inline(always)]
    pub(crate) fn mark_segment(self, number: usize, begin: usize, offset: usize, part: &mut [bool])
        requires total { sum self.lengths.now ≡ length self.index.now }
        requires number { number < length self.lengths.now }
        requires begin { begin ≡ sum (take number self.lengths.now) }
        requires blank { part.old ≡ replicate (length part.old) false }
        requires within { offset + length part.old ≤ slice_index_or self.lengths.now number 0 }
        ensures { part.new ≡ take (length part.old) (drop offset (slice_index_or (map marks (cut self.entry.lengths.now self.entry.index.now)) number [])) }
    {
        let segment = segment_at(self.index, begin, self.lengths[number]);
        mark_blank(segment, offset, part);
    }
}

/// Writes the marks of an index from a place on, as many as the part has, where nothing is marked yet. Where the part is as long as
/// the index, each index is a place of it, unless the index is no permutation.
#[inline(always)]
fn mark_blank(index: &[i64], start: usize, part: &mut [bool])
    requires blank { part.old ≡ replicate (length part.old) false }
    requires within { start + length part.old ≤ length index.now }
    requires small { start + length part.old < 2 ^ 63 }
    ensures { part.new ≡ take (length part.old) (drop start (marks index.now)) }
{
    if part.len() == index.len() {
        if mark_places(index, part) {
            return;
        }
        part.fill(false);
    }
    mark_blocks(index, start, part);
}

/// Marks the places that some indices hold, one after another, up to an index that is no place of the part. Whether all are.
#[inline(always)]
fn mark_places(index: &[i64], part: &mut [bool]) -> bool
    ensures { IsTrue result → (j : ℕ) → j < length part.old
        → slice_index_or part.new j false ≡ (slice_index_or part.old j false || nat_lt 0 (times_held j index.now)) }
{
    for held in index {
        let place = place_held(*held);
        if place >= part.len() {
            return false;
        }
        mark(place, part);
    }
    true
}

/// The place that an index holds, one behind all that a list can have if the index is below 0, so that one comparison tells whether it
/// is a place of a list.
#[inline(always)]
fn place_held(held: i64) -> usize
    ensures { (j : ℕ) → j < 2 ^ 63 → nat_eq result j ≡ int_eq held (pos j) }
{
    held.cast_unsigned() as usize
}

/// `mark_blank`: one pass over the whole index, which marks what falls into the part.
#[inline(never)]
fn mark_blocks(index: &[i64], start: usize, part: &mut [bool])
    requires blank { part.old ≡ replicate (length part.old) false }
    requires within { start + length part.old ≤ length index.now }
    requires small { start + length part.old < 2 ^ 63 }
    ensures { part.new ≡ take (length part.old) (drop start (marks index.now)) }
{
    let mut fallen = [0; BLOCK];
    let mut rest = index;
    while rest.len() > BLOCK {
        let (block, later) = rest.split_at(BLOCK);
        mark_block(block, start, &mut fallen, part);
        rest = later;
    }
    mark_block(rest, start, &mut fallen, part);
}

/// Marks the places that some indices hold, those of them that fall into the part. They are sorted out first without a branch, since
/// no branch foretells which of them fall into the part; what has fallen lies in an array of which nothing is read before it is written.
#[inline(always)]
fn mark_block(index: &[i64], start: usize, fallen: &mut [usize; BLOCK], part: &mut [bool])
    requires few { length index.now ≤ BLOCK }
    requires small { start + length part.old < 2 ^ 63 }
    ensures { (j : ℕ) → j < length part.old
        → slice_index_or part.new j false ≡ (slice_index_or part.old j false || nat_lt 0 (times_held (start + j) index.now)) }
{
    let count = sort_out(index, start, part.len(), fallen);
    mark_each(&fallen[..count], part);
}

/// Writes for each index that falls into a part of so many places how far behind the start of the part its place lies, and says how
/// many they are.
#[inline(always)]
fn sort_out(index: &[i64], start: usize, many: usize, fallen: &mut [usize; BLOCK]) -> usize
    requires few { length index.now ≤ BLOCK }
    requires small { start + many < 2 ^ 63 }
    ensures count { result ≤ BLOCK }
    ensures fallen { (j : ℕ) → j < many → count_by (λ b. nat_eq b j) (take result fallen.new) ≡ times_held (start + j) index.now }
{
    let mut count = 0;
    for held in index {
        let (behind, falls) = fall(*held, start, many);
        fallen[count] = behind;
        count += usize::from(falls);
    }
    count
}

/// How far behind the start of a part of so many places the place lies that an index holds, and whether it falls into the part.
#[inline(always)]
fn fall(held: i64, start: usize, many: usize) -> (usize, bool)
    requires small { start + many < 2 ^ 63 }
    ensures { (j : ℕ) → j < many → (result.1 && nat_eq result.0 j) ≡ int_eq held (pos (start + j)) }
{
    let behind = behind(place_held(held), start);
    (behind, behind < many)
}

/// Marks these places of a part, those that it has.
#[inline(always)]
fn mark_each(places: &[usize], part: &mut [bool])
    ensures { (j : ℕ) → j < length part.old
        → slice_index_or part.new j false ≡ (slice_index_or part.old j false || nat_lt 0 (count_by (λ b. nat_eq b j) places.now)) }
{
    for place in places {
        mark(*place, part);
    }
}

/// Marks a place of a part, if it has the place.
#[inline(always)]
fn mark(place: usize, part: &mut [bool])
    ensures { (j : ℕ) → j < length part.old → slice_index_or part.new j false ≡ (slice_index_or part.old j false || nat_eq place j) }
{
    if place < part.len() {
        part[place] = true;
    }
}
