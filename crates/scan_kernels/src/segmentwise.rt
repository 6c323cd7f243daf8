//! Lists that are made segment by segment. One loop writes as much of such a list as a part of a result takes, from any place on,
//! so that several parts can be written at the same time.

ghost use Rattle.std.specs.Prelude.{◌≡◌, ℕ, ◌+◌, ◌<◌, ◌≤◌, ◌^◌, List, [], length, map, sum, take, drop, slice_index_or};
ghost use Rattle.segment_desc.specs.Cut.{joined};
ghost use Rattle.scan_kernels.specs.Edges.{LiesIn};

use crate::edges::{FIRST, Segment, segment_of};

/// A list that is made segment by segment: an operation with its operands, lent.
pub trait Segmentwise<T> {
    /// What the operands must meet.
    ghost Fits: { Self → Type 0 };

    /// The items.
    ghost items: { Self → List T };

    /// The segments.
    ghost segments: { Self → List (List T) };

    /// Where what a segment is made of begins, in a list that has it for all segments one after another; 0 where the number of the
    /// segment tells.
    ghost origin_of: { Self → ℕ → ℕ };

    /// How many items there are.
    fn count(&self) -> usize
        requires { Fits self.now }
        ensures { result ≡ length (items self.now) };

    /// The segments, one after another, are the items. It does nothing.
    fn joins(&self)
        requires { Fits self.now }
        ensures { joined (segments self.now) ≡ items self.now };

    /// How long each segment is.
    fn lengths(&self) -> &[usize]
        requires { Fits self.now }
        ensures { result.now ≡ map length (segments self.now) };

    /// Where what a segment is made of begins.
    fn origin(&self, number: usize) -> usize
        requires fits { Fits self.now }
        requires number { number < length (segments self.now) }
        ensures { result ≡ origin_of self.now number };

    /// Where what the next segment is made of begins.
    fn next(&self, number: usize, origin: usize) -> usize
        requires fits { Fits self.now }
        requires number { number < length (segments self.now) }
        requires origin { origin ≡ origin_of self.now number }
        ensures { result ≡ origin_of self.now (number + 1) };

    /// Writes the items of a segment, which begins at a place of the list, from an offset on, as many as the part has.
    fn write(&self, number: usize, origin: usize, begin: usize, offset: usize, part: &mut [T])
        requires fits { Fits self.now }
        requires number { number < length (segments self.now) }
        requires origin { origin ≡ origin_of self.now number }
        requires begin { begin ≡ sum (take number (map length (segments self.now))) }
        requires within { offset + length part.old ≤ length (slice_index_or (segments self.now) number []) }
        requires small { begin + offset + length part.old < 2 ^ 64 }
        ensures { part.new ≡ take (length part.old) (drop offset (slice_index_or (segments self.now) number [])) };
}

/// Writes the items from a place on, as many as the part has.
#[inline(always)]
pub fn write_segments<T: Copy, L: Segmentwise<T>>(list: &L, start: usize, part: &mut [T])
    requires fits { L.Fits list.now }
    requires within { start + length part.old ≤ length (L.items list.now) }
    requires small { start + length part.old < 2 ^ 64 }
    ensures { part.new ≡ take (length part.old) (drop start (L.items list.now)) }
{
    list.joins();
    if part.is_empty() {
        return;
    }
    let segment = segment_of(list.lengths(), FIRST, start);
    write_from_segment(list, segment, start, part);
}

/// Writes the items from a place on, where the segment is known in which the place lies.
#[inline(always)]
fn write_from_segment<T: Copy, L: Segmentwise<T>>(
    list: &L,
    segment: Segment,
    start: usize,
    part: &mut [T],
)
    requires fits { L.Fits list.now }
    requires segment { LiesIn (map length (L.segments list.now)) start segment.number segment.begin }
    requires within { start + length part.old ≤ length (joined (L.segments list.now)) }
    requires small { start + length part.old < 2 ^ 64 }
    ensures { part.new ≡ take (length part.old) (drop start (joined (L.segments list.now))) }
{
    let lengths = list.lengths();
    let Segment {
        mut number,
        mut begin,
    } = segment;
    let mut origin = list.origin(number);
    let mut done = 0;
    while done < part.len() {
        let offset = start + done - begin;
        let end = done + (lengths[number] - offset).min(part.len() - done);
        list.write(number, origin, begin, offset, &mut part[done..end]);
        origin = list.next(number, origin);
        number += 1;
        begin = start + end;
        done = end;
    }
}

/// The items of a segment that begins at a place.
#[inline(always)]
pub fn segment_at<T>(items: &[T], begin: usize, count: usize) -> &[T]
    requires { begin + count ≤ length items.now }
    ensures { result.now ≡ take count (drop begin items.now) }
{
    &items[begin..begin + count]
}
