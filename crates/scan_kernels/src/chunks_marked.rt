//! Whether the segments of an index hold all places of each chunk, as a list whose item for each chunk is told by itself.

ghost use Rattle.std.specs.Prelude.{◌≡◌, ℕ, ◌+◌, ◌-◌, ◌*◌, ◌<◌, ◌≤◌, ◌^◌, false, length, sum, take, drop, replicate};
ghost use Rattle.scan_kernels.specs.Edges.{LiesIn};
ghost use Rattle.scan_kernels.specs.Marked.{all_set, chunks_set, segmented_marks};

use crate::edges::{FIRST, Segment, segment_of};
use crate::marks::Marked;
use crate::placewise::Placewise;
use crate::set_flags::all_set;

/// So many places are marked at a time, on the stack.
const BLOCK: usize = 4_096;

/// For each of the first chunks of a size, whether the segments of the index hold all its places. They have all the indices
/// together.
#[derive(Clone, Copy)]
pub struct ChunksMarked<'a> {
    pub index: &'a [i64],
    pub lengths: &'a [usize],
    pub size: usize,
    pub count: usize,
}

impl Placewise<bool> for ChunksMarked<'_> {
    ghost Fits = { λ l. (sum l.lengths.now ≡ length l.index.now) × (0 < l.size) × ((k : ℕ) → k < l.count → k * l.size < length l.index.now) };

    ghost items = { λ l. chunks_set l.count l.size (segmented_marks l.lengths.now l.index.now) };

    fn count(&self) -> usize {
        self.count
    }

    fn at(&self, place: usize) -> bool {
        let start = place * self.size;
        let end = start + self.size.min(self.index.len() - start);
        let Self { index, lengths, .. } = *self;
        are_marked(Marked { index, lengths }, start, end)
    }
}

/// Whether the segments hold all places from one on, up to another: block by block, where each begins in a segment of the block before
/// or in a later one.
fn are_marked(marked: Marked<'_>, start: usize, end: usize) -> bool
    requires total { sum marked.lengths.now ≡ length marked.index.now }
    requires within { end ≤ length marked.index.now }
    ensures { result ≡ all_set (take (end - start) (drop start (segmented_marks marked.entry.lengths.now marked.entry.index.now))) }
{
    let mut marks = [false; BLOCK];
    let mut segment = FIRST;
    let mut at = start;
    while at < end {
        let many = BLOCK.min(end - at);
        segment = segment_of(marked.lengths, segment, at);
        if !is_block_marked(marked, segment, at, &mut marks[..many]) {
            return false;
        }
        at += many;
    }
    true
}

/// Whether the segments hold as many places as the block has, from one on, where the segment is known in which that lies.
fn is_block_marked(marked: Marked<'_>, segment: Segment, start: usize, block: &mut [bool]) -> bool
    requires total { sum marked.lengths.now ≡ length marked.index.now }
    requires segment { LiesIn marked.lengths.now start segment.number segment.begin }
    requires within { start + length block.old ≤ length marked.index.now }
    ensures { result ≡ all_set (take (length block.old) (drop start (segmented_marks marked.entry.lengths.now marked.entry.index.now))) }
{
    block.fill(false);
    mark_segments(marked, segment, start, block);
    all_set(block)
}

/// Marks the places that the segments hold, from one on, in a block where nothing is marked yet: one loop over the segments.
#[inline(always)]
fn mark_segments(marked: Marked<'_>, segment: Segment, start: usize, block: &mut [bool])
    requires total { sum marked.lengths.now ≡ length marked.index.now }
    requires segment { LiesIn marked.lengths.now start segment.number segment.begin }
    requires blank { block.old ≡ replicate (length block.old) false }
    requires within { start + length block.old ≤ length marked.index.now }
    ensures { block.new ≡ take (length block.old) (drop start (segmented_marks marked.entry.lengths.now marked.entry.index.now)) }
{
    let Segment {
        mut number,
        mut begin,
    } = segment;
    let mut done = 0;
    while done < block.len() {
        let offset = start + done - begin;
        let end = done + (marked.lengths[number] - offset).min(block.len() - done);
        marked.mark_segment(number, begin, offset, &mut block[done..end]);
        number += 1;
        begin = start + end;
        done = end;
    }
}

/// Whether each segment is so short that it lies in two blocks at most, so that it is read twice at most.
pub(crate) fn are_short(lengths: &[usize]) -> bool {
    lengths.iter().all(|length| *length <= BLOCK)
}
