//! Whether the indices of each chunk are places of the segments that have the numbers of their own, as a list whose item for each
//! chunk is told by itself.

ghost use Rattle.std.specs.Prelude.{◌≡◌, ℕ, ◌-◌, ◌*◌, ◌<◌, ◌≤◌, length, sum, take, drop};
ghost use Rattle.scan_kernels.specs.Marked.{all_set, chunks_set, each_within};

use crate::edges::{FIRST, Segment, segment_of};
use crate::place::are_places;
use crate::placewise::Placewise;

/// For each of the first chunks of a size, whether all its indices are places of the segments of the source that have the numbers
/// of their own. The indices have the segments `by`, as many as the source.
#[derive(Clone, Copy)]
pub struct ChunksWithin<'a> {
    pub index: &'a [i64],
    pub source: &'a [usize],
    pub by: &'a [usize],
    pub size: usize,
    pub count: usize,
}

impl Placewise<bool> for ChunksWithin<'_> {
    ghost Fits = { λ l. (length l.source.now ≡ length l.by.now) × (sum l.by.now ≡ length l.index.now) × (0 < l.size) × ((k : ℕ) → k < l.count → k * l.size < length l.index.now) };

    ghost items = { λ l. chunks_set l.count l.size (each_within l.source.now l.by.now l.index.now) };

    fn count(&self) -> usize {
        self.count
    }

    fn at(&self, place: usize) -> bool {
        let start = place * self.size;
        let end = start + self.size.min(self.index.len() - start);
        part_within(self.index, self.source, self.by, start, end)
    }
}

/// Whether the indices from a place on are places of their segments, up to another place: from the segment on in which the first
/// of them lies.
fn part_within(index: &[i64], source: &[usize], by: &[usize], start: usize, end: usize) -> bool
    requires counts { length source.now ≡ length by.now }
    requires total { sum by.now ≡ length index.now }
    requires some { start < end }
    requires within { end ≤ length index.now }
    ensures { result ≡ all_set (take (end - start) (drop start (each_within source.now by.now index.now))) }
{
    let Segment {
        mut number,
        mut begin,
    } = segment_of(by, FIRST, start);
    let mut at = start;
    while at < end {
        begin += by[number];
        let stop = begin.min(end);
        if !are_places(&index[at..stop], source[number]) {
            return false;
        }
        number += 1;
        at = stop;
    }
    true
}
