//! Items that an index reads or moves segment by segment, as lists of which each part is written by itself.

ghost use Rattle.std.specs.Prelude.{◌≡◌, length, map, sum, take};
ghost use Rattle.std.specs.List.{zip};
ghost use Rattle.segment_desc.specs.Cut.{cut};
ghost use Rattle.scan_kernels.specs.Gathered.{gathered, segmented_gather};
ghost use Rattle.scan_kernels.specs.Indices.{LieWithin, PermuteSegments};
ghost use Rattle.scan_kernels.specs.Permuted.{permuted, segmented_permute};

use crate::moves::{Gathered, Permuted};
use crate::placewise::write_from;
use crate::reductions::total;
use crate::segmentwise::{Segmentwise, segment_at};
use std::alloc::AllocError;

/// For each index in order the item at its place in the segment of the items that has the number of the index's own. Each index is
/// a place of that segment.
#[derive(Copy)]
pub struct GatheredSegments<'a, T> {
    pub items: &'a [T],
    pub source: &'a [usize],
    pub index: &'a [i64],
    pub by: &'a [usize],
}

// By hand, since a derived clone goes field by field, which takes the prover as long as a kernel.
impl<T: Copy> Clone for GatheredSegments<'_, T> {
    fn clone(&self) -> Result<Self, AllocError> {
        Ok(*self)
    }
}

impl<T: Copy> Segmentwise<T> for GatheredSegments<'_, T> {
    ghost Fits = { λ l. (sum l.source.now ≡ length l.items.now) × (sum l.by.now ≡ length l.index.now) × (length l.source.now ≡ length l.by.now) × LieWithin l.source.now l.by.now l.index.now };

    ghost items = { λ l. segmented_gather l.source.now l.items.now l.by.now l.index.now };

    ghost segments = { λ l. map (λ p. gathered p.1 p.0) (zip (cut l.source.now l.items.now) (cut l.by.now l.index.now)) };

    ghost origin_of = { λ l number. sum (take number l.source.now) };

    #[inline(always)]
    fn count(&self) -> usize {
        self.index.len()
    }

    #[tactic(auto, using(crate::proofs::SegmentLists::joined_map))]
    fn joins(&self) {}

    #[inline(always)]
    fn lengths(&self) -> &[usize] {
        self.by
    }

    #[inline(always)]
    fn origin(&self, number: usize) -> usize {
        total(&self.source[..number])
    }

    #[inline(always)]
    fn next(&self, number: usize, origin: usize) -> usize {
        origin + self.source[number]
    }

    #[inline(always)]
    fn write(&self, number: usize, origin: usize, begin: usize, offset: usize, part: &mut [T]) {
        let segment = Gathered {
            items: segment_at(self.items, origin, self.source[number]),
            index: segment_at(self.index, begin, self.by[number]),
        };
        write_from(&segment, offset, part);
    }
}

/// In each segment, the item at place i goes to the place that the index holds at i. There are as many indices as items, and each
/// segment of the index holds each of its places once.
#[derive(Copy)]
pub struct PermutedSegments<'a, T> {
    pub items: &'a [T],
    pub index: &'a [i64],
    pub lengths: &'a [usize],
}

// By hand, since a derived clone goes field by field, which takes the prover as long as a kernel.
impl<T: Copy> Clone for PermutedSegments<'_, T> {
    fn clone(&self) -> Result<Self, AllocError> {
        Ok(*self)
    }
}

impl<T: Copy> Segmentwise<T> for PermutedSegments<'_, T> {
    ghost Fits = { λ l. (length l.index.now ≡ length l.items.now) × (sum l.lengths.now ≡ length l.index.now) × PermuteSegments l.lengths.now l.index.now };

    ghost items = { λ l. segmented_permute l.lengths.now l.index.now l.items.now };

    ghost segments = { λ l. map (λ p. permuted p.0 p.1) (zip (cut l.lengths.now l.index.now) (cut l.lengths.now l.items.now)) };

    ghost origin_of = { λ l number. 0 };

    #[inline(always)]
    fn count(&self) -> usize {
        self.items.len()
    }

    #[tactic(auto, using(crate::proofs::SegmentLists::joined_map))]
    fn joins(&self) {}

    #[inline(always)]
    fn lengths(&self) -> &[usize] {
        self.lengths
    }

    #[inline(always)]
    fn origin(&self, _number: usize) -> usize {
        0
    }

    #[inline(always)]
    fn next(&self, _number: usize, _origin: usize) -> usize {
        0
    }

    #[inline(always)]
    fn write(&self, number: usize, _origin: usize, begin: usize, offset: usize, part: &mut [T]) {
        let count = self.lengths[number];
        let segment = Permuted {
            items: segment_at(self.items, begin, count),
            index: segment_at(self.index, begin, count),
        };
        segment.write(offset, part);
    }
}
