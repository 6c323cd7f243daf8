//! Each value as often as its segment is long, and integers that rise by a stride in each segment, as lists of which each part is
//! written by itself.

ghost use Rattle.std.specs.Prelude.{◌≡◌, length, map, replicate, sum};
ghost use Rattle.std.specs.List.{zip};
ghost use Rattle.segment_desc.specs.Lengths.{IsWithinLimits};
ghost use Rattle.scan_kernels.specs.Distributed.{distributed};
ghost use Rattle.scan_kernels.specs.Indexed.{indexed, segmented_index};

use crate::fills::{Repeated, Rising};
use crate::placewise::write_from;
use crate::segmentwise::Segmentwise;
use std::alloc::AllocError;

/// Each value as often as its segment is long. There are as many values as segments.
#[derive(Copy)]
pub struct Distributed<'a, T> {
    pub values: &'a [T],
    pub lengths: &'a [usize],
    /// The sum of the lengths.
    pub total: usize,
}

// By hand, since a derived clone goes field by field, which takes the prover as long as a kernel.
impl<T: Copy> Clone for Distributed<'_, T> {
    fn clone(&self) -> Result<Self, AllocError> {
        Ok(*self)
    }
}

impl<T: Copy> Segmentwise<T> for Distributed<'_, T> {
    ghost Fits = { λ l. (length l.lengths.now ≡ length l.values.now) × (l.total ≡ sum l.lengths.now) };

    ghost items = { λ l. distributed l.lengths.now l.values.now };

    ghost segments = { λ l. map (λ p. replicate p.0 p.1) (zip l.lengths.now l.values.now) };

    ghost origin_of = { λ l number. 0 };

    #[inline(always)]
    fn count(&self) -> usize {
        self.total
    }

    #[tactic(auto, using(crate::proofs::SegmentLists::joined_map))]
    fn joins(&self) {}

    #[inline(always)]
    fn lengths(&self) -> &[usize] {
        self.lengths
    }

    #[inline(always)]
    fn origin(&self, _number: usize) -> usize {
        0
    }

    #[inline(always)]
    fn next(&self, _number: usize, _origin: usize) -> usize {
        0
    }

    #[inline(always)]
    fn write(&self, number: usize, _origin: usize, _begin: usize, offset: usize, part: &mut [T]) {
        let segment = Repeated {
            item: self.values[number],
            count: self.lengths[number],
        };
        write_from(&segment, offset, part);
    }
}

/// In each segment the integers from its start on by its stride, which wrap. There are as many starts, and as many strides, as
/// segments.
#[derive(Clone, Copy)]
pub struct RisingSegments<'a> {
    pub starts: &'a [i64],
    pub strides: &'a [i64],
    pub lengths: &'a [usize],
    /// The sum of the lengths.
    pub total: usize,
}

impl Segmentwise<i64> for RisingSegments<'_> {
    ghost Fits = { λ l. (length l.lengths.now ≡ length l.starts.now) × (length l.lengths.now ≡ length l.strides.now) × IsWithinLimits l.lengths.now × (l.total ≡ sum l.lengths.now) };

    ghost items = { λ l. segmented_index l.lengths.now l.starts.now l.strides.now };

    ghost segments = { λ l. map (λ p. indexed p.1.0 p.1.1 p.0) (zip l.lengths.now (zip l.starts.now l.strides.now)) };

    ghost origin_of = { λ l number. 0 };

    #[inline(always)]
    fn count(&self) -> usize {
        self.total
    }

    #[tactic(auto, using(crate::proofs::SegmentLists::joined_map))]
    fn joins(&self) {}

    #[inline(always)]
    fn lengths(&self) -> &[usize] {
        self.lengths
    }

    #[inline(always)]
    fn origin(&self, _number: usize) -> usize {
        0
    }

    #[inline(always)]
    fn next(&self, _number: usize, _origin: usize) -> usize {
        0
    }

    #[inline(always)]
    fn write(&self, number: usize, _origin: usize, _begin: usize, offset: usize, part: &mut [i64]) {
        let segment = Rising {
            start: self.starts[number],
            stride: self.strides[number],
            count: self.lengths[number],
        };
        write_from(&segment, offset, part);
    }
}
