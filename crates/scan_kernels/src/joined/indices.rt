//! Integers that rise by a stride from the start of each segment, on operands that lie in parts.

ghost use Rattle.std.specs.Prelude.{◌≡◌, length};
ghost use Rattle.scan_kernels.specs.Indexed.{segmented_index};

use crate::fills_by_segments::RisingSegments;
use crate::indices::index_each;
use crate::joined_rows::IntKernel;
use crate::kernel::{JoinedKernel, Kernel, run_parts};
use crate::rows::IntRow;
use crate::shelf::Shelf;
use segment_desc::Segd;
use std::alloc::AllocError;

/// The integers of each segment, from its start on by its stride.
#[derive(Clone, Copy)]
pub struct IndexSegments;

impl<'a> Kernel<(&'a [i64], &'a [i64], &'a Segd)> for IndexSegments {
    type Item = i64;

    ghost Takes = { λ kernel p. (length p.2.now ≡ length p.0.now) × (length p.2.now ≡ length p.1.now) };

    ghost makes = { λ kernel p. segmented_index p.2.now p.0.now p.1.now };

    #[inline(always)]
    fn run(
        self,
        shelf: &mut Shelf<i64>,
        part: &(&'a [i64], &'a [i64], &'a Segd),
    ) -> Result<Vec<i64>, AllocError> {
        index_each(shelf, part.0, part.1, part.2.lengths(), part.2.total())
    }
}

impl<'a> JoinedKernel<(&'a [i64], &'a [i64], &'a Segd)> for IndexSegments {
    fn run_each(
        self,
        shelf: &mut Shelf<i64>,
        parts: &[(&'a [i64], &'a [i64], &'a Segd)],
    ) -> Result<Vec<Vec<i64>>, AllocError> {
        run_parts(shelf, self, parts)
    }
}

impl<'a> IntKernel<'a, (&'a [i64], &'a [i64], &'a Segd)> for IndexSegments {
    fn row(self, part: &(&'a [i64], &'a [i64], &'a Segd)) -> IntRow<'a> {
        let (starts, strides, segments) = *part;
        IntRow::RisingSegments(RisingSegments {
            starts,
            strides,
            lengths: segments.lengths(),
            total: segments.total(),
        })
    }
}
