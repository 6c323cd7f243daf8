//! Items moved to the places that an index holds, segment by segment, on operands that lie in parts.

ghost use Rattle.std.specs.Prelude.{◌≡◌, length, sum};
ghost use Rattle.scan_kernels.specs.Indices.{PermuteSegments};
ghost use Rattle.scan_kernels.specs.Permuted.{segmented_permute};

use crate::permute::permuted;
use scan_kernels::{
    BoolKernel, BoolRow, IntKernel, IntRow, JoinedKernel, Kernel, PermutedSegments, Shelf,
    run_parts,
};
use segment_desc::Segd;
use std::alloc::AllocError;

/// Items moved by an index, segment by segment.
#[derive(Clone, Copy)]
pub struct Permute;

impl<'a> Kernel<(&'a [i64], &'a [i64], &'a Segd)> for Permute {
    type Item = i64;

    ghost Takes = { λ kernel p. (length p.1.now ≡ length p.0.now) × (sum p.2.now ≡ length p.1.now) × PermuteSegments p.2.now p.1.now };

    ghost makes = { λ kernel p. segmented_permute p.2.now p.1.now p.0.now };

    #[inline(always)]
    fn run(
        self,
        shelf: &mut Shelf<i64>,
        part: &(&'a [i64], &'a [i64], &'a Segd),
    ) -> Result<Vec<i64>, AllocError> {
        permuted(shelf, part.0, part.1, part.2.lengths())
    }
}

impl<'a> JoinedKernel<(&'a [i64], &'a [i64], &'a Segd)> for Permute {
    fn run_each(
        self,
        shelf: &mut Shelf<i64>,
        parts: &[(&'a [i64], &'a [i64], &'a Segd)],
    ) -> Result<Vec<Vec<i64>>, AllocError> {
        run_parts(shelf, self, parts)
    }
}

impl<'a> IntKernel<'a, (&'a [i64], &'a [i64], &'a Segd)> for Permute {
    fn row(self, part: &(&'a [i64], &'a [i64], &'a Segd)) -> IntRow<'a> {
        let (items, index, segments) = *part;
        IntRow::PermutedSegments(PermutedSegments {
            items,
            index,
            lengths: segments.lengths(),
        })
    }
}

impl<'a> Kernel<(&'a [bool], &'a [i64], &'a Segd)> for Permute {
    type Item = bool;

    ghost Takes = { λ kernel p. (length p.1.now ≡ length p.0.now) × (sum p.2.now ≡ length p.1.now) × PermuteSegments p.2.now p.1.now };

    ghost makes = { λ kernel p. segmented_permute p.2.now p.1.now p.0.now };

    #[inline(always)]
    fn run(
        self,
        shelf: &mut Shelf<bool>,
        part: &(&'a [bool], &'a [i64], &'a Segd),
    ) -> Result<Vec<bool>, AllocError> {
        permuted(shelf, part.0, part.1, part.2.lengths())
    }
}

impl<'a> JoinedKernel<(&'a [bool], &'a [i64], &'a Segd)> for Permute {
    fn run_each(
        self,
        shelf: &mut Shelf<bool>,
        parts: &[(&'a [bool], &'a [i64], &'a Segd)],
    ) -> Result<Vec<Vec<bool>>, AllocError> {
        run_parts(shelf, self, parts)
    }
}

impl<'a> BoolKernel<'a, (&'a [bool], &'a [i64], &'a Segd)> for Permute {
    fn row(self, part: &(&'a [bool], &'a [i64], &'a Segd)) -> BoolRow<'a> {
        let (items, index, segments) = *part;
        BoolRow::PermutedSegments(PermutedSegments {
            items,
            index,
            lengths: segments.lengths(),
        })
    }
}
