//! Items read from the places that an index holds, segment by segment, on operands that lie in parts.

ghost use Rattle.std.specs.Prelude.{◌≡◌, length, sum};
ghost use Rattle.scan_kernels.specs.Indices.{LieWithin};
ghost use Rattle.scan_kernels.specs.Gathered.{segmented_gather};

use crate::back_permute::gather_each;
use scan_kernels::{
    BoolKernel, BoolRow, GatheredSegments, IntKernel, IntRow, JoinedKernel, Kernel, Shelf,
    run_parts,
};
use segment_desc::Segd;
use std::alloc::AllocError;

/// Items read by an index, segment by segment.
#[derive(Clone, Copy)]
pub struct BackPermute;

impl<'a> Kernel<(&'a [i64], &'a Segd, &'a [i64], &'a Segd)> for BackPermute {
    type Item = i64;

    ghost Takes = { λ kernel p. (sum p.1.now ≡ length p.0.now) × (sum p.3.now ≡ length p.2.now) × (length p.1.now ≡ length p.3.now) × LieWithin p.1.now p.3.now p.2.now };

    ghost makes = { λ kernel p. segmented_gather p.1.now p.0.now p.3.now p.2.now };

    #[inline(always)]
    fn run(
        self,
        shelf: &mut Shelf<i64>,
        part: &(&'a [i64], &'a Segd, &'a [i64], &'a Segd),
    ) -> Result<Vec<i64>, AllocError> {
        gather_each(shelf, part.0, part.1.lengths(), part.2, part.3.lengths())
    }
}

impl<'a> JoinedKernel<(&'a [i64], &'a Segd, &'a [i64], &'a Segd)> for BackPermute {
    fn run_each(
        self,
        shelf: &mut Shelf<i64>,
        parts: &[(&'a [i64], &'a Segd, &'a [i64], &'a Segd)],
    ) -> Result<Vec<Vec<i64>>, AllocError> {
        run_parts(shelf, self, parts)
    }
}

impl<'a> IntKernel<'a, (&'a [i64], &'a Segd, &'a [i64], &'a Segd)> for BackPermute {
    fn row(self, part: &(&'a [i64], &'a Segd, &'a [i64], &'a Segd)) -> IntRow<'a> {
        let (items, source, index, by) = *part;
        IntRow::GatheredSegments(GatheredSegments {
            items,
            source: source.lengths(),
            index,
            by: by.lengths(),
        })
    }
}

impl<'a> Kernel<(&'a [bool], &'a Segd, &'a [i64], &'a Segd)> for BackPermute {
    type Item = bool;

    ghost Takes = { λ kernel p. (sum p.1.now ≡ length p.0.now) × (sum p.3.now ≡ length p.2.now) × (length p.1.now ≡ length p.3.now) × LieWithin p.1.now p.3.now p.2.now };

    ghost makes = { λ kernel p. segmented_gather p.1.now p.0.now p.3.now p.2.now };

    #[inline(always)]
    fn run(
        self,
        shelf: &mut Shelf<bool>,
        part: &(&'a [bool], &'a Segd, &'a [i64], &'a Segd),
    ) -> Result<Vec<bool>, AllocError> {
        gather_each(shelf, part.0, part.1.lengths(), part.2, part.3.lengths())
    }
}

impl<'a> JoinedKernel<(&'a [bool], &'a Segd, &'a [i64], &'a Segd)> for BackPermute {
    fn run_each(
        self,
        shelf: &mut Shelf<bool>,
        parts: &[(&'a [bool], &'a Segd, &'a [i64], &'a Segd)],
    ) -> Result<Vec<Vec<bool>>, AllocError> {
        run_parts(shelf, self, parts)
    }
}

impl<'a> BoolKernel<'a, (&'a [bool], &'a Segd, &'a [i64], &'a Segd)> for BackPermute {
    fn row(self, part: &(&'a [bool], &'a Segd, &'a [i64], &'a Segd)) -> BoolRow<'a> {
        let (items, source, index, by) = *part;
        BoolRow::GatheredSegments(GatheredSegments {
            items,
            source: source.lengths(),
            index,
            by: by.lengths(),
        })
    }
}
