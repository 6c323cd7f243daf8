//! Each value as often as its segment is long, on operands that lie in parts.

ghost use Rattle.std.specs.Prelude.{◌≡◌, length};
ghost use Rattle.scan_kernels.specs.Distributed.{distributed};

use crate::distribute::distribute;
use crate::fills_by_segments::Distributed;
use crate::joined_rows::{BoolKernel, IntKernel};
use crate::kernel::{JoinedKernel, Kernel, run_parts};
use crate::rows::{BoolRow, IntRow};
use crate::shelf::Shelf;
use segment_desc::Segd;
use std::alloc::AllocError;

/// Each value as often as its segment is long.
#[derive(Clone, Copy)]
pub struct Distribute;

impl<'a> Kernel<(&'a [i64], &'a Segd)> for Distribute {
    type Item = i64;

    ghost Takes = { λ kernel p. length p.1.now ≡ length p.0.now };

    ghost makes = { λ kernel p. distributed p.1.now p.0.now };

    #[inline(always)]
    fn run(
        self,
        shelf: &mut Shelf<i64>,
        part: &(&'a [i64], &'a Segd),
    ) -> Result<Vec<i64>, AllocError> {
        distribute(shelf, part.0, part.1.lengths(), part.1.total())
    }
}

impl<'a> JoinedKernel<(&'a [i64], &'a Segd)> for Distribute {
    fn run_each(
        self,
        shelf: &mut Shelf<i64>,
        parts: &[(&'a [i64], &'a Segd)],
    ) -> Result<Vec<Vec<i64>>, AllocError> {
        run_parts(shelf, self, parts)
    }
}

impl<'a> IntKernel<'a, (&'a [i64], &'a Segd)> for Distribute {
    fn row(self, part: &(&'a [i64], &'a Segd)) -> IntRow<'a> {
        let (values, segments) = *part;
        IntRow::Distributed(Distributed {
            values,
            lengths: segments.lengths(),
            total: segments.total(),
        })
    }
}

impl<'a> Kernel<(&'a [bool], &'a Segd)> for Distribute {
    type Item = bool;

    ghost Takes = { λ kernel p. length p.1.now ≡ length p.0.now };

    ghost makes = { λ kernel p. distributed p.1.now p.0.now };

    #[inline(always)]
    fn run(
        self,
        shelf: &mut Shelf<bool>,
        part: &(&'a [bool], &'a Segd),
    ) -> Result<Vec<bool>, AllocError> {
        distribute(shelf, part.0, part.1.lengths(), part.1.total())
    }
}

impl<'a> JoinedKernel<(&'a [bool], &'a Segd)> for Distribute {
    fn run_each(
        self,
        shelf: &mut Shelf<bool>,
        parts: &[(&'a [bool], &'a Segd)],
    ) -> Result<Vec<Vec<bool>>, AllocError> {
        run_parts(shelf, self, parts)
    }
}

impl<'a> BoolKernel<'a, (&'a [bool], &'a Segd)> for Distribute {
    fn row(self, part: &(&'a [bool], &'a Segd)) -> BoolRow<'a> {
        let (values, segments) = *part;
        BoolRow::Distributed(Distributed {
            values,
            lengths: segments.lengths(),
            total: segments.total(),
        })
    }
}
