//! Items read from the places that an index holds, on operands that lie in parts, of which each is one segment.

ghost use Rattle.std.specs.Prelude.{length, All};
ghost use Rattle.scan_kernels.specs.Indices.{IsPlaceOf};
ghost use Rattle.scan_kernels.specs.Gathered.{gathered};

use crate::gather::gathered;
use scan_kernels::{
    BoolKernel, BoolRow, Gathered, IntKernel, IntRow, JoinedKernel, Kernel, Shelf, run_parts,
};
use std::alloc::AllocError;

/// Items read by an index.
#[derive(Clone, Copy)]
pub struct Gather;

impl<'a> Kernel<(&'a [i64], &'a [i64])> for Gather {
    type Item = i64;

    ghost Takes = { λ kernel p. All (IsPlaceOf (length p.0.now)) p.1.now };

    ghost makes = { λ kernel p. gathered p.1.now p.0.now };

    #[inline(always)]
    fn run(
        self,
        shelf: &mut Shelf<i64>,
        part: &(&'a [i64], &'a [i64]),
    ) -> Result<Vec<i64>, AllocError> {
        gathered(shelf, part.0, part.1)
    }
}

impl<'a> JoinedKernel<(&'a [i64], &'a [i64])> for Gather {
    fn run_each(
        self,
        shelf: &mut Shelf<i64>,
        parts: &[(&'a [i64], &'a [i64])],
    ) -> Result<Vec<Vec<i64>>, AllocError> {
        run_parts(shelf, self, parts)
    }
}

impl<'a> IntKernel<'a, (&'a [i64], &'a [i64])> for Gather {
    fn row(self, part: &(&'a [i64], &'a [i64])) -> IntRow<'a> {
        let (items, index) = *part;
        IntRow::Gathered(Gathered { items, index })
    }
}

impl<'a> Kernel<(&'a [bool], &'a [i64])> for Gather {
    type Item = bool;

    ghost Takes = { λ kernel p. All (IsPlaceOf (length p.0.now)) p.1.now };

    ghost makes = { λ kernel p. gathered p.1.now p.0.now };

    #[inline(always)]
    fn run(
        self,
        shelf: &mut Shelf<bool>,
        part: &(&'a [bool], &'a [i64]),
    ) -> Result<Vec<bool>, AllocError> {
        gathered(shelf, part.0, part.1)
    }
}

impl<'a> JoinedKernel<(&'a [bool], &'a [i64])> for Gather {
    fn run_each(
        self,
        shelf: &mut Shelf<bool>,
        parts: &[(&'a [bool], &'a [i64])],
    ) -> Result<Vec<Vec<bool>>, AllocError> {
        run_parts(shelf, self, parts)
    }
}

impl<'a> BoolKernel<'a, (&'a [bool], &'a [i64])> for Gather {
    fn row(self, part: &(&'a [bool], &'a [i64])) -> BoolRow<'a> {
        let (items, index) = *part;
        BoolRow::Gathered(Gathered { items, index })
    }
}
