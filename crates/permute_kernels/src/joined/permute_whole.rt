//! Items moved to the places that an index holds, on operands that lie in parts, of which each is one segment.

ghost use Rattle.std.specs.Prelude.{◌≡◌, length};
ghost use Rattle.scan_kernels.specs.Indices.{HoldsEachPlaceOnce};
ghost use Rattle.scan_kernels.specs.Permuted.{permuted};

use crate::permute_whole::permuted_whole;
use scan_kernels::{
    BoolKernel, BoolRow, IntKernel, IntRow, JoinedKernel, Kernel, Permuted, Shelf, run_parts,
};
use std::alloc::AllocError;

/// Items moved by an index.
#[derive(Clone, Copy)]
pub struct PermuteWhole;

impl<'a> Kernel<(&'a [i64], &'a [i64])> for PermuteWhole {
    type Item = i64;

    ghost Takes = { λ kernel p. (length p.1.now ≡ length p.0.now) × HoldsEachPlaceOnce p.1.now };

    ghost makes = { λ kernel p. permuted p.1.now p.0.now };

    #[inline(always)]
    fn run(
        self,
        shelf: &mut Shelf<i64>,
        part: &(&'a [i64], &'a [i64]),
    ) -> Result<Vec<i64>, AllocError> {
        permuted_whole(shelf, part.0, part.1)
    }
}

impl<'a> JoinedKernel<(&'a [i64], &'a [i64])> for PermuteWhole {
    fn run_each(
        self,
        shelf: &mut Shelf<i64>,
        parts: &[(&'a [i64], &'a [i64])],
    ) -> Result<Vec<Vec<i64>>, AllocError> {
        run_parts(shelf, self, parts)
    }
}

impl<'a> IntKernel<'a, (&'a [i64], &'a [i64])> for PermuteWhole {
    fn row(self, part: &(&'a [i64], &'a [i64])) -> IntRow<'a> {
        let (items, index) = *part;
        IntRow::Permuted(Permuted { items, index })
    }
}

impl<'a> Kernel<(&'a [bool], &'a [i64])> for PermuteWhole {
    type Item = bool;

    ghost Takes = { λ kernel p. (length p.1.now ≡ length p.0.now) × HoldsEachPlaceOnce p.1.now };

    ghost makes = { λ kernel p. permuted p.1.now p.0.now };

    #[inline(always)]
    fn run(
        self,
        shelf: &mut Shelf<bool>,
        part: &(&'a [bool], &'a [i64]),
    ) -> Result<Vec<bool>, AllocError> {
        permuted_whole(shelf, part.0, part.1)
    }
}

impl<'a> JoinedKernel<(&'a [bool], &'a [i64])> for PermuteWhole {
    fn run_each(
        self,
        shelf: &mut Shelf<bool>,
        parts: &[(&'a [bool], &'a [i64])],
    ) -> Result<Vec<Vec<bool>>, AllocError> {
        run_parts(shelf, self, parts)
    }
}

impl<'a> BoolKernel<'a, (&'a [bool], &'a [i64])> for PermuteWhole {
    fn row(self, part: &(&'a [bool], &'a [i64])) -> BoolRow<'a> {
        let (items, index) = *part;
        BoolRow::Permuted(Permuted { items, index })
    }
}
