//! The choice between two vectors item by item, on operands that lie in parts.

ghost use Rattle.std.specs.Prelude.{◌≡◌, length};
ghost use Rattle.scan_kernels.specs.Elementwise.{selected};

use crate::joined_rows::{BoolKernel, IntKernel};
use crate::kernel::{JoinedKernel, Kernel, run_parts};
use crate::lists::Selected;
use crate::rows::{BoolRow, IntRow};
use crate::select::chosen;
use crate::shelf::Shelf;
use std::alloc::AllocError;

/// The choice between two vectors by flags.
#[derive(Clone, Copy)]
pub struct Select;

impl<'a> Kernel<(&'a [bool], &'a [i64], &'a [i64])> for Select {
    type Item = i64;

    ghost Takes = { λ kernel p. (length p.0.now ≡ length p.1.now) × (length p.0.now ≡ length p.2.now) };

    ghost makes = { λ kernel p. selected p.0.now p.1.now p.2.now };

    #[inline(always)]
    fn run(
        self,
        shelf: &mut Shelf<i64>,
        part: &(&'a [bool], &'a [i64], &'a [i64]),
    ) -> Result<Vec<i64>, AllocError> {
        chosen(shelf, part.0, part.1, part.2)
    }
}

impl<'a> JoinedKernel<(&'a [bool], &'a [i64], &'a [i64])> for Select {
    fn run_each(
        self,
        shelf: &mut Shelf<i64>,
        parts: &[(&'a [bool], &'a [i64], &'a [i64])],
    ) -> Result<Vec<Vec<i64>>, AllocError> {
        run_parts(shelf, self, parts)
    }
}

impl<'a> IntKernel<'a, (&'a [bool], &'a [i64], &'a [i64])> for Select {
    fn row(self, part: &(&'a [bool], &'a [i64], &'a [i64])) -> IntRow<'a> {
        let (flags, set, unset) = *part;
        IntRow::Selected(Selected { flags, set, unset })
    }
}

impl<'a> Kernel<(&'a [bool], &'a [bool], &'a [bool])> for Select {
    type Item = bool;

    ghost Takes = { λ kernel p. (length p.0.now ≡ length p.1.now) × (length p.0.now ≡ length p.2.now) };

    ghost makes = { λ kernel p. selected p.0.now p.1.now p.2.now };

    #[inline(always)]
    fn run(
        self,
        shelf: &mut Shelf<bool>,
        part: &(&'a [bool], &'a [bool], &'a [bool]),
    ) -> Result<Vec<bool>, AllocError> {
        chosen(shelf, part.0, part.1, part.2)
    }
}

impl<'a> JoinedKernel<(&'a [bool], &'a [bool], &'a [bool])> for Select {
    fn run_each(
        self,
        shelf: &mut Shelf<bool>,
        parts: &[(&'a [bool], &'a [bool], &'a [bool])],
    ) -> Result<Vec<Vec<bool>>, AllocError> {
        run_parts(shelf, self, parts)
    }
}

impl<'a> BoolKernel<'a, (&'a [bool], &'a [bool], &'a [bool])> for Select {
    fn row(self, part: &(&'a [bool], &'a [bool], &'a [bool])) -> BoolRow<'a> {
        let (flags, set, unset) = *part;
        BoolRow::Selected(Selected { flags, set, unset })
    }
}
