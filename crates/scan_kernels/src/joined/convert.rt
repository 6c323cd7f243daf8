//! Integers as truth values and truth values as integers, on operands that lie in parts.

ghost use Rattle.std.specs.Prelude.{map};
ghost use Rattle.scan_kernels.specs.Elementwise.{as_number, is_true};

use crate::convert::{numbers, truths};
use crate::joined_rows::{BoolKernel, IntKernel};
use crate::kernel::{JoinedKernel, Kernel, run_parts};
use crate::lists::{Numbers, Truths};
use crate::rows::{BoolRow, IntRow};
use crate::shelf::Shelf;
use std::alloc::AllocError;

/// Integers as truth values.
#[derive(Clone, Copy)]
pub struct Truth;

impl<'a> Kernel<&'a [i64]> for Truth {
    type Item = bool;

    ghost Takes = { λ kernel p. Unit {0} };

    ghost makes = { λ kernel p. map is_true p.now };

    #[inline(always)]
    fn run(self, shelf: &mut Shelf<bool>, part: &&'a [i64]) -> Result<Vec<bool>, AllocError> {
        truths(shelf, part)
    }
}

impl<'a> JoinedKernel<&'a [i64]> for Truth {
    fn run_each(
        self,
        shelf: &mut Shelf<bool>,
        parts: &[&'a [i64]],
    ) -> Result<Vec<Vec<bool>>, AllocError> {
        run_parts(shelf, self, parts)
    }
}

impl<'a> BoolKernel<'a, &'a [i64]> for Truth {
    fn row(self, part: &&'a [i64]) -> BoolRow<'a> {
        BoolRow::Truths(Truths { items: part })
    }
}

/// Truth values as integers.
#[derive(Clone, Copy)]
pub struct Number;

impl<'a> Kernel<&'a [bool]> for Number {
    type Item = i64;

    ghost Takes = { λ kernel p. Unit {0} };

    ghost makes = { λ kernel p. map as_number p.now };

    #[inline(always)]
    fn run(self, shelf: &mut Shelf<i64>, part: &&'a [bool]) -> Result<Vec<i64>, AllocError> {
        numbers(shelf, part)
    }
}

impl<'a> JoinedKernel<&'a [bool]> for Number {
    fn run_each(
        self,
        shelf: &mut Shelf<i64>,
        parts: &[&'a [bool]],
    ) -> Result<Vec<Vec<i64>>, AllocError> {
        run_parts(shelf, self, parts)
    }
}

impl<'a> IntKernel<'a, &'a [bool]> for Number {
    fn row(self, part: &&'a [bool]) -> IntRow<'a> {
        IntRow::Numbers(Numbers { items: part })
    }
}
