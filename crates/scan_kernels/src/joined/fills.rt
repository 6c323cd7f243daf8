//! An item so many times, and integers that rise by a stride: each part is one segment.

ghost use Rattle.std.specs.Prelude.{◌≤◌, replicate};
ghost use Rattle.segment_desc.specs.Lengths.{most};
ghost use Rattle.scan_kernels.specs.Indexed.{indexed};

use crate::fills::{Repeated, Rising};
use crate::joined_rows::{BoolKernel, IntKernel};
use crate::kernel::{JoinedKernel, Kernel, run_parts};
use crate::rows::{BoolRow, IntRow};
use crate::shelf::Shelf;
use crate::whole::{repeated, rising};
use std::alloc::AllocError;

/// An item so many times.
#[derive(Clone, Copy)]
pub struct Repeat;

impl Kernel<(i64, usize)> for Repeat {
    type Item = i64;

    ghost Takes = { λ kernel p. Unit {0} };

    ghost makes = { λ kernel p. replicate p.1 p.0 };

    #[inline(always)]
    fn run(self, shelf: &mut Shelf<i64>, part: &(i64, usize)) -> Result<Vec<i64>, AllocError> {
        repeated(shelf, part.0, part.1)
    }
}

impl JoinedKernel<(i64, usize)> for Repeat {
    fn run_each(
        self,
        shelf: &mut Shelf<i64>,
        parts: &[(i64, usize)],
    ) -> Result<Vec<Vec<i64>>, AllocError> {
        run_parts(shelf, self, parts)
    }
}

impl<'a> IntKernel<'a, (i64, usize)> for Repeat {
    fn row(self, part: &(i64, usize)) -> IntRow<'a> {
        let (item, count) = *part;
        IntRow::Repeated(Repeated { item, count })
    }
}

impl Kernel<(bool, usize)> for Repeat {
    type Item = bool;

    ghost Takes = { λ kernel p. Unit {0} };

    ghost makes = { λ kernel p. replicate p.1 p.0 };

    #[inline(always)]
    fn run(self, shelf: &mut Shelf<bool>, part: &(bool, usize)) -> Result<Vec<bool>, AllocError> {
        repeated(shelf, part.0, part.1)
    }
}

impl JoinedKernel<(bool, usize)> for Repeat {
    fn run_each(
        self,
        shelf: &mut Shelf<bool>,
        parts: &[(bool, usize)],
    ) -> Result<Vec<Vec<bool>>, AllocError> {
        run_parts(shelf, self, parts)
    }
}

impl<'a> BoolKernel<'a, (bool, usize)> for Repeat {
    fn row(self, part: &(bool, usize)) -> BoolRow<'a> {
        let (item, count) = *part;
        BoolRow::Repeated(Repeated { item, count })
    }
}

/// Integers from a start on by a stride.
#[derive(Clone, Copy)]
pub struct Index;

impl Kernel<(i64, i64, usize)> for Index {
    type Item = i64;

    ghost Takes = { λ kernel p. p.2 ≤ most };

    ghost makes = { λ kernel p. indexed p.0 p.1 p.2 };

    #[inline(always)]
    fn run(self, shelf: &mut Shelf<i64>, part: &(i64, i64, usize)) -> Result<Vec<i64>, AllocError> {
        rising(shelf, part.0, part.1, part.2)
    }
}

impl JoinedKernel<(i64, i64, usize)> for Index {
    fn run_each(
        self,
        shelf: &mut Shelf<i64>,
        parts: &[(i64, i64, usize)],
    ) -> Result<Vec<Vec<i64>>, AllocError> {
        run_parts(shelf, self, parts)
    }
}

impl<'a> IntKernel<'a, (i64, i64, usize)> for Index {
    fn row(self, part: &(i64, i64, usize)) -> IntRow<'a> {
        let (start, stride, count) = *part;
        IntRow::Rising(Rising {
            start,
            stride,
            count,
        })
    }
}
