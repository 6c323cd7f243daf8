//! An operation item by item, on operands that lie in parts.

ghost use Rattle.std.specs.Prelude.{◌≡◌, length, map, All};
ghost use Rattle.item_operations.specs.IntegerOps.{IsAllowed, alter_z, apply_z};
ghost use Rattle.item_operations.specs.BooleanOps.{alter_b, apply_b};
ghost use Rattle.scan_kernels.specs.Elementwise.{item_by_item};

use crate::choices::{by_b1, by_b2, by_name, by_z1, by_z2};
use crate::joined_rows::{BoolKernel, IntKernel};
use crate::kernel::{JoinedKernel, Kernel, run_parts};
use crate::lists::{AlteredBools, AlteredInts, AppliedBools, AppliedInts};
use crate::map::{altered_b, altered_z, applied_b, applied_z};
use crate::rows::{BoolRow, IntRow};
use crate::shelf::Shelf;
use item_operations::{B1, B2, Z1, Z2};
use std::alloc::AllocError;

impl<'a> Kernel<&'a [i64]> for Z1 {
    type Item = i64;

    ghost Takes = { λ op p. Unit {0} };

    ghost makes = { λ op p. map (alter_z op) p.now };

    #[inline(always)]
    fn run(self, shelf: &mut Shelf<i64>, part: &&'a [i64]) -> Result<Vec<i64>, AllocError> {
        altered_z(shelf, self, part)
    }
}

impl<'a> JoinedKernel<&'a [i64]> for Z1 {
    fn run_each(
        self,
        shelf: &mut Shelf<i64>,
        parts: &[&'a [i64]],
    ) -> Result<Vec<Vec<i64>>, AllocError> {
        let op = self;
        by_z1!(op, run_parts(shelf, op, parts))
    }
}

impl<'a> IntKernel<'a, &'a [i64]> for Z1 {
    fn row(self, part: &&'a [i64]) -> IntRow<'a> {
        let op = self;
        IntRow::Altered(AlteredInts { op, items: part })
    }
}

impl<'a> Kernel<&'a [bool]> for B1 {
    type Item = bool;

    ghost Takes = { λ op p. Unit {0} };

    ghost makes = { λ op p. map (alter_b op) p.now };

    #[inline(always)]
    fn run(self, shelf: &mut Shelf<bool>, part: &&'a [bool]) -> Result<Vec<bool>, AllocError> {
        altered_b(shelf, self, part)
    }
}

impl<'a> JoinedKernel<&'a [bool]> for B1 {
    fn run_each(
        self,
        shelf: &mut Shelf<bool>,
        parts: &[&'a [bool]],
    ) -> Result<Vec<Vec<bool>>, AllocError> {
        let op = self;
        by_b1!(op, run_parts(shelf, op, parts))
    }
}

impl<'a> BoolKernel<'a, &'a [bool]> for B1 {
    fn row(self, part: &&'a [bool]) -> BoolRow<'a> {
        let op = self;
        BoolRow::Altered(AlteredBools { op, items: part })
    }
}

impl<'a> Kernel<(&'a [i64], &'a [i64])> for Z2 {
    type Item = i64;

    ghost Takes = { λ op p. (length p.0.now ≡ length p.1.now) × All (IsAllowed op) p.1.now };

    ghost makes = { λ op p. item_by_item (apply_z op) p.0.now p.1.now };

    #[inline(always)]
    fn run(
        self,
        shelf: &mut Shelf<i64>,
        part: &(&'a [i64], &'a [i64]),
    ) -> Result<Vec<i64>, AllocError> {
        applied_z(shelf, self, part.0, part.1)
    }
}

impl<'a> JoinedKernel<(&'a [i64], &'a [i64])> for Z2 {
    fn run_each(
        self,
        shelf: &mut Shelf<i64>,
        parts: &[(&'a [i64], &'a [i64])],
    ) -> Result<Vec<Vec<i64>>, AllocError> {
        let op = self;
        by_z2!(op, run_parts(shelf, op, parts))
    }
}

impl<'a> IntKernel<'a, (&'a [i64], &'a [i64])> for Z2 {
    fn row(self, part: &(&'a [i64], &'a [i64])) -> IntRow<'a> {
        let (op, (left, right)) = (self, *part);
        IntRow::Applied(AppliedInts { op, left, right })
    }
}

impl<'a> Kernel<(&'a [bool], &'a [bool])> for B2 {
    type Item = bool;

    ghost Takes = { λ op p. length p.0.now ≡ length p.1.now };

    ghost makes = { λ op p. item_by_item (apply_b op) p.0.now p.1.now };

    #[inline(always)]
    fn run(
        self,
        shelf: &mut Shelf<bool>,
        part: &(&'a [bool], &'a [bool]),
    ) -> Result<Vec<bool>, AllocError> {
        applied_b(shelf, self, part.0, part.1)
    }
}

impl<'a> JoinedKernel<(&'a [bool], &'a [bool])> for B2 {
    fn run_each(
        self,
        shelf: &mut Shelf<bool>,
        parts: &[(&'a [bool], &'a [bool])],
    ) -> Result<Vec<Vec<bool>>, AllocError> {
        let op = self;
        by_b2!(op, run_parts(shelf, op, parts))
    }
}

impl<'a> BoolKernel<'a, (&'a [bool], &'a [bool])> for B2 {
    fn row(self, part: &(&'a [bool], &'a [bool])) -> BoolRow<'a> {
        let (op, (left, right)) = (self, *part);
        BoolRow::Applied(AppliedBools { op, left, right })
    }
}
