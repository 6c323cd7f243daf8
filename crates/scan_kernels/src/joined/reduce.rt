//! The reduction of each segment, on operands that lie in parts.

ghost use Rattle.std.specs.Prelude.{◌≡◌, length, sum};
ghost use Rattle.item_operations.specs.BooleanScans.{combine_b, unit_b};
ghost use Rattle.item_operations.specs.IntegerScans.{combine_z, unit_z};
ghost use Rattle.scan_kernels.specs.Segmented.{segmented_reduce};

use crate::choices::{by_name, by_scan_b, by_scan_z};
use crate::joined_rows::{BoolKernel, IntKernel};
use crate::kernel::{JoinedKernel, Kernel, run_parts};
use crate::reduce::reduce;
use crate::reductions::{ReducedBools, ReducedInts};
use crate::rows::{BoolRow, IntRow};
use crate::shelf::Shelf;
use item_operations::{ScanB, ScanZ};
use segment_desc::Segd;
use std::alloc::AllocError;

/// The reduction of each segment of integers.
#[derive(Clone, Copy)]
pub struct ReduceIntSegments(pub ScanZ);

impl<'a> Kernel<(&'a [i64], &'a Segd)> for ReduceIntSegments {
    type Item = i64;

    ghost Takes = { λ kernel p. sum p.1.now ≡ length p.0.now };

    ghost makes = { λ kernel p. segmented_reduce (combine_z kernel.0) (unit_z kernel.0) p.1.now p.0.now };

    #[inline(always)]
    fn run(
        self,
        shelf: &mut Shelf<i64>,
        part: &(&'a [i64], &'a Segd),
    ) -> Result<Vec<i64>, AllocError> {
        reduce(shelf, self.0, part.0, part.1.lengths())
    }
}

impl<'a> JoinedKernel<(&'a [i64], &'a Segd)> for ReduceIntSegments {
    fn run_each(
        self,
        shelf: &mut Shelf<i64>,
        parts: &[(&'a [i64], &'a Segd)],
    ) -> Result<Vec<Vec<i64>>, AllocError> {
        let ReduceIntSegments(op) = self;
        by_scan_z!(op, run_parts(shelf, ReduceIntSegments(op), parts))
    }
}

impl<'a> IntKernel<'a, (&'a [i64], &'a Segd)> for ReduceIntSegments {
    fn row(self, part: &(&'a [i64], &'a Segd)) -> IntRow<'a> {
        let (items, segments) = *part;
        IntRow::Reduced(ReducedInts {
            op: self.0,
            items,
            lengths: segments.lengths(),
        })
    }
}

/// The reduction of each segment of truth values.
#[derive(Clone, Copy)]
pub struct ReduceBoolSegments(pub ScanB);

impl<'a> Kernel<(&'a [bool], &'a Segd)> for ReduceBoolSegments {
    type Item = bool;

    ghost Takes = { λ kernel p. sum p.1.now ≡ length p.0.now };

    ghost makes = { λ kernel p. segmented_reduce (combine_b kernel.0) (unit_b kernel.0) p.1.now p.0.now };

    #[inline(always)]
    fn run(
        self,
        shelf: &mut Shelf<bool>,
        part: &(&'a [bool], &'a Segd),
    ) -> Result<Vec<bool>, AllocError> {
        reduce(shelf, self.0, part.0, part.1.lengths())
    }
}

impl<'a> JoinedKernel<(&'a [bool], &'a Segd)> for ReduceBoolSegments {
    fn run_each(
        self,
        shelf: &mut Shelf<bool>,
        parts: &[(&'a [bool], &'a Segd)],
    ) -> Result<Vec<Vec<bool>>, AllocError> {
        let ReduceBoolSegments(op) = self;
        by_scan_b!(op, run_parts(shelf, ReduceBoolSegments(op), parts))
    }
}

impl<'a> BoolKernel<'a, (&'a [bool], &'a Segd)> for ReduceBoolSegments {
    fn row(self, part: &(&'a [bool], &'a Segd)) -> BoolRow<'a> {
        let (items, segments) = *part;
        BoolRow::Reduced(ReducedBools {
            op: self.0,
            items,
            lengths: segments.lengths(),
        })
    }
}
