//! The exclusive scan of each part, which is one segment.

ghost use Rattle.item_operations.specs.BooleanScans.{combine_b, unit_b};
ghost use Rattle.item_operations.specs.IntegerScans.{combine_z, unit_z};
ghost use Rattle.scan_kernels.specs.Segmented.{scanned};

use crate::choices::{by_name, by_scan_b, by_scan_z};
use crate::joined_rows::{BoolKernel, IntKernel};
use crate::kernel::{JoinedKernel, Kernel, run_parts};
use crate::prefixes::Prefixes;
use crate::rows::{BoolRow, IntRow};
use crate::shelf::Shelf;
use crate::whole::scan_whole;
use item_operations::{ScanB, ScanZ};
use std::alloc::AllocError;

/// The scan of all of a part of integers.
#[derive(Clone, Copy)]
pub struct ScanInts(pub ScanZ);

impl<'a> Kernel<&'a [i64]> for ScanInts {
    type Item = i64;

    ghost Takes = { λ kernel p. Unit {0} };

    ghost makes = { λ kernel p. scanned (combine_z kernel.0) (unit_z kernel.0) p.now };

    #[inline(always)]
    fn run(self, shelf: &mut Shelf<i64>, part: &&'a [i64]) -> Result<Vec<i64>, AllocError> {
        scan_whole(shelf, self.0, part)
    }
}

impl<'a> JoinedKernel<&'a [i64]> for ScanInts {
    fn run_each(
        self,
        shelf: &mut Shelf<i64>,
        parts: &[&'a [i64]],
    ) -> Result<Vec<Vec<i64>>, AllocError> {
        let op = self.0;
        by_scan_z!(op, run_parts(shelf, ScanInts(op), parts))
    }
}

impl<'a> IntKernel<'a, &'a [i64]> for ScanInts {
    fn row(self, part: &&'a [i64]) -> IntRow<'a> {
        IntRow::Prefixes(Prefixes {
            op: self.0,
            items: part,
        })
    }
}

/// The scan of all of a part of truth values.
#[derive(Clone, Copy)]
pub struct ScanBools(pub ScanB);

impl<'a> Kernel<&'a [bool]> for ScanBools {
    type Item = bool;

    ghost Takes = { λ kernel p. Unit {0} };

    ghost makes = { λ kernel p. scanned (combine_b kernel.0) (unit_b kernel.0) p.now };

    #[inline(always)]
    fn run(self, shelf: &mut Shelf<bool>, part: &&'a [bool]) -> Result<Vec<bool>, AllocError> {
        scan_whole(shelf, self.0, part)
    }
}

impl<'a> JoinedKernel<&'a [bool]> for ScanBools {
    fn run_each(
        self,
        shelf: &mut Shelf<bool>,
        parts: &[&'a [bool]],
    ) -> Result<Vec<Vec<bool>>, AllocError> {
        let op = self.0;
        by_scan_b!(op, run_parts(shelf, ScanBools(op), parts))
    }
}

impl<'a> BoolKernel<'a, &'a [bool]> for ScanBools {
    fn row(self, part: &&'a [bool]) -> BoolRow<'a> {
        BoolRow::Prefixes(Prefixes {
            op: self.0,
            items: part,
        })
    }
}
