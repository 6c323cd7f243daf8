//! A comparison item by item, on operands that lie in parts.

ghost use Rattle.std.specs.Prelude.{◌≡◌, length};
ghost use Rattle.item_operations.specs.IntegerOps.{compares};
ghost use Rattle.scan_kernels.specs.Elementwise.{item_by_item};

use crate::choices::{by_comparison, by_name};
use crate::compare::compared;
use crate::joined_rows::BoolKernel;
use crate::kernel::{JoinedKernel, Kernel, run_parts};
use crate::lists::Compared;
use crate::rows::BoolRow;
use crate::shelf::Shelf;
use item_operations::Cmp;
use std::alloc::AllocError;

impl<'a> Kernel<(&'a [i64], &'a [i64])> for Cmp {
    type Item = bool;

    ghost Takes = { λ op p. length p.0.now ≡ length p.1.now };

    ghost makes = { λ op p. item_by_item (compares op) p.0.now p.1.now };

    #[inline(always)]
    fn run(
        self,
        shelf: &mut Shelf<bool>,
        part: &(&'a [i64], &'a [i64]),
    ) -> Result<Vec<bool>, AllocError> {
        compared(shelf, self, part.0, part.1)
    }
}

impl<'a> JoinedKernel<(&'a [i64], &'a [i64])> for Cmp {
    fn run_each(
        self,
        shelf: &mut Shelf<bool>,
        parts: &[(&'a [i64], &'a [i64])],
    ) -> Result<Vec<Vec<bool>>, AllocError> {
        let op = self;
        by_comparison!(op, run_parts(shelf, op, parts))
    }
}

impl<'a> BoolKernel<'a, (&'a [i64], &'a [i64])> for Cmp {
    fn row(self, part: &(&'a [i64], &'a [i64])) -> BoolRow<'a> {
        let (op, (left, right)) = (self, *part);
        BoolRow::Compared(Compared { op, left, right })
    }
}
