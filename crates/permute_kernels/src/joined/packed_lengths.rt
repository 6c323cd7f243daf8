//! How many flags each segment has set, on operands that lie in parts.

ghost use Rattle.std.specs.Prelude.{◌≡◌, length, sum};
ghost use Rattle.scan_kernels.specs.Packed.{numbers_set};

use scan_kernels::{
    IntKernel, IntRow, JoinedKernel, Kernel, SetNumbers, Shelf, run_parts, set_numbers,
};
use segment_desc::Segd;
use std::alloc::AllocError;

/// How many flags each segment has set.
#[derive(Clone, Copy)]
pub struct PackLengths;

impl<'a> Kernel<(&'a [bool], &'a Segd)> for PackLengths {
    type Item = i64;

    ghost Takes = { λ kernel p. sum p.1.now ≡ length p.0.now };

    ghost makes = { λ kernel p. numbers_set p.1.now p.0.now };

    #[inline(always)]
    fn run(
        self,
        shelf: &mut Shelf<i64>,
        part: &(&'a [bool], &'a Segd),
    ) -> Result<Vec<i64>, AllocError> {
        set_numbers(shelf, part.0, part.1.lengths())
    }
}

impl<'a> JoinedKernel<(&'a [bool], &'a Segd)> for PackLengths {
    fn run_each(
        self,
        shelf: &mut Shelf<i64>,
        parts: &[(&'a [bool], &'a Segd)],
    ) -> Result<Vec<Vec<i64>>, AllocError> {
        run_parts(shelf, self, parts)
    }
}

impl<'a> IntKernel<'a, (&'a [bool], &'a Segd)> for PackLengths {
    fn row(self, part: &(&'a [bool], &'a Segd)) -> IntRow<'a> {
        let (flags, segments) = *part;
        IntRow::SetNumbers(SetNumbers {
            flags,
            lengths: segments.lengths(),
        })
    }
}
