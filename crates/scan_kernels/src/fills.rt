//! An item so many times, and integers that rise by a stride, as lists of which each part is written by itself.

ghost use Rattle.std.specs.Prelude.{◌≡◌, ◌≤◌, Some, replicate, slice_get};
ghost use Rattle.segment_desc.specs.Lengths.{most};
ghost use Rattle.scan_kernels.specs.Indexed.{indexed};

use crate::indices::index_at;
use crate::placewise::Placewise;
use std::alloc::AllocError;

/// An item so many times.
#[derive(Copy)]
pub struct Repeated<T> {
    pub item: T,
    pub count: usize,
}

// By hand, since a derived clone goes field by field, which takes the prover as long as a kernel.
impl<T: Copy> Clone for Repeated<T> {
    fn clone(&self) -> Result<Self, AllocError> {
        Ok(*self)
    }
}

impl<T: Copy> Placewise<T> for Repeated<T> {
    ghost Fits = { λ l. Unit {0} };

    ghost items = { λ l. replicate l.count l.item };

    #[inline(always)]
    fn count(&self) -> usize {
        self.count
    }

    #[inline(always)]
    fn at(&self, _place: usize) -> T {
        self.item
    }
}

/// So many integers from a start on by a stride, which wrap.
#[derive(Clone, Copy)]
pub struct Rising {
    pub start: i64,
    pub stride: i64,
    pub count: usize,
}

impl Placewise<i64> for Rising {
    ghost Fits = { λ l. l.count ≤ most };

    ghost items = { λ l. indexed l.start l.stride l.count };

    #[inline(always)]
    fn count(&self) -> usize {
        self.count
    }

    #[inline(always)]
    fn at(&self, place: usize) -> i64 {
        index_at(self.start, self.stride, place)
    }
}
