//! A box whose pointer and allocator are in sight of this crate.

ghost use Rattle.std.specs.Prelude.{◌≡◌};
ghost use Rattle.std.specs.Box.Ownership.{box_owns};

use std::alloc::Allocator;
use std::marker::Model;

/// It owns what the box owned.
pub(crate) struct OpenBox<T, A: Allocator> {
    pub(crate) ptr: *mut T,
    pub(crate) alloc: A,
    pub(crate) ghost value: { T },
}

impl<T, A: Allocator> Model for OpenBox<T, A> {
    ghost also_owns = { λ b. box_owns (A.dealloc_token b.alloc) T.row b.ptr b.value };
}

impl<T, A: Allocator> OpenBox<T, A> {
    pub(crate) fn of(shut: Box<T, A>) -> OpenBox<T, A>
    where
        T: Drop,
        ensures { result.value ≡ shut.value }
    {
        let (ptr, alloc) = Box::into_raw_with_allocator(shut);
        OpenBox { ptr, alloc }
    }

    pub(crate) fn shut(self) -> Box<T, A>
        ensures { result.value ≡ self.value }
    {
        let OpenBox { ptr, alloc } = self;
        unsafe { Box::from_raw(alloc, ptr) }
    }
}
