//! Items kept by a flag, on operands that lie in parts.

ghost use Rattle.std.specs.Prelude.{◌≡◌, length};
ghost use Rattle.segment_desc.specs.Cut.{joined};
ghost use Rattle.scan_kernels.specs.Packed.{packed};

use scan_kernels::{
    BoolKernel, BoolRow, IntKernel, IntRow, JoinedKernel, Kernel, PACK_BLOCK, PackedWhole, Shelf,
    number_set, packed, run_parts,
};
use segment_desc::Segd;
use std::alloc::AllocError;

/// Items kept by a flag.
#[derive(Clone, Copy)]
pub struct Pack;

impl<'a> Kernel<(&'a [i64], &'a [bool])> for Pack {
    type Item = i64;

    ghost Takes = { λ kernel p. length p.1.now ≡ length p.0.now };

    ghost makes = { λ kernel p. packed p.1.now p.0.now };

    #[inline(always)]
    fn run(
        self,
        shelf: &mut Shelf<i64>,
        part: &(&'a [i64], &'a [bool]),
    ) -> Result<Vec<i64>, AllocError> {
        packed(shelf, part.0, part.1, &mut [0; PACK_BLOCK])
    }
}

impl<'a> JoinedKernel<(&'a [i64], &'a [bool])> for Pack {
    fn run_each(
        self,
        shelf: &mut Shelf<i64>,
        parts: &[(&'a [i64], &'a [bool])],
    ) -> Result<Vec<Vec<i64>>, AllocError> {
        run_parts(shelf, self, parts)
    }
}

impl<'a> IntKernel<'a, (&'a [i64], &'a [bool])> for Pack {
    fn row(self, part: &(&'a [i64], &'a [bool])) -> IntRow<'a> {
        let (items, flags) = *part;
        IntRow::PackedWhole(PackedWhole {
            items,
            flags,
            total: number_set(flags),
        })
    }
}

impl<'a> Kernel<(&'a [bool], &'a [bool])> for Pack {
    type Item = bool;

    ghost Takes = { λ kernel p. length p.1.now ≡ length p.0.now };

    ghost makes = { λ kernel p. packed p.1.now p.0.now };

    #[inline(always)]
    fn run(
        self,
        shelf: &mut Shelf<bool>,
        part: &(&'a [bool], &'a [bool]),
    ) -> Result<Vec<bool>, AllocError> {
        packed(shelf, part.0, part.1, &mut [false; PACK_BLOCK])
    }
}

impl<'a> JoinedKernel<(&'a [bool], &'a [bool])> for Pack {
    fn run_each(
        self,
        shelf: &mut Shelf<bool>,
        parts: &[(&'a [bool], &'a [bool])],
    ) -> Result<Vec<Vec<bool>>, AllocError> {
        run_parts(shelf, self, parts)
    }
}

impl<'a> BoolKernel<'a, (&'a [bool], &'a [bool])> for Pack {
    fn row(self, part: &(&'a [bool], &'a [bool])) -> BoolRow<'a> {
        let (items, flags) = *part;
        BoolRow::PackedWhole(PackedWhole {
            items,
            flags,
            total: number_set(flags),
        })
    }
}

/// Items kept by a flag, of segments: the packed segments, joined, are the pack of all items.
#[derive(Clone, Copy)]
pub struct PackSegments;

impl<'a> Kernel<(&'a [i64], &'a [bool], &'a Segd)> for PackSegments {
    type Item = i64;

    ghost Takes = { λ kernel p. length p.1.now ≡ length p.0.now };

    ghost makes = { λ kernel p. packed p.1.now p.0.now };

    #[inline(always)]
    fn run(
        self,
        shelf: &mut Shelf<i64>,
        part: &(&'a [i64], &'a [bool], &'a Segd),
    ) -> Result<Vec<i64>, AllocError> {
        Pack.run(shelf, &(part.0, part.1))
    }
}

impl<'a> JoinedKernel<(&'a [i64], &'a [bool], &'a Segd)> for PackSegments {
    fn run_each(
        self,
        shelf: &mut Shelf<i64>,
        parts: &[(&'a [i64], &'a [bool], &'a Segd)],
    ) -> Result<Vec<Vec<i64>>, AllocError> {
        run_parts(shelf, self, parts)
    }
}

impl<'a> IntKernel<'a, (&'a [i64], &'a [bool], &'a Segd)> for PackSegments {
    fn row(self, part: &(&'a [i64], &'a [bool], &'a Segd)) -> IntRow<'a> {
        IntKernel::row(Pack, &(part.0, part.1))
    }
}

impl<'a> Kernel<(&'a [bool], &'a [bool], &'a Segd)> for PackSegments {
    type Item = bool;

    ghost Takes = { λ kernel p. length p.1.now ≡ length p.0.now };

    ghost makes = { λ kernel p. packed p.1.now p.0.now };

    #[inline(always)]
    fn run(
        self,
        shelf: &mut Shelf<bool>,
        part: &(&'a [bool], &'a [bool], &'a Segd),
    ) -> Result<Vec<bool>, AllocError> {
        Pack.run(shelf, &(part.0, part.1))
    }
}

impl<'a> JoinedKernel<(&'a [bool], &'a [bool], &'a Segd)> for PackSegments {
    fn run_each(
        self,
        shelf: &mut Shelf<bool>,
        parts: &[(&'a [bool], &'a [bool], &'a Segd)],
    ) -> Result<Vec<Vec<bool>>, AllocError> {
        run_parts(shelf, self, parts)
    }
}

impl<'a> BoolKernel<'a, (&'a [bool], &'a [bool], &'a Segd)> for PackSegments {
    fn row(self, part: &(&'a [bool], &'a [bool], &'a Segd)) -> BoolRow<'a> {
        BoolKernel::row(Pack, &(part.0, part.1))
    }
}
