//! Kernels as values: one kernel runs over operands that lie in parts, as those of alike calls do, and each part has a result of
//! its own. Nothing is copied, and the operation is chosen once for all parts.

ghost use Rattle.std.specs.Prelude.{◌≡◌, List, map, All, IfOk};
ghost use Rattle.segment_desc.specs.Appended.{IsExact};
ghost use Rattle.scan_kernels.specs.Metering.{CountsRun};
ghost use Rattle.scan_kernels.specs.Parts.{parts_made};

use crate::execution::Execution;
use crate::meter::Meter;
use crate::shelf::Shelf;
use segment_desc::OutOfMemory;
use std::alloc::{AllocError, Global};

/// A kernel with its operation, for parts of one kind: the lent operands of one call.
pub trait Kernel<P>: Copy {
    /// What its results hold.
    type Item: Copy;

    /// Which parts it takes.
    ghost Takes: { Self → P → Type 0 };

    /// What it makes of a part.
    ghost makes: { Self → P → List Self.Item };

    /// The result of a part, in a vector of its final size, off the shelf where one lies there.
    fn run(self, shelf: &mut Shelf<Self::Item>, part: &P) -> Result<Vec<Self::Item>, AllocError>
        requires { Takes self part.now }
        ensures items { IfOk result (λ v. v.items ≡ makes self part.now) }
        ensures exact { IfOk result (λ v. IsExact v) };
}

/// A kernel that runs over joined operands.
pub trait JoinedKernel<P>: Kernel<P> {
    /// The results of all parts, one after another.
    fn run_each(
        self,
        shelf: &mut Shelf<Self::Item>,
        parts: &[P],
    ) -> Result<Vec<Vec<Self::Item>>, AllocError>
        requires { All (Self.Takes self) parts.now }
        ensures parts { IfOk result (λ made. parts_made made.items ≡ map (Self.makes self) parts.now) }
        ensures exact { IfOk result (λ made. All IsExact made.items) };
}

/// One kernel run over joined operands: its result lies in parts as well, each in a vector of its own. What a kernel makes of
/// joined operands is what it makes of the parts, joined (Blelloch 1990).
pub fn run_joined<P, K: JoinedKernel<P>>(
    _execution: &impl Execution,
    alloc: Global,
    meter: &mut Meter,
    kernel: K,
    parts: &[P],
) -> Result<Vec<Vec<K::Item>>, OutOfMemory>
    requires { All (K.Takes kernel) parts.now }
    ensures parts { IfOk result (λ made. parts_made made.items ≡ map (K.makes kernel) parts.now) }
    ensures exact { IfOk result (λ made. All IsExact made.items) }
    ensures counted { CountsRun result meter.old meter.new }
{
    let made = kernel.run_each(&mut Shelf::new(alloc), parts)?;
    meter.raise();
    Ok(made)
}

/// The results of all parts, where the operation is chosen.
#[inline(always)]
pub fn run_parts<P, K: Kernel<P>>(
    shelf: &mut Shelf<K::Item>,
    kernel: K,
    parts: &[P],
) -> Result<Vec<Vec<K::Item>>, AllocError>
    requires { All (K.Takes kernel) parts.now }
    ensures parts { IfOk result (λ made. parts_made made.items ≡ map (K.makes kernel) parts.now) }
    ensures exact { IfOk result (λ made. All IsExact made.items) }
{
    let mut made = shelf.take_list(parts.len())?;
    for part in parts {
        made.push_reserved(kernel.run(shelf, part)?);
    }
    Ok(made)
}
