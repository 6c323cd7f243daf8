//! What is made without a kernel: copies, zeros, and the lengths of segments.

ghost use Rattle.std.specs.Prelude.{◌≡◌, IfOk};
ghost use Rattle.cvl_calls.specs.Judging.{IsReady, made};
ghost use Rattle.cvl_calls.specs.Outcomes.{effect_of};

use crate::judged::Judged;
use crate::product::Product;
use crate::spare::Spare;
use cvl_text::Reply;
use scan_kernels::Source;
use segment_desc::{OutOfMemory, Segd};
use std::alloc::{AllocError, Global};
use vector_memory::Value;

/// The items again, in a vector that was kept if one is as large.
#[inline(always)]
fn copy<T: Copy>(source: impl Source<T>, items: &[T]) -> Result<Vec<T>, AllocError>
    ensures { IfOk result (λ v. v.items ≡ items.now) }
{
    let mut made = source.vector(items.len())?;
    made.extend_from_slice(items)?;
    Ok(made)
}

/// The integers of a line.
#[inline(always)]
pub(crate) fn copied_ints(spare: &mut Spare, xs: &[i64]) -> Result<Product, OutOfMemory>
    ensures { IfOk result (λ product. effect_of product ≡ made (Judged.SetInts xs.entry)) }
{
    Ok(Product::Store(Value::Ints(copy(spare, xs)?)))
}

/// The truth values of a line.
#[inline(always)]
pub(crate) fn copied_bools(spare: &mut Spare, xs: &[bool]) -> Result<Product, OutOfMemory>
    ensures { IfOk result (λ product. effect_of product ≡ made (Judged.SetBools xs.entry)) }
{
    Ok(Product::Store(Value::Bools(copy(spare, xs)?)))
}

/// The value, to be replied.
#[inline(always)]
pub(crate) fn replied(value: &Value) -> Result<Product, OutOfMemory>
    ensures { IfOk result (λ product. effect_of product ≡ made (Judged.Get value.entry)) }
{
    Ok(Product::Reply(Reply::Vector(value.try_copy()?)))
}

/// The value, to be stored as well.
#[inline(always)]
pub(crate) fn copied(value: &Value) -> Result<Product, OutOfMemory>
    ensures { IfOk result (λ product. effect_of product ≡ made (Judged.Mov value.entry)) }
{
    Ok(Product::Store(value.try_copy()?))
}

/// So many zeros.
#[inline(always)]
pub(crate) fn zeros(alloc: Global, count: usize) -> Result<Product, OutOfMemory>
    ensures { IfOk result (λ product. effect_of product ≡ made (Judged.Alo count)) }
{
    Ok(Product::Store(Value::Ints(vec![in alloc; 0; count]?)))
}

/// The segment list of the lengths, whose sum is `total`.
#[inline(always)]
pub(crate) fn segments_of(
    alloc: Global,
    lengths: &[i64],
    total: usize,
) -> Result<Product, OutOfMemory>
    requires { IsReady (Judged.MakeSegs lengths total) }
    ensures { IfOk result (λ product. effect_of product ≡ made (Judged.MakeSegs lengths.entry total)) }
{
    Ok(Product::Store(Value::Segs(Segd::of_lengths(alloc, lengths, total)?)))
}

/// The lengths of the segments.
#[inline(always)]
pub(crate) fn lengths_of(alloc: Global, segments: &Segd) -> Result<Product, OutOfMemory>
    ensures { IfOk result (λ product. effect_of product ≡ made (Judged.LenSegs segments.entry)) }
{
    let mut lengths = Vec::new(alloc);
    segments.lengths_into(&mut lengths)?;
    Ok(Product::Store(Value::Ints(lengths)))
}

/// The items, with another at one place.
#[inline(always)]
pub(crate) fn replaced(
    spare: &mut Spare,
    xs: &[i64],
    place: usize,
    x: i64,
) -> Result<Product, OutOfMemory>
    requires { IsReady (Judged.Rep xs place x) }
    ensures { IfOk result (λ product. effect_of product ≡ made (Judged.Rep xs.entry place x)) }
{
    let mut made = copy(spare, xs)?;
    made[place] = x;
    Ok(Product::Store(Value::Ints(made)))
}
