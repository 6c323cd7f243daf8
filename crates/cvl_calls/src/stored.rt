//! A vector that was made, as what a call makes: the value for its target. A want of memory stays one, and a run is counted
//! where it was.

ghost use Rattle.std.specs.Prelude.{◌≡◌, ℤ, Bool, List, IfOk};
ghost use Rattle.scan_kernels.specs.Metering.{CountsRun, Metered};
ghost use Rattle.vector_memory.specs.Contents.{Bools, Ints};
ghost use Rattle.cvl_calls.specs.Outcomes.{Stores, effect_of};

use crate::product::Product;
use segment_desc::OutOfMemory;
use vector_memory::Value;

#[inline(always)]
pub(crate) fn stored_ints(vector: Result<Vec<i64>, OutOfMemory>) -> Result<Product, OutOfMemory>
    ensures makes { (xs : List ℤ) → IfOk vector (λ v. v.items ≡ xs) → IfOk result (λ product. effect_of product ≡ Stores (Ints xs)) }
    ensures counted { (old new : Metered) → CountsRun vector old new → CountsRun result old new }
{
    Ok(Product::Store(Value::Ints(vector?)))
}

#[inline(always)]
pub(crate) fn stored_bools(vector: Result<Vec<bool>, OutOfMemory>) -> Result<Product, OutOfMemory>
    ensures makes { (bs : List Bool) → IfOk vector (λ v. v.items ≡ bs) → IfOk result (λ product. effect_of product ≡ Stores (Bools bs)) }
    ensures counted { (old new : Metered) → CountsRun vector old new → CountsRun result old new }
{
    Ok(Product::Store(Value::Bools(vector?)))
}
