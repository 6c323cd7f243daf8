//! The integers of a name: lent, taken out of the memory and put back, or stored.

ghost use Rattle.std.specs.Prelude.{[], ◌≡◌, ℤ, List, Some, None, length, IfOk, IfSome, IsTrue, OnErr};
ghost use Rattle.vector_memory.specs.Contents.{Ints, content_of};
ghost use Rattle.vector_memory.specs.States.{FitsLimits, MayChange, put, refusal, value_at};
ghost use Rattle.cvl_calls.specs.Over.{IsInts, WasTaken};
ghost use Rattle.cvl_calls.specs.Steps.{stored};

use crate::over::said::Said;
use crate::spare::Spare;
use cvl_text::Fault;
use scan_kernels::{Execution, Meter, Source, overwrites_pay};
use std::alloc::Global;
use vector_memory::laws::memories_are_lawful;
use vector_memory::{Memory, Name, OutOfMemory, StoreFault, Value};

/// Whether a result of so many integers may be written over an operand: where that pays, and outside a block, which may be undone.
#[inline(always)]
pub(crate) fn may_go_over(
    execution: &impl Execution,
    spare: &impl Source<i64>,
    meter: &Meter,
    memory: &Memory,
    count: usize,
) -> bool
    ensures { IsTrue result → memory.now.block ≡ None }
{
    overwrites_pay(execution, spare, meter, count) && !memory.in_block()
}

/// The integers of a name, if that is what it stands for.
pub(crate) fn lent<'a>(memory: &'a Memory, name: &Name) -> Option<&'a [i64]>
    ensures items { IfSome result (λ xs. value_at memory.now name.now ≡ Some (Ints xs.now)) }
    ensures none { (xs : List ℤ) → value_at memory.now name.now ≡ Some (Ints xs) → result ≡ None → ⊥ }
{
    match memory.get(name) {
        Some(Value::Ints(items)) => Some(items.as_slice()),
        Some(Value::Bools(_)) => None,
        Some(Value::Segs(_)) => None,
        None => None,
    }
}

/// Whether a name stands for integers.
pub(crate) fn is_ints(memory: &Memory, name: &Name) -> bool
    ensures { IsTrue result → IsInts memory.now name.now }
{
    match lent(memory, name) {
        Some(_) => true,
        None => false,
    }
}

/// Takes the integers of a name out of the memory, outside a block, which leaves none of them at the name.
#[tactic(auto, using(vector_memory::proofs::Putting::fits_in_place, crate::proofs::BlockSteps::outside_may_change))]
pub(crate) fn take(alloc: Global, memory: &mut Memory, name: Name) -> Vec<i64>
    requires ints { IsInts memory.old name }
    requires outside { memory.old.block ≡ None }
    ensures items { value_at memory.old name ≡ Some (Ints result.items) }
    ensures memory { memory.new ≡ put memory.old name (Ints []) }
{
    memories_are_lawful(memory);
    match memory.replace(name, Value::Ints(Vec::new(alloc))) {
        Ok(Some(Value::Ints(items))) => items,
        Ok(Some(Value::Bools(_))) => unreachable!(),
        Ok(Some(Value::Segs(_))) => unreachable!(),
        Ok(None) => unreachable!(),
        Err(_) => unreachable!(),
    }
}

/// Puts integers back at a name from which at least as many were taken.
#[tactic(auto, using(crate::proofs::Written::taken_there, crate::proofs::Written::taken_accepted))]
pub(crate) fn give(memory: &mut Memory, name: Name, items: Vec<i64>)
    requires { WasTaken memory.old name (length items.items) }
    ensures { memory.new ≡ put memory.old name (Ints items.items) }
{
    match memory.replace(name, Value::Ints(items)) {
        Ok(_) => {}
        Err(_) => unreachable!(),
    }
}

/// Stores a value that a call made, and keeps the vector that it replaced for a next result: what is said of it. In a block there has to
/// be a change left.
#[inline(always)]
pub(crate) fn store<S: Said>(
    spare: &mut Spare,
    memory: &mut Memory,
    to: &Name,
    value: Value,
) -> Result<S, OutOfMemory>
    requires fits { FitsLimits memory.old.limit (content_of value) }
    requires may_change { MayChange memory.old }
    ensures ok { IfOk result (λ said. stored memory.old to.now (content_of value)
        ≡ record { memory = memory.new; answer = S.answer said }) }
    ensures err { OnErr result (memory.new ≡ memory.old) }
{
    match memory.replace(*to, value) {
        Ok(before) => {
            if let Some(value) = before {
                spare.keep(value);
            }
            Ok(S::done())
        }
        Err(StoreFault::NoRoom) => Ok(S::refused(Fault::NoRoom)),
        Err(StoreFault::TooManyNames) => Ok(S::refused(Fault::TooManyNames)),
        Err(StoreFault::OutOfMemory) => Err(OutOfMemory),
    }
}
