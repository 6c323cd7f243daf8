//! A call item by item on one vector, or a scan of all items, whose result may be written over it.

ghost use Rattle.std.specs.Prelude.{◌≡◌, ◌≤◌, ℤ, List, Ok, None, Some, true, false, is_ok, length, IfOk, IsTrue, OnErr};
ghost use Rattle.item_operations.specs.IntegerOps.{alter_z};
ghost use Rattle.item_operations.specs.IntegerScans.{combine_z, unit_z};
ghost use Rattle.scan_kernels.specs.Metering.{CountsRun, raised};
ghost use Rattle.vector_memory.specs.Contents.{Ints};
ghost use Rattle.vector_memory.specs.Names.{same_name};
ghost use Rattle.vector_memory.specs.States.{MayChange, value_at};
ghost use Rattle.cvl_text.specs.Answers.{Done};
ghost use Rattle.cvl_calls.specs.Operands.{integers};
ghost use Rattle.cvl_calls.specs.Outcomes.{Held, MayRunOut, Stores, viewed};
ghost use Rattle.cvl_calls.specs.Over.{IsInts, made_by, work_by};
ghost use Rattle.cvl_calls.specs.Steps.{CountsStep, followed};
ghost use Rattle.cvl_calls.specs.Work.{map_one, scan};

use crate::operands::ints;
use crate::over::held::{give, is_ints, may_go_over, store, take};
use crate::over::said::Said;
use crate::spare::Spare;
use cvl_text::{Fault, ScanZ, Z1};
use scan_kernels::{
    Execution, Meter, Source, map1_z, map1_z_over, scan_whole_z, scan_whole_z_over,
};
use std::alloc::Global;
use vector_memory::laws::memories_are_lawful;
use vector_memory::{Memory, Name, OutOfMemory, Value};

/// What a call makes of one vector.
#[derive(Clone, Copy)]
pub(crate) enum Change {
    Alter(Z1),
    Scan(ScanZ),
}

/// The vector, with the result written over its items.
#[tactic(auto, using(crate::proofs::Written::as_long_as_one))]
fn changed(meter: &mut Meter, change: Change, xs: Vec<i64>) -> Vec<i64>
    ensures items { result.items ≡ made_by change xs.items }
    ensures long { length result.items ≡ length xs.items }
    ensures counted { meter.new ≡ raised meter.old }
{
    let mut made = xs;
    match change {
        Change::Alter(op) => map1_z_over(meter, op, made.as_mut_slice()),
        Change::Scan(op) => scan_whole_z_over(meter, op, made.as_mut_slice()),
    }
    made
}

/// Changes the integers of a name. It stands apart, so that the step of all others stays short.
#[inline(never)]
fn change_over(alloc: Global, meter: &mut Meter, memory: &mut Memory, change: Change, to: Name)
    requires ints { IsInts memory.old to }
    requires outside { memory.old.block ≡ None }
    ensures step { (xs : List ℤ) → value_at memory.old to ≡ Some (Ints xs)
        → followed memory.old (Some to) (Ok (Stores (Ints (made_by change xs)))) ≡ record { memory = memory.new; answer = Done } }
    ensures counted { meter.new ≡ raised meter.old }
{
    memories_are_lawful(memory);
    let xs = take(alloc, memory, to);
    let made = changed(meter, change, xs);
    give(memory, to, made);
}

/// The integers of a name, of which such a call makes its result.
#[inline(always)]
fn operand<'a>(memory: &'a Memory, change: Change, a: &Name) -> Result<&'a [i64], Fault>
    ensures gives { viewed (λ xs. Stores (Ints (made_by change xs.now))) result ≡ work_by change (Held (value_at memory.now a.now)) }
    ensures short { IfOk result (λ xs. length xs.now ≤ memory.now.limit) }
{
    ints(memory, a)
}

/// Whether the result of `to = OP a` is to be written over its operand: over many integers, which lie at the target, and outside a
/// block, which may be undone.
#[inline(always)]
fn goes_over(
    execution: &impl Execution,
    spare: &impl Source<i64>,
    meter: &Meter,
    memory: &Memory,
    count: usize,
    to: &Name,
    a: &Name,
) -> bool
    ensures same { IsTrue result → same_name to.now a.now ≡ true }
    ensures ints { IsTrue result → IsInts memory.now to.now }
    ensures outside { IsTrue result → memory.now.block ≡ None }
{
    if !may_go_over(execution, spare, meter, memory, count) {
        return false;
    }
    to == a && is_ints(memory, to)
}

/// The result, in a vector of its own.
#[inline(always)]
fn made(
    execution: &impl Execution,
    source: impl Source<i64>,
    meter: &mut Meter,
    change: Change,
    xs: &[i64],
) -> Result<Vec<i64>, OutOfMemory>
    ensures items { IfOk result (λ v. v.items ≡ made_by change xs.now) }
    ensures counted { CountsRun result meter.old meter.new }
{
    match change {
        Change::Alter(op) => map1_z(execution, source, meter, op, xs),
        Change::Scan(op) => scan_whole_z(execution, source, meter, op, xs),
    }
}

/// The step of `to = OP a` on integers, or of a scan, which is judged, run and stored here, as that on two vectors is. In a block
/// there has to be a change left.
#[tactic(auto, using(crate::proofs::Written::as_long_as_one))]
#[inline(never)]
pub(crate) fn change_step<S: Said>(
    execution: &impl Execution,
    alloc: Global,
    meter: &mut Meter,
    spare: &mut Spare,
    memory: &mut Memory,
    change: Change,
    to: &Name,
    a: &Name,
) -> Result<S, OutOfMemory>
    requires may_change { MayChange memory.old }
    ensures ok { IfOk result (λ said. followed memory.old (Some to.now) (work_by change (Held (value_at memory.old a.now)))
        ≡ record { memory = memory.new; answer = S.answer said }) }
    ensures lacks { OnErr result (MayRunOut false (work_by change (Held (value_at memory.old a.now)))) }
    ensures err { OnErr result (memory.new ≡ memory.old) }
    ensures counted { CountsStep (is_ok (work_by change (Held (value_at memory.old a.now)))) result meter.old meter.new }
{
    let xs = match operand(memory, change, a) {
        Ok(xs) => xs,
        Err(fault) => return Ok(S::refused(fault)),
    };
    if goes_over(execution, &spare, meter, memory, xs.len(), to, a) {
        change_over(alloc, meter, memory, change, *to);
        return Ok(S::done());
    }
    let Ok(items) = made(execution, &mut *spare, meter, change, xs) else {
        return Err(OutOfMemory);
    };
    store(spare, memory, to, Value::Ints(items))
}
