//! A call item by item on two vectors, whose result may be written over one of them.

ghost use Rattle.std.specs.Prelude.{◌≡◌, None, Some, true, false, not, is_ok, length, All, IfOk, IsTrue, OnErr};
ghost use Rattle.item_operations.specs.IntegerOps.{IsAllowed, apply_z};
ghost use Rattle.scan_kernels.specs.Elementwise.{item_by_item};
ghost use Rattle.scan_kernels.specs.Metering.{raised};
ghost use Rattle.vector_memory.specs.Names.{same_name};
ghost use Rattle.vector_memory.specs.States.{MayChange, value_at};
ghost use Rattle.cvl_text.specs.Answers.{Done};
ghost use Rattle.cvl_calls.specs.Conditions.{seconds};
ghost use Rattle.cvl_calls.specs.Operands.{integers};
ghost use Rattle.cvl_calls.specs.Outcomes.{Held, MayRunOut};
ghost use Rattle.cvl_calls.specs.Over.{CanApply};
ghost use Rattle.cvl_calls.specs.Steps.{CountsStep, followed};
ghost use Rattle.cvl_calls.specs.Work.{map_two};

use crate::conditions::seconds;
use crate::judged::Judged;
use crate::over::held::{give, lent, may_go_over, store, take};
use crate::over::said::Said;
use crate::shapes::elementwise::map_ints;
use crate::spare::Spare;
use crate::stop::Stop;
use cvl_text::Z2;
use scan_kernels::{Execution, Meter, Source, map2_z, map2_z_over_first, map2_z_over_second};
use std::alloc::Global;
use vector_memory::laws::memories_are_lawful;
use vector_memory::{Memory, Name, OutOfMemory, Value};

/// Whether the operation can be applied to the integers of two names.
fn can_apply(memory: &Memory, op: Z2, a: &Name, b: &Name) -> bool
    ensures { IsTrue result → CanApply memory.now op a.now b.now }
{
    let Some(xs) = lent(memory, a) else {
        return false;
    };
    let Some(ys) = lent(memory, b) else {
        return false;
    };
    if xs.len() != ys.len() {
        return false;
    }
    match seconds(op, ys) {
        Ok(()) => true,
        Err(_) => false,
    }
}

/// The first vector, with the result written over its items.
fn over_first(meter: &mut Meter, op: Z2, xs: Vec<i64>, ys: &[i64]) -> Vec<i64>
    requires same_length { length xs.items ≡ length ys.now }
    requires allowed { All (IsAllowed op) ys.now }
    ensures items { result.items ≡ item_by_item (apply_z op) xs.items ys.now }
    ensures counted { meter.new ≡ raised meter.old }
{
    let mut made = xs;
    map2_z_over_first(meter, op, made.as_mut_slice(), ys);
    made
}

/// Applies the operation to the integers of two names, and writes the result over the first.
fn apply_over_first(
    alloc: Global,
    meter: &mut Meter,
    memory: &mut Memory,
    op: Z2,
    to: Name,
    b: &Name,
)
    requires apart { same_name to b.now ≡ false }
    requires can { CanApply memory.old op to b.now }
    requires outside { memory.old.block ≡ None }
    ensures step { followed memory.old (Some to) (map_two integers integers (seconds op) (apply_z op) (Held (value_at memory.old to)) (Held (value_at memory.old b.now)))
        ≡ record { memory = memory.new; answer = Done } }
    ensures works { is_ok (map_two integers integers (seconds op) (apply_z op) (Held (value_at memory.old to)) (Held (value_at memory.old b.now))) ≡ true }
    ensures counted { meter.new ≡ raised meter.old }
{
    memories_are_lawful(memory);
    let xs = take(alloc, memory, to);
    let Some(ys) = lent(memory, b) else {
        unreachable!()
    };
    let made = over_first(meter, op, xs, ys);
    give(memory, to, made);
}

/// The second vector, with the result written over its items.
#[tactic(auto, using(crate::proofs::Written::as_long))]
fn over_second(meter: &mut Meter, op: Z2, xs: &[i64], ys: Vec<i64>) -> Vec<i64>
    requires same_length { length xs.now ≡ length ys.items }
    requires allowed { All (IsAllowed op) ys.items }
    ensures items { result.items ≡ item_by_item (apply_z op) xs.now ys.items }
    ensures long { length result.items ≡ length ys.items }
    ensures counted { meter.new ≡ raised meter.old }
{
    let mut made = ys;
    map2_z_over_second(meter, op, xs, made.as_mut_slice());
    made
}

/// Applies the operation to the integers of two names, and writes the result over the second.
fn apply_over_second(
    alloc: Global,
    meter: &mut Meter,
    memory: &mut Memory,
    op: Z2,
    a: &Name,
    to: Name,
)
    requires apart { same_name to a.now ≡ false }
    requires can { CanApply memory.old op a.now to }
    requires outside { memory.old.block ≡ None }
    ensures step { followed memory.old (Some to) (map_two integers integers (seconds op) (apply_z op) (Held (value_at memory.old a.now)) (Held (value_at memory.old to)))
        ≡ record { memory = memory.new; answer = Done } }
    ensures works { is_ok (map_two integers integers (seconds op) (apply_z op) (Held (value_at memory.old a.now)) (Held (value_at memory.old to))) ≡ true }
    ensures counted { meter.new ≡ raised meter.old }
{
    memories_are_lawful(memory);
    let ys = take(alloc, memory, to);
    let Some(xs) = lent(memory, a) else {
        unreachable!()
    };
    let made = over_second(meter, op, xs, ys);
    give(memory, to, made);
}

/// The step of `to = OP a b`, where either `a` or `b` is the target. It stands apart, so that the step of all others stays short.
#[inline(never)]
fn map_over(
    alloc: Global,
    meter: &mut Meter,
    memory: &mut Memory,
    op: Z2,
    to: Name,
    a: &Name,
    b: &Name,
)
    requires can { CanApply memory.old op a.now b.now }
    requires either { same_name to a.now ≡ not (same_name to b.now) }
    requires outside { memory.old.block ≡ None }
    ensures step { followed memory.old (Some to) (map_two integers integers (seconds op) (apply_z op) (Held (value_at memory.old a.now)) (Held (value_at memory.old b.now)))
        ≡ record { memory = memory.new; answer = Done } }
    ensures works { is_ok (map_two integers integers (seconds op) (apply_z op) (Held (value_at memory.old a.now)) (Held (value_at memory.old b.now))) ≡ true }
    ensures counted { meter.new ≡ raised meter.old }
{
    if to == *a {
        apply_over_first(alloc, meter, memory, op, to, b);
    } else {
        apply_over_second(alloc, meter, memory, op, a, to);
    }
}

/// Whether the result of `to = OP a b` is to be written over an operand: of many integers, of which one vector lies at the target and
/// the other does not, and outside a block, which may be undone.
#[inline(always)]
fn goes_over(
    execution: &impl Execution,
    spare: &impl Source<i64>,
    meter: &Meter,
    memory: &Memory,
    count: usize,
    op: Z2,
    to: &Name,
    a: &Name,
    b: &Name,
) -> bool
    ensures can { IsTrue result → CanApply memory.now op a.now b.now }
    ensures either { IsTrue result → same_name to.now a.now ≡ not (same_name to.now b.now) }
    ensures outside { IsTrue result → memory.now.block ≡ None }
{
    if !may_go_over(execution, spare, meter, memory, count) {
        return false;
    }
    let (is_first, is_second) = (to == a, to == b);
    is_first != is_second && can_apply(memory, op, a, b)
}

/// The step of `to = OP a b` on integers, which is judged, run and stored here: what all calls share is moved and cleared for more
/// than a short one takes. In a block there has to be a change left.
#[inline(never)]
pub(crate) fn map_step<S: Said>(
    execution: &impl Execution,
    alloc: Global,
    meter: &mut Meter,
    spare: &mut Spare,
    memory: &mut Memory,
    op: Z2,
    to: &Name,
    a: &Name,
    b: &Name,
) -> Result<S, OutOfMemory>
    requires may_change { MayChange memory.old }
    ensures ok { IfOk result (λ said. followed memory.old (Some to.now) (map_two integers integers (seconds op) (apply_z op) (Held (value_at memory.old a.now)) (Held (value_at memory.old b.now)))
        ≡ record { memory = memory.new; answer = S.answer said }) }
    ensures lacks { OnErr result (MayRunOut false (map_two integers integers (seconds op) (apply_z op) (Held (value_at memory.old a.now)) (Held (value_at memory.old b.now)))) }
    ensures err { OnErr result (memory.new ≡ memory.old) }
    ensures counted { CountsStep (is_ok (map_two integers integers (seconds op) (apply_z op) (Held (value_at memory.old a.now)) (Held (value_at memory.old b.now)))) result meter.old meter.new }
{
    memories_are_lawful(memory);
    let judged = match map_ints(memory, op, a, b) {
        Ok(judged) => judged,
        Err(Stop::Fault(fault)) => return Ok(S::refused(fault)),
        Err(Stop::OutOfMemory) => unreachable!(),
    };
    let Judged::MapInts(judged_op, xs, ys) = judged else {
        unreachable!()
    };
    if goes_over(execution, &spare, meter, memory, xs.len(), op, to, a, b) {
        map_over(alloc, meter, memory, op, *to, a, b);
        return Ok(S::done());
    }
    let Ok(made) = map2_z(execution, &mut *spare, meter, judged_op, xs, ys) else {
        return Err(OutOfMemory);
    };
    store(spare, memory, to, Value::Ints(made))
}
