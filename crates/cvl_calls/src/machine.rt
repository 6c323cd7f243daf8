ghost use Rattle.std.specs.Prelude.{◌≡◌, ◌≤◌, None, IsOk, IsTrue, IfOk, OnErr};
ghost use Rattle.vector_memory.specs.Contents.{content_of};
ghost use Rattle.vector_memory.specs.States.{FitsLimits, MayChange, refusal};
ghost use Rattle.cvl_text.specs.Answers.{answer_of};
ghost use Rattle.cvl_text.specs.Tasks.{task_of};
ghost use Rattle.cvl_calls.specs.Outcomes.{Counts, GivesBy, IsDecided, IsFittingEffect, Stores, effect_of, operands_of};
ghost use Rattle.cvl_calls.specs.Steps.{CountsStep, Grows, MayLackMemory, answer_to_store, applied, runs_on, stepped, stored};
ghost use Rattle.cvl_calls.specs.Work.{work};
ghost use Rattle.cvl_calls.specs.Runs.{TakesNoMemory, has_own_step, runs_kernel, tests_index};

use crate::judging::judge_by;
use crate::over::{Change, change_step, map_step};
use crate::product::Product;
use crate::running::run_with;
use crate::spare::Spare;
use crate::stop::Stop;
use cvl_text::{Call, Fault, Reply, target};
use scan_kernels::{Execution, Meter};
use std::alloc::Global;
use vector_memory::{Memory, Name, OutOfMemory, StoreFault, Value};

/// The result of a call, or its first fault, from the values that it reads: `judge_by`, and then `run`. Nothing is written.
/// The meter rises by one where a kernel ran: with a result, of each call for whose word `runs_kernel` is true. `fre_fov`,
/// `len_fov` and `ext_vuz` take no memory, and are always answered. A value that is made is one that the memory may hold.
pub fn work(
    execution: &impl Execution,
    alloc: Global,
    meter: &mut Meter,
    memory: &Memory,
    call: &Call,
) -> Result<Product, Stop>
    ensures gives { let task = task_of call.now in
        GivesBy (tests_index task.word) effect_of result (work memory.now.limit task.word (operands_of memory.now task.arguments)) }
    ensures answered { TakesNoMemory (task_of call.now).word → IsDecided result }
    ensures counted { Counts (runs_kernel (task_of call.now).word) result meter.old meter.new }
    ensures fits { IfOk result (λ product. IsFittingEffect memory.now.limit (effect_of product)) }
{
    work_with(
        execution,
        alloc,
        meter,
        &mut Spare::new(alloc),
        memory,
        call,
    )
}

/// `work`, whose result may lie in a vector that was kept.
#[inline(always)]
pub fn work_with(
    execution: &impl Execution,
    alloc: Global,
    meter: &mut Meter,
    spare: &mut Spare,
    memory: &Memory,
    call: &Call,
) -> Result<Product, Stop>
    ensures gives { let task = task_of call.now in
        GivesBy (tests_index task.word) effect_of result (work memory.now.limit task.word (operands_of memory.now task.arguments)) }
    ensures answered { TakesNoMemory (task_of call.now).word → IsDecided result }
    ensures counted { Counts (runs_kernel (task_of call.now).word) result meter.old meter.new }
    ensures fits { IfOk result (λ product. IsFittingEffect memory.now.limit (effect_of product)) }
{
    let judged = judge_by(execution, alloc, meter, memory, call)?;
    Ok(run_with(execution, alloc, meter, spare, judged)?)
}

/// The reply to a store, and the value that stood at the name before, as `replace` gives it back. In a block there has to be a
/// change left.
#[inline(always)]
fn store(memory: &mut Memory, to: Name, value: Value) -> Result<(Reply, Option<Value>), OutOfMemory>
    requires fits { FitsLimits memory.old.limit (content_of value) }
    requires may_change { MayChange memory.old }
    ensures ok { IfOk result (λ done. stored memory.old to (content_of value)
        ≡ record { memory = memory.new; answer = answer_of done.0 }) }
    ensures grows { OnErr result (refusal memory.old to (content_of value) ≡ None) }
    ensures err { OnErr result (memory.new ≡ memory.old) }
{
    match memory.replace(to, value) {
        Ok(before) => Ok((Reply::Done, before)),
        Err(StoreFault::NoRoom) => Ok((Reply::Fault(Fault::NoRoom), None)),
        Err(StoreFault::TooManyNames) => Ok((Reply::Fault(Fault::TooManyNames), None)),
        Err(StoreFault::OutOfMemory) => Err(OutOfMemory),
    }
}

/// The reply to a call, of what was made of its operands, and the value that it replaced. In a block there has to be a change
/// left.
#[inline(always)]
fn settle(
    memory: &mut Memory,
    to: Option<Name>,
    product: Product,
) -> Result<(Reply, Option<Value>), OutOfMemory>
    requires fits { IsFittingEffect memory.old.limit (effect_of product) }
    requires may_change { MayChange memory.old }
    ensures ok { IfOk result (λ done. applied memory.old to (effect_of product)
        ≡ record { memory = memory.new; answer = answer_of done.0 }) }
    ensures grows { OnErr result (Grows memory.old to (effect_of product)) }
    ensures err { OnErr result (memory.new ≡ memory.old) }
{
    match product {
        Product::Reply(reply) => Ok((reply, None)),
        Product::Store(value) => match to {
            Some(to) => store(memory, to, value),
            None => Ok((Reply::Done, None)),
        },
        Product::Free => {
            if let Some(name) = to {
                memory.free(&name);
            }
            Ok((Reply::Done, None))
        }
    }
}

/// Stores at the target what a call made of its operands, takes the target away, or hands the reply on. The value is one
/// that `work` makes, within the limit of the memory. A refused store is a fault, and it and a want of memory leave the memory as it was.
/// In a block there has to be a change left.
#[inline(always)]
pub fn apply(memory: &mut Memory, to: Option<Name>, product: Product) -> Result<Reply, OutOfMemory>
    requires fits { IsFittingEffect memory.old.limit (effect_of product) }
    requires may_change { MayChange memory.old }
    ensures ok { IfOk result (λ reply. applied memory.old to (effect_of product)
        ≡ record { memory = memory.new; answer = answer_of reply }) }
    ensures grows { OnErr result (Grows memory.old to (effect_of product)) }
    ensures err { OnErr result (memory.new ≡ memory.old) }
{
    let (reply, _) = settle(memory, to, product)?;
    Ok(reply)
}

/// `apply`, and the vector of the value that was replaced is kept for a next result. In a block there has to be a change left.
#[inline(always)]
pub fn apply_with(
    spare: &mut Spare,
    memory: &mut Memory,
    to: Option<Name>,
    product: Product,
) -> Result<Reply, OutOfMemory>
    requires fits { IsFittingEffect memory.old.limit (effect_of product) }
    requires may_change { MayChange memory.old }
    ensures ok { IfOk result (λ reply. applied memory.old to (effect_of product)
        ≡ record { memory = memory.new; answer = answer_of reply }) }
    ensures grows { OnErr result (Grows memory.old to (effect_of product)) }
    ensures err { OnErr result (memory.new ≡ memory.old) }
{
    let (reply, before) = settle(memory, to, product)?;
    if let Some(value) = before {
        spare.keep(value);
    }
    Ok(reply)
}

/// `apply` of what a joined run made, and the vector of the value that was replaced is kept for the next of these. In a block there has
/// to be a change left.
#[inline(always)]
pub fn apply_joined(
    spare: &mut Spare,
    memory: &mut Memory,
    to: Option<Name>,
    product: Product,
) -> Result<Reply, OutOfMemory>
    requires fits { IsFittingEffect memory.old.limit (effect_of product) }
    requires may_change { MayChange memory.old }
    ensures ok { IfOk result (λ reply. applied memory.old to (effect_of product)
        ≡ record { memory = memory.new; answer = answer_of reply }) }
    ensures grows { OnErr result (Grows memory.old to (effect_of product)) }
    ensures err { OnErr result (memory.new ≡ memory.old) }
{
    let (reply, before) = settle(memory, to, product)?;
    if let Some(value) = before {
        spare.keep_for_joined(value);
    }
    Ok(reply)
}

/// `apply_joined` of a value. Answers the fault by which the store is refused, if it is.
#[inline(always)]
pub fn store_joined(
    spare: &mut Spare,
    memory: &mut Memory,
    to: Option<Name>,
    value: Value,
) -> Result<Option<Fault>, OutOfMemory>
    requires fits { FitsLimits memory.old.limit (content_of value) }
    requires may_change { MayChange memory.old }
    ensures ok { IfOk result (λ fault. applied memory.old to (Stores (content_of value))
        ≡ record { memory = memory.new; answer = answer_to_store fault }) }
    ensures grows { OnErr result (Grows memory.old to (Stores (content_of value))) }
    ensures err { OnErr result (memory.new ≡ memory.old) }
{
    let Some(to) = to else {
        return Ok(None);
    };
    match memory.replace(to, value) {
        Ok(before) => {
            if let Some(replaced) = before {
                spare.keep_for_joined(replaced);
            }
            Ok(None)
        }
        Err(StoreFault::NoRoom) => Ok(Some(Fault::NoRoom)),
        Err(StoreFault::TooManyNames) => Ok(Some(Fault::TooManyNames)),
        Err(StoreFault::OutOfMemory) => Err(OutOfMemory),
    }
}

/// Runs a call on a memory: `work`, and then `apply`. A fault is a reply, and it and a want of memory leave the memory as it was.
/// `fre_fov`, `len_fov` and `ext_vuz` take no memory, and are always answered. The meter rises by one where a kernel ran: with a
/// reply, where the call runs one and no fault of 1 to 8 was found. In a block there has to be a change left.
pub fn step_metered(
    execution: &impl Execution,
    alloc: Global,
    meter: &mut Meter,
    memory: &mut Memory,
    call: &Call,
) -> Result<Reply, OutOfMemory>
    requires may_change { MayChange memory.old }
    ensures ok { IfOk result (λ reply. stepped memory.old (task_of call.now)
        ≡ record { memory = memory.new; answer = answer_of reply }) }
    ensures lacks { OnErr result (MayLackMemory memory.old (task_of call.now)) }
    ensures answered { TakesNoMemory (task_of call.now).word → IsOk result }
    ensures err { OnErr result (memory.new ≡ memory.old) }
    ensures counted { CountsStep (runs_on memory.old (task_of call.now)) result meter.old meter.new }
{
    step_with(
        execution,
        alloc,
        meter,
        &mut Spare::new(alloc),
        memory,
        call,
    )
}

/// `step_metered`, with vectors that were replaced and are kept for the next results. Where one operand of many integers lies at
/// the target of a call item by item, or of a scan, the result is written over it, and takes neither memory nor what was kept; but
/// not in a block, where the operand has to stay for an undo. In a block there has to be a change left.
#[inline(always)]
pub fn step_with(
    execution: &impl Execution,
    alloc: Global,
    meter: &mut Meter,
    spare: &mut Spare,
    memory: &mut Memory,
    call: &Call,
) -> Result<Reply, OutOfMemory>
    requires may_change { MayChange memory.old }
    ensures ok { IfOk result (λ reply. stepped memory.old (task_of call.now)
        ≡ record { memory = memory.new; answer = answer_of reply }) }
    ensures lacks { OnErr result (MayLackMemory memory.old (task_of call.now)) }
    ensures answered { TakesNoMemory (task_of call.now).word → IsOk result }
    ensures err { OnErr result (memory.new ≡ memory.old) }
    ensures counted { CountsStep (runs_on memory.old (task_of call.now)) result meter.old meter.new }
{
    match call {
        Call::MapZ2 { op, to, a, b } => map_step(
            execution, alloc, meter, spare, memory, *op, to, a, b,
        ),
        Call::MapZ1 { op, to, a } => change_step(
            execution,
            alloc,
            meter,
            spare,
            memory,
            Change::Alter(*op),
            to,
            a,
        ),
        Call::ScanOfZ { op, to, a, s: None } => change_step(
            execution,
            alloc,
            meter,
            spare,
            memory,
            Change::Scan(*op),
            to,
            a,
        ),
        _ => step_apart(execution, alloc, meter, spare, memory, call),
    }
}

/// `step_with` of a call that has a step of its own. In place of a reply it answers the fault, if there is one: so little is answered
/// that a short call pays nothing for moving it. In a block there has to be a change left.
#[inline(always)]
pub fn step_own(
    execution: &impl Execution,
    alloc: Global,
    meter: &mut Meter,
    spare: &mut Spare,
    memory: &mut Memory,
    call: &Call,
) -> Result<Option<Fault>, OutOfMemory>
    requires own { IsTrue (has_own_step (task_of call.now).word) }
    requires may_change { MayChange memory.old }
    ensures ok { IfOk result (λ fault. stepped memory.old (task_of call.now)
        ≡ record { memory = memory.new; answer = answer_to_store fault }) }
    ensures lacks { OnErr result (MayLackMemory memory.old (task_of call.now)) }
    ensures err { OnErr result (memory.new ≡ memory.old) }
    ensures counted { CountsStep (runs_on memory.old (task_of call.now)) result meter.old meter.new }
{
    match call {
        Call::MapZ2 { op, to, a, b } => map_step(
            execution, alloc, meter, spare, memory, *op, to, a, b,
        ),
        Call::MapZ1 { op, to, a } => change_step(
            execution,
            alloc,
            meter,
            spare,
            memory,
            Change::Alter(*op),
            to,
            a,
        ),
        Call::ScanOfZ { op, to, a, s: None } => change_step(
            execution,
            alloc,
            meter,
            spare,
            memory,
            Change::Scan(*op),
            to,
            a,
        ),
        _ => unreachable!(),
    }
}

/// `step_with` by what all calls share: what is left to be done of a call, and what was made of it. In a block there has to be a
/// change left.
#[inline(never)]
fn step_apart(
    execution: &impl Execution,
    alloc: Global,
    meter: &mut Meter,
    spare: &mut Spare,
    memory: &mut Memory,
    call: &Call,
) -> Result<Reply, OutOfMemory>
    requires may_change { MayChange memory.old }
    ensures ok { IfOk result (λ reply. stepped memory.old (task_of call.now)
        ≡ record { memory = memory.new; answer = answer_of reply }) }
    ensures lacks { OnErr result (MayLackMemory memory.old (task_of call.now)) }
    ensures answered { TakesNoMemory (task_of call.now).word → IsOk result }
    ensures err { OnErr result (memory.new ≡ memory.old) }
    ensures counted { CountsStep (runs_on memory.old (task_of call.now)) result meter.old meter.new }
{
    let judged = match judge_by(execution, alloc, meter, memory, call) {
        Ok(judged) => judged,
        Err(Stop::Fault(fault)) => return Ok(Reply::Fault(fault)),
        Err(Stop::OutOfMemory) => return Err(OutOfMemory),
    };
    match run_with(execution, alloc, meter, spare, judged) {
        Ok(product) => apply_with(spare, memory, target(call), product),
        Err(OutOfMemory) => Err(OutOfMemory),
    }
}

/// Runs a call on a memory, as `step_metered` does, and counts nothing. In a block there has to be a change left.
pub fn step(
    execution: &impl Execution,
    alloc: Global,
    memory: &mut Memory,
    call: &Call,
) -> Result<Reply, OutOfMemory>
    requires may_change { MayChange memory.old }
    ensures ok { IfOk result (λ reply. stepped memory.old (task_of call.now)
        ≡ record { memory = memory.new; answer = answer_of reply }) }
    ensures lacks { OnErr result (MayLackMemory memory.old (task_of call.now)) }
    ensures answered { TakesNoMemory (task_of call.now).word → IsOk result }
    ensures err { OnErr result (memory.new ≡ memory.old) }
{
    step_metered(execution, alloc, &mut Meter::new(), memory, call)
}
