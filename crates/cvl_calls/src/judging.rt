//! The checks of a call, before anything is made.

ghost use Rattle.std.specs.Prelude.{◌≡◌, false, IfOk, OnErr, true};
ghost use Rattle.cvl_text.specs.Tasks.{task_of};
ghost use Rattle.cvl_calls.specs.Judging.{IsReady, Judges, JudgesBy, made, word_of};
ghost use Rattle.cvl_calls.specs.Outcomes.{GivesBy, IsDecided, IsFittingEffect, fault_in, operands_of};
ghost use Rattle.cvl_calls.specs.Runs.{tests_index};
ghost use Rattle.cvl_calls.specs.Work.{work};

use crate::judged::Judged;
use crate::shapes::elementwise::*;
use crate::shapes::moves::*;
use crate::shapes::packs::*;
use crate::shapes::places::*;
use crate::shapes::scans::*;
use crate::shapes::setting::*;
use crate::shapes::spreads::*;
use crate::shapes::values::*;
use crate::stop::Stop;
use cvl_text::{Call, Fault, Kind};
use scan_kernels::{Execution, Meter, Sequential};
use segment_desc::OutOfMemory;
use std::alloc::Global;
use vector_memory::Memory;
use vector_memory::laws::memories_are_lawful;

/// Finds the operands of a call and makes the checks of its shape in their order: what is left to be done, or the first
/// fault of 1 to 8. Memory is taken only by the test of a permutation, in `smp_*`.
pub fn judge<'a>(alloc: Global, memory: &'a Memory, call: &'a Call) -> Result<Judged<'a>, Stop>
    ensures gives { let task = task_of call.now in
        GivesBy (tests_index task.word) made result (work memory.now.limit task.word (operands_of memory.now task.arguments)) }
    ensures answered { tests_index (task_of call.now).word ≡ false → IsDecided result }
    ensures word { IfOk result (λ judged. word_of judged ≡ (task_of call.now).word) }
    ensures ready { IfOk result IsReady }
    ensures fits { IfOk result (λ judged. IsFittingEffect memory.now.limit (made judged)) }
{
    judge_by(&Sequential, alloc, &Meter::new(), memory, call)
}

/// `judge`, which tests an index by chunks where these pay. The meter says how many items a chunk has, and is not raised.
#[inline(always)]
pub fn judge_by<'a>(
    execution: &impl Execution,
    alloc: Global,
    meter: &Meter,
    memory: &'a Memory,
    call: &'a Call,
) -> Result<Judged<'a>, Stop>
    ensures gives { let task = task_of call.now in
        GivesBy (tests_index task.word) made result (work memory.now.limit task.word (operands_of memory.now task.arguments)) }
    ensures answered { tests_index (task_of call.now).word ≡ false → IsDecided result }
    ensures word { IfOk result (λ judged. word_of judged ≡ (task_of call.now).word) }
    ensures ready { IfOk result IsReady }
    ensures fits { IfOk result (λ judged. IsFittingEffect memory.now.limit (made judged)) }
{
    memories_are_lawful(memory);
    by_shape(execution, alloc, meter, memory, call)
}

/// The first fault of a call, of 1 to 8, or none: what `judge` finds.
pub fn check(alloc: Global, memory: &Memory, call: &Call) -> Result<Option<Fault>, OutOfMemory>
    ensures fault { let task = task_of call.now in
        IfOk result (λ fault. fault ≡ fault_in (work memory.now.limit task.word (operands_of memory.now task.arguments))) }
    ensures lacks { OnErr result (tests_index (task_of call.now).word ≡ true) }
{
    match judge(alloc, memory, call) {
        Ok(_) => Ok(None),
        Err(Stop::Fault(fault)) => Ok(Some(fault)),
        Err(Stop::OutOfMemory) => Err(OutOfMemory),
    }
}

// A permutation is tested by marks, which take memory.
#[inline(always)]
fn by_shape<'a>(
    execution: &impl Execution,
    alloc: Global,
    meter: &Meter,
    memory: &'a Memory,
    call: &'a Call,
) -> Result<Judged<'a>, Stop>
    ensures judges { let task = task_of call.now in
        JudgesBy (tests_index task.word) task.word (work memory.now.limit task.word (operands_of memory.now task.arguments)) result }
    ensures answered { tests_index (task_of call.now).word ≡ false → IsDecided result }
{
    match call {
        Call::Smp { kind, a, i, .. } => permute(execution, alloc, meter, memory, *kind, a, i),
        Call::SmpSeg { kind, a, i, s, .. } => permute_segments(
            execution, alloc, meter, memory, *kind, a, i, s,
        ),
        _ => judge_at_once(execution, meter, memory, call),
    }
}

/// The checks of a call whose index, if it has one, is tested without memory: of each but `smp_*`.
#[inline(always)]
fn judge_at_once<'a>(
    execution: &impl Execution,
    meter: &Meter,
    memory: &'a Memory,
    call: &'a Call,
) -> Result<Judged<'a>, Stop>
    requires { tests_index (task_of call.now).word ≡ false }
    ensures { let task = task_of call.now in
        Judges task.word (work memory.now.limit task.word (operands_of memory.now task.arguments)) result }
{
    memories_are_lawful(memory);
    match call {
        Call::SetInts { items, .. } => set_ints(memory.limit(), items),
        Call::SetBools { items, .. } => set_bools(memory.limit(), items),
        Call::Get { a } => get(memory, a),
        Call::Mov { a, .. } => mov(memory, a),
        Call::Free { a } => free(memory, a),
        Call::Alo { n, .. } => alo(memory.limit(), *n),
        Call::Len { a } => len(memory, a),
        Call::MakeSegs { a, .. } => make_segs(memory, a),
        Call::LenSegs { s, .. } => len_segs(memory, s),
        Call::MapZ2 { op, a, b, .. } => map_ints(memory, *op, a, b),
        Call::MapZ1 { op, a, .. } => alter_ints(memory, *op, a),
        Call::CmpZ { op, a, b, .. } => compare(memory, *op, a, b),
        Call::MapB2 { op, a, b, .. } => map_bools(memory, *op, a, b),
        Call::MapB1 { op, a, .. } => alter_bools(memory, *op, a),
        Call::Sel {
            kind: Kind::Z,
            f,
            a,
            b,
            ..
        } => select_ints(memory, f, a, b),
        Call::Sel {
            kind: Kind::B,
            f,
            a,
            b,
            ..
        } => select_bools(memory, f, a, b),
        Call::Boo { a, .. } => truths_of(memory, a),
        Call::IntOf { a, .. } => numbers_of(memory, a),
        Call::ScanOfZ { op, a, s: None, .. } => scan_ints(memory, *op, a),
        Call::ScanOfZ {
            op,
            a,
            s: Some(s),
            ..
        } => scan_int_segments(memory, *op, a, s),
        Call::ScanOfB { op, a, s: None, .. } => scan_bools(memory, *op, a),
        Call::ScanOfB {
            op,
            a,
            s: Some(s),
            ..
        } => scan_bool_segments(memory, *op, a, s),
        Call::RedZ { op, a } => reduce_ints(memory, *op, a),
        Call::RedB { op, a } => reduce_bools(memory, *op, a),
        Call::RedSegZ { op, a, s, .. } => reduce_int_segments(memory, *op, a, s),
        Call::RedSegB { op, a, s, .. } => reduce_bool_segments(memory, *op, a, s),
        Call::DisZ { x, n, .. } => repeat_int(memory.limit(), *x, *n),
        Call::DisB { x, n, .. } => repeat_bool(memory.limit(), *x, *n),
        Call::DisSeg { kind, a, s, .. } => distribute(memory, *kind, a, s),
        Call::Ind { u, v, n, .. } => index(memory.limit(), *u, *v, *n),
        Call::IndSeg { a, b, s, .. } => index_segments(memory, a, b, s),
        Call::Bck { kind, a, i, .. } => gather(execution, meter, memory, *kind, a, i),
        Call::BckSeg {
            kind,
            a,
            s,
            index,
            ..
        } => gather_segments(execution, meter, memory, *kind, a, s, &index.i, &index.t),
        Call::Pck { kind, a, f, .. } => pack(memory, *kind, a, f),
        Call::PckSeg { kind, a, f, s, .. } => pack_segments(memory, *kind, a, f, s),
        Call::Pkl { f, s, .. } => pack_lengths(memory, f, s),
        Call::Ext { a, p } => extract(memory, a, *p),
        Call::Rep { a, p, x, .. } => replace(memory, a, *p, *x),
        Call::Smp { .. } => unreachable!(),
        Call::SmpSeg { .. } => unreachable!(),
    }
}
