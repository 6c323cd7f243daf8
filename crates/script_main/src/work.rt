//! One worker: a caller that does its script.

ghost use Rattle.std.specs.Prelude.{true, ◌≡◌, ◌≤◌, OnOk, IfErr, length};
ghost use Rattle.std.specs.List.{AllByRecursion};
ghost use Rattle.call_history.specs.declared.request.Job.TheVariants.{One, Many};
ghost use Rattle.call_history.specs.Blocks.{block_limit};
ghost use Rattle.call_history.specs.Fits.{IsLawfulJob};
ghost use Rattle.combiner.specs.Standing.{IsIdle, IsNewAt};
ghost use Rattle.script_main.specs.Workers.{GoesOn, IsTurnFault, IsEnd, IsGated};

use crate::gate::Gate;
use call_history::Job;
use combiner::{Caller, Shared};
use cvl_text::{Call, Reply};
use script_lines::RunFault;
use std::alloc::Global;
use std::sync::Wait;
use std::thread::Threads;

/// What a worker has come to: its caller, and the replies to its calls.
#[derive(Drop)]
pub(crate) struct Worked {
    pub caller: Caller,
    pub replies: Vec<Reply>,
}

/// Asks the gate whether a worker may take a turn.
fn ask_gate<G: Gate>(gate: &G, worker: u64, turn: u64) -> Result<(), RunFault>
    ensures passes { OnOk result (G.may_answer gate.now worker turn true) }
    ensures fault { IfErr result (IsTurnFault (G.may_answer gate.now) worker turn) }
{
    if !gate.before(worker, turn) {
        return Err(RunFault::Stopped(worker));
    }
    Ok(())
}

/// Leaves a call, asks the gate, and waits for the reply, which goes behind the others.
fn take_call<G: Gate>(
    rt: &(impl Threads + Wait + Sync),
    alloc: Global,
    shared: &Shared,
    caller: &mut Caller,
    call: Call,
    turn: u64,
    gate: &G,
    replies: &mut Vec<Reply>,
) -> Result<(), RunFault>
    requires machine { caller.old.machine ≡ shared.now }
    requires idle { IsIdle caller.old }
    ensures turn { OnOk result (GoesOn (One call) caller.old replies.old.items caller.new replies.new.items) }
    ensures passes { OnOk result (G.may_answer gate.now caller.old.number turn true) }
    ensures fault { IfErr result (IsTurnFault (G.may_answer gate.now) caller.old.number turn) }
{
    let worker = caller.number() as u64;
    let Ok(()) = shared.post(caller, call) else {
        unreachable!()
    };
    ask_gate(gate, worker, turn)?;
    let Ok((_, reply)) = shared.wait(rt, alloc, caller) else {
        return Err(RunFault::OutOfMemory);
    };
    let Ok(()) = replies.push(reply) else {
        return Err(RunFault::OutOfMemory);
    };
    Ok(())
}

/// Leaves a block, asks the gate, and waits for the replies, which go behind the others.
fn take_block<G: Gate>(
    rt: &(impl Threads + Wait + Sync),
    alloc: Global,
    shared: &Shared,
    caller: &mut Caller,
    calls: Vec<Call>,
    turn: u64,
    gate: &G,
    replies: &mut Vec<Reply>,
) -> Result<(), RunFault>
    requires machine { caller.old.machine ≡ shared.now }
    requires idle { IsIdle caller.old }
    requires few { (1 ≤ length calls.items) × (length calls.items ≤ block_limit) }
    ensures turn { OnOk result (GoesOn (Many calls) caller.old replies.old.items caller.new replies.new.items) }
    ensures passes { OnOk result (G.may_answer gate.now caller.old.number turn true) }
    ensures fault { IfErr result (IsTurnFault (G.may_answer gate.now) caller.old.number turn) }
{
    let worker = caller.number() as u64;
    let Ok(()) = shared.post_block(caller, calls) else {
        unreachable!()
    };
    ask_gate(gate, worker, turn)?;
    let Ok((_, mut own)) = shared.wait_block(rt, alloc, caller) else {
        return Err(RunFault::OutOfMemory);
    };
    let Ok(()) = replies.append(&mut own) else {
        return Err(RunFault::OutOfMemory);
    };
    Ok(())
}

/// Takes a turn: leaves a job, asks the gate, and waits for the replies, which go behind the others.
fn take_turn<G: Gate>(
    rt: &(impl Threads + Wait + Sync),
    alloc: Global,
    shared: &Shared,
    caller: &mut Caller,
    job: Job,
    turn: u64,
    gate: &G,
    replies: &mut Vec<Reply>,
) -> Result<(), RunFault>
    requires machine { caller.old.machine ≡ shared.now }
    requires idle { IsIdle caller.old }
    requires lawful { IsLawfulJob job }
    ensures turn { OnOk result (GoesOn job caller.old replies.old.items caller.new replies.new.items) }
    ensures passes { OnOk result (G.may_answer gate.now caller.old.number turn true) }
    ensures fault { IfErr result (IsTurnFault (G.may_answer gate.now) caller.old.number turn) }
{
    match job {
        Job::One(call) => take_call(rt, alloc, shared, caller, call, turn, gate, replies),
        Job::Many(calls) => take_block(rt, alloc, shared, caller, calls, turn, gate, replies),
    }
}

/// Does a script, job by job, and asks the gate before each and once more behind the last.
pub(crate) fn work<G: Gate>(
    rt: &(impl Threads + Wait + Sync),
    alloc: Global,
    shared: &Shared,
    mut caller: Caller,
    script: Vec<Job>,
    gate: &G,
) -> Result<Worked, RunFault>
    requires new { IsNewAt shared.now caller.bounds caller }
    requires lawful { AllByRecursion IsLawfulJob script.items }
    ensures done { IsEnd shared.now caller.bounds caller.number script.items result }
    ensures gated { IsGated (G.may_answer gate.now) caller.number (length script.items) result }
{
    let worker = caller.number() as u64;
    let Ok(mut replies) = Vec::with_capacity(alloc, script.len()) else {
        return Err(RunFault::OutOfMemory);
    };
    let mut turn = 0;
    for job in script {
        take_turn(
            rt,
            alloc,
            shared,
            &mut caller,
            job,
            turn,
            gate,
            &mut replies,
        )?;
        turn += 1;
    }
    let _ = gate.before(worker, turn);
    Ok(Worked { caller, replies })
}
