//! Worker threads: one for each script, all on one machine.

ghost use Rattle.std.specs.Prelude.{◌≡◌, ◌≤◌, ℕ, [], length, map, All, OnOk, IfOk, IfErr, vec_len, vec_capacity};
ghost use Rattle.std.specs.List.{AllByRecursion, AllZip};
ghost use Rattle.vector_memory.specs.States.{IsLawfulRoom, bounds_in};
ghost use Rattle.call_history.specs.Callers.{caller_limit};
ghost use Rattle.call_history.specs.Fits.{IsLawfulJob};
ghost use Rattle.combiner.specs.Standing.{IsNewAt};
ghost use Rattle.script_lines.specs.Readings.{AreLawful, lists_of};
ghost use Rattle.script_main.specs.Gates.{MayFinish};
ghost use Rattle.script_main.specs.Settles.{IsSettled, IsThreadsFault};
ghost use Rattle.script_main.specs.Workers.{IsReady, IsStarted, IsJoined, Ends, IsEndOf};

use crate::gate::Gate;
use crate::settle::{settle, settle_nothing};
use crate::settled::Settled;
use crate::work::{Worked, work};
use call_history::Job;
use combiner::{Caller, MakeFault, Shared};
use script_lines::{RunFault, Script};
use segment_desc::OutOfMemory;
use std::alloc::Global;
use std::snapshot::Snapshot;
use std::sync::Wait;
use std::thread;
use std::thread::{Promise, PromisedHandle, Scope, Threads};
use vector_memory::Bounds;

/// A worker, and what it is to do.
#[derive(Drop)]
struct Worker {
    caller: Caller,
    script: Vec<Job>,
}

/// What the thread of a worker promises: that it ends as this worker with this script and this gate may.
#[derive(Drop)]
struct EndOf<G> {
    gate: Snapshot<G>,
    machine: Snapshot<Shared>,
    bounds: Bounds,
    number: usize,
    script: Snapshot<Vec<Job>>,
}

impl<G: Gate> Promise<Result<Worked, RunFault>> for EndOf<G> {
    ghost kept_by = { λ p end. Ends (G.may_answer p.gate.value) p.machine.value p.bounds p.number p.script.value.items end };
}

/// The thread of a worker, if it could be made.
#[derive(Drop)]
enum Started<G: Gate> {
    Runs(PromisedHandle<Result<Worked, RunFault>, EndOf<G>>),
    Refused,
}

/// For each caller its script.
fn workers_of(
    alloc: Global,
    callers: Vec<Caller>,
    scripts: Vec<Vec<Job>>,
) -> Result<Vec<Worker>, OutOfMemory>
    requires { vec_len callers ≡ vec_len scripts }
    ensures callers { IfOk result (λ workers. map (λ worker. worker.caller) workers.items ≡ callers.items) }
    ensures scripts { IfOk result (λ workers. map (λ worker. worker.script) workers.items ≡ scripts.items) }
{
    let mut workers = Vec::with_capacity(alloc, callers.len())?;
    let mut scripts = scripts.into_iter();
    for caller in callers {
        let Some(script) = scripts.next() else {
            unreachable!()
        };
        workers.push_reserved(Worker { caller, script });
    }
    Ok(workers)
}

/// Starts the thread of a worker.
fn start<'s, E: 's, R: Threads + Wait + Sync, G: Gate + Sync>(
    scope: &Scope<'s, E>,
    rt: &'s R,
    alloc: Global,
    shared: &'s Shared,
    bounds: Bounds,
    worker: Worker,
    gate: &'s G,
) -> Started<G>
    requires { IsReady shared.now bounds worker }
    ensures { IsStarted gate.now shared.now bounds worker result }
{
    let Worker { caller, script } = worker;
    let promise = EndOf {
        gate: Snapshot::of(gate),
        machine: Snapshot::of(shared),
        bounds,
        number: caller.number(),
        script: Snapshot::of(&script),
    };
    let started = scope.spawn_with(
        promise,
        move || -> Result<Worked, RunFault>
            requires new { IsNewAt shared.now caller.bounds caller }
            requires lawful { AllByRecursion IsLawfulJob script.items }
            ensures { Ends (G.may_answer gate.entry.now) shared.entry.now caller.bounds caller.number script.items result }
        { work(rt, alloc, shared, caller, script, gate) },
    );
    match started {
        Ok(handle) => Started::Runs(handle),
        Err(_) => Started::Refused,
    }
}

/// Starts the thread of each worker.
fn start_all<'s, E: 's, R: Threads + Wait + Sync, G: Gate + Sync>(
    scope: &Scope<'s, E>,
    rt: &'s R,
    alloc: Global,
    shared: &'s Shared,
    bounds: Bounds,
    workers: Vec<Worker>,
    gate: &'s G,
) -> Result<Vec<Started<G>>, OutOfMemory>
    requires { All (IsReady shared.now bounds) workers.items }
    ensures { IfOk result (λ started. AllZip (IsStarted gate.now shared.now bounds) workers.items started.items) }
{
    let mut started = Vec::with_capacity(alloc, workers.len())?;
    for worker in workers {
        let thread = start(scope, rt, alloc, shared, bounds, worker, gate);
        started.push_reserved(thread);
    }
    Ok(started)
}

/// Joins a thread. One that could not be made is a want of memory.
fn join<R: Threads, G: Gate>(rt: &R, worker: Started<G>) -> Result<Worked, RunFault>
    ensures { IsJoined G.may_answer worker result }
{
    match worker {
        Started::Runs(handle) => handle.join(rt),
        Started::Refused => Err(RunFault::OutOfMemory),
    }
}

/// Joins the thread of each worker.
fn join_all<R: Threads, G: Gate>(
    rt: &R,
    started: Vec<Started<G>>,
    ends: &mut Vec<Result<Worked, RunFault>>,
)
    requires none { ends.old.items ≡ [] }
    requires spaces { vec_len started ≤ vec_capacity ends.old }
    ensures { AllZip (IsJoined G.may_answer) started.items ends.new.items }
{
    for worker in started {
        ends.push_reserved(join(rt, worker));
    }
}

/// Starts the threads of all workers, and joins them.
fn work_in<'s, E: 's, R: Threads + Wait + Sync, G: Gate + Sync>(
    scope: &Scope<'s, E>,
    rt: &'s R,
    alloc: Global,
    shared: &'s Shared,
    bounds: Bounds,
    workers: Vec<Worker>,
    gate: &'s G,
) -> Result<Vec<Result<Worked, RunFault>>, OutOfMemory>
    requires { All (IsReady shared.now bounds) workers.items }
    ensures { IfOk result (λ ends. AllZip (IsEndOf (G.may_answer gate.now) shared.now bounds) workers.items ends.items) }
{
    let mut ends = Vec::with_capacity(alloc, workers.len())?;
    let started = start_all(scope, rt, alloc, shared, bounds, workers, gate)?;
    join_all(rt, started, &mut ends);
    Ok(ends)
}

/// Runs each worker in a thread of its own, and tells how each ended once all have.
fn work_all<R: Threads + Wait + Sync, G: Gate + Sync>(
    rt: &R,
    alloc: Global,
    shared: &Shared,
    bounds: Bounds,
    workers: Vec<Worker>,
    gate: &G,
) -> Result<Vec<Result<Worked, RunFault>>, OutOfMemory>
    requires { All (IsReady shared.now bounds) workers.items }
    ensures { IfOk result (λ ends. AllZip (IsEndOf (G.may_answer gate.now) shared.now bounds) workers.items ends.items) }
{
    thread::scope(
        thread::scope_env(),
        rt,
        |scope| -> Result<Vec<Result<Worked, RunFault>>, OutOfMemory>
            requires { All (IsReady shared.now bounds) workers.items }
            ensures { IfOk result (λ ends. AllZip (IsEndOf (G.may_answer gate.entry.now) shared.entry.now bounds) workers.items ends.items) }
        { work_in(scope, rt, alloc, shared, bounds, workers, gate) },
    )
}

/// Runs a script, the jobs of each caller in a worker thread of its own, on one machine whose memory has this room and the
/// script's edition. Worker and caller have one number.
///
/// A worker leaves each of its jobs, asks the gate, and then serves and asks until the job is answered. Behind the last it asks
/// the gate once more: a turn is a job. All workers have ended before this returns. A worker that the gate stops ends with
/// `Stopped`, and one that memory is refused, or a thread, with `OutOfMemory`; of several the fault of the lowest is answered. So
/// where `Stopped` is answered the gate let each lower worker take all its turns. The run is `Unfinished` where the machine cannot
/// be closed, or has entries that no worker was told of; with one worker that never is.
pub fn run_threads<R: Threads + Wait + Sync, G: Gate + Sync>(
    rt: &R,
    alloc: Global,
    script: Script,
    room: u64,
    gate: &G,
) -> Result<Settled, RunFault>
    requires few { vec_len script.workers ≤ caller_limit }
    requires lawful { AreLawful (lists_of script.workers) }
    requires room { IsLawfulRoom room }
    ensures settled { IfOk result (λ run. IsSettled (bounds_in script.edition room) (lists_of script.workers) run.replies run.book) }
    ensures passed { OnOk result ((k : ℕ) → MayFinish (G.may_answer gate.now) (lists_of script.workers) k) }
    ensures fault { IfErr result (IsThreadsFault (G.may_answer gate.now) (lists_of script.workers)) }
{
    let Script {
        edition,
        workers: scripts,
    } = script;
    let bounds = edition.bounds(room);
    let count = scripts.len();
    let (machine, callers) = match Shared::with_edition(alloc, count.max(1) as u64, room, edition) {
        Ok(made) => made,
        Err(MakeFault::OutOfMemory) => return Err(RunFault::OutOfMemory),
        Err(_) => unreachable!(),
    };
    if count == 0 {
        return settle_nothing(alloc, machine, bounds, callers);
    }
    let Ok(workers) = workers_of(alloc, callers, scripts) else {
        return Err(RunFault::OutOfMemory);
    };
    let Ok(ends) = work_all(rt, alloc, &machine, bounds, workers, gate) else {
        return Err(RunFault::OutOfMemory);
    };
    settle(alloc, machine, bounds, ends)
}
