//! The end of a run of worker threads: their callers meet, and one of them closes the machine.

ghost use Rattle.std.specs.Prelude.{◌≡◌, ◌≢◌, ◌⊎◌, ℕ, List, ◌<◌, [], Ok, length, map, All, IsTrue, IsErrOf, OnOk, IfOk, IfErr, vec_len};
ghost use Rattle.call_history.specs.declared.request.Job.{Job};
ghost use Rattle.combiner.specs.Standing.{callers_of, newcomers, IsIdle};
ghost use Rattle.script_main.specs.Settles.{IsSettled};
ghost use Rattle.script_main.specs.Workers.{reply_count, IsFirstFault, HaveMet, ClosesWith, AreEnds, AllWorked, IsSettleFault};

use crate::settled::Settled;
use crate::work::Worked;
use combiner::{Caller, Shared};
use cvl_text::Reply;
use script_lines::RunFault;
use segment_desc::OutOfMemory;
use std::alloc::Global;
use vector_memory::Bounds;

/// Whether there are so many replies in all.
fn is_count_of(replies: &[Vec<Reply>], count: usize) -> bool
    ensures told { IsTrue result → reply_count replies.now ≡ count }
    ensures exact { reply_count replies.now ≡ count → IsTrue result }
{
    let mut left = count;
    for own in replies {
        if own.len() > left {
            return false;
        }
        left -= own.len();
    }
    left == 0
}

/// Closes a machine that has given these replies, by its first caller.
fn close(machine: Shared, closer: Caller, replies: Vec<Vec<Reply>>) -> Result<Settled, RunFault>
    requires machine { closer.machine ≡ machine }
    requires some { 0 < callers_of machine }
    requires first { closer.number ≡ 0 }
    requires idle { IsIdle closer }
    requires alone { callers_of machine ≡ 1 → reply_count replies.items ≡ length closer.own }
    ensures replies { IfOk result (λ run. run.replies ≡ replies) }
    ensures closed { IfOk result (λ run. ClosesWith machine closer replies.items run.book) }
    ensures fault { IfErr result (λ fault. (fault ≡ RunFault.Unfinished) × (1 < callers_of machine)) }
{
    let Ok(book) = machine.close(closer) else {
        return Err(RunFault::Unfinished);
    };
    if !is_count_of(&replies, book.len()) {
        return Err(RunFault::Unfinished);
    }
    Ok(Settled { replies, book })
}

/// Closes a machine of one caller that has done nothing.
pub(crate) fn settle_nothing(
    alloc: Global,
    machine: Shared,
    bounds: Bounds,
    mut callers: Vec<Caller>,
) -> Result<Settled, RunFault>
    requires alone { callers_of machine ≡ 1 }
    requires callers { callers.items ≡ newcomers machine bounds 1 }
    ensures settled { IfOk result (λ run. IsSettled bounds [] run.replies run.book) }
    ensures never { IfErr result (λ fault. ⊥) }
{
    let Some(closer) = callers.pop() else {
        unreachable!()
    };
    close(machine, closer, Vec::new(alloc))
}

/// The workers, if each has done its script, and else the fault of the lowest one.
fn all_worked(alloc: Global, ends: Vec<Result<Worked, RunFault>>) -> Result<Vec<Worked>, RunFault>
    ensures workers { IfOk result (λ workers. ends.items ≡ map Ok workers.items) }
    ensures fault { IfErr result (λ fault. (fault ≡ RunFault.OutOfMemory) ⊎ IsFirstFault fault ends.items) }
{
    let Ok(mut workers) = Vec::with_capacity(alloc, ends.len()) else {
        return Err(RunFault::OutOfMemory);
    };
    for end in ends {
        workers.push_reserved(end?);
    }
    Ok(workers)
}

/// All callers meet the first of them, which has then seen what any of them has. That one, and the replies to each.
fn meet_all(
    alloc: Global,
    machine: &Shared,
    workers: Vec<Worked>,
) -> Result<(Caller, Vec<Vec<Reply>>), OutOfMemory>
    requires some { workers.items ≢ [] }
    requires machine { All (λ worked. worked.caller.machine ≡ machine.now) workers.items }
    ensures { IfOk result (λ met. HaveMet workers.items met.0 met.1.items) }
{
    let mut all = Vec::with_capacity(alloc, workers.len())?;
    let mut workers = workers.into_iter();
    let Some(
        Worked {
            caller: mut closer,
            replies,
        },
    ) = workers.next()
    else {
        unreachable!()
    };
    all.push_reserved(replies);
    for worker in workers {
        let Worked {
            mut caller,
            replies,
        } = worker;
        machine.meet(&mut caller, &mut closer);
        all.push_reserved(replies);
    }
    Ok((closer, all))
}

/// Closes the machine of workers that have come to their ends.
pub(crate) fn settle(
    alloc: Global,
    machine: Shared,
    bounds: Bounds,
    ends: Vec<Result<Worked, RunFault>>,
) -> Result<Settled, RunFault>
    requires some { ends.items ≢ [] }
    requires ends { (scripts : List (List Job)) × AreEnds machine bounds scripts ends.items }
    requires each { vec_len ends ≡ callers_of machine }
    ensures settled { IfOk result (λ run. (scripts : List (List Job))
        → AreEnds machine bounds scripts ends.items → IsSettled bounds scripts run.replies run.book) }
    ensures worked { OnOk result (AllWorked ends.items) }
    ensures fault { IfErr result (IsSettleFault (callers_of machine) ends.items) }
{
    let workers = all_worked(alloc, ends)?;
    let Ok((closer, replies)) = meet_all(alloc, &machine, workers) else {
        return Err(RunFault::OutOfMemory);
    };
    close(machine, closer, replies)
}
