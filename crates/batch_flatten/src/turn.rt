//! The turn of one job.

ghost use Rattle.std.specs.Prelude.{◌≡◌, ◌≢◌, ◌+◌, ◌<◌, ◌≤◌, Bool, Result, ℕ, Some, length, slice_get};
ghost use Rattle.cvl_text.specs.declared.fault.Fault.{Fault};
ghost use Rattle.cvl_text.specs.Tasks.{task_of};
ghost use Rattle.cvl_calls.specs.Outcomes.{Effect};
ghost use Rattle.cvl_calls.specs.Runs.{TakesNoMemory, runs_kernel};
ghost use Rattle.cvl_calls.specs.Steps.{work_on};
ghost use Rattle.call_history.specs.declared.request.Job.{Job};
ghost use Rattle.call_history.specs.Blocks.{block_limit};
ghost use Rattle.call_history.specs.Books.{memory_of};
ghost use Rattle.call_history.specs.Callers.{caller_limit};
ghost use Rattle.call_history.specs.Works.{IsWork};
ghost use Rattle.batch_flatten.specs.Batches.{HasAnswer, RunsJob, calls_back};
ghost use Rattle.batch_flatten.specs.Counts.{CountsTurn, RisesBy, kernels_of};
ghost use Rattle.batch_flatten.specs.Joining.{HasWork, IsPrepared, IsReadyWork, slot_work};
ghost use Rattle.batch_flatten.specs.Serving.{AnswersIfSure, IsLawfulBack, RunsBack};

use call_history::{Book, Outcome, Work};
use cvl_text::{Call, Fault, Reply};
use scan_kernels::{Execution, Meter};
use std::alloc::Global;
use std::mem;

/// How a call takes its turn.
#[derive(Clone, Copy)]
pub(crate) enum Turn {
    /// By itself, unless it is joined with others before.
    Open,
    /// By itself, since memory was wanted where it was to be joined with others.
    Single,
    /// With the fault that was found in it.
    Faulty(Fault),
    /// With the work that was made of it together with others.
    Joined,
}

/// The work at a position, taken away. Past the last there is none.
fn take_work(works: &mut Vec<Option<Work>>, position: usize) -> Option<Work>
    ensures work { slot_work (slice_get works.old.items position) ≡ result }
    ensures others { (b : ℕ) → b ≢ position → slice_get works.new.items b ≡ slice_get works.old.items b }
{
    if position < works.len() {
        mem::replace(&mut works[position], None)
    } else {
        None
    }
}

/// The work with which the call at a position takes its turn, if it was done before.
pub(crate) fn work_for(turn: Turn, works: &mut Vec<Option<Work>>, position: usize) -> Option<Work>
    ensures work { (kernel : Bool) (said : Result Effect Fault) → IsPrepared kernel said (Some turn) (slice_get works.old.items position)
        → HasWork kernel said turn result }
    ensures others { (b : ℕ) → b ≢ position → slice_get works.new.items b ≡ slice_get works.old.items b }
{
    match turn {
        Turn::Open => None,
        Turn::Single => None,
        Turn::Faulty(fault) => Some(Work::Say(Reply::Fault(fault))),
        Turn::Joined => take_work(works, position),
    }
}

/// Runs a call behind the history. What became of it is written where it stays.
fn run(
    execution: &impl Execution,
    alloc: Global,
    meter: &mut Meter,
    book: &mut Book,
    caller: u64,
    call: Call,
    outcome: &mut Outcome,
)
    requires caller { caller < caller_limit }
    requires space { 0 < book.old.spaces }
    ensures ran { RunsJob book.old book.new caller (Job.One call) outcome.new }
    ensures sure { TakesNoMemory (task_of call).word → HasAnswer outcome.new }
    ensures spaces { book.old.spaces + length (calls_back outcome.new) ≤ book.new.spaces + 1 }
    ensures counted { RisesBy (kernels_of (runs_kernel (task_of call).word)) meter.old meter.new }
{
    match book.run_metered(execution, alloc, meter, caller, call) {
        Ok((place, reply)) => *outcome = Outcome::Answered { place, reply },
        Err((call, _)) => *outcome = Outcome::Refused(call),
    }
}

/// Runs a call whose work was done before. What became of it is written where it stays.
fn run_ready(book: &mut Book, caller: u64, call: Call, work: Work, outcome: &mut Outcome)
    requires caller { caller < caller_limit }
    requires work { IsWork work (work_on (memory_of book.old) (task_of call)) }
    ensures ran { RunsJob book.old book.new caller (Job.One call) outcome.new }
    ensures spaces { book.old.spaces + length (calls_back outcome.new) ≤ book.new.spaces + 1 }
{
    match book.run_with(caller, call, work) {
        Ok((place, reply)) => *outcome = Outcome::Answered { place, reply },
        Err((call, _)) => *outcome = Outcome::Refused(call),
    }
}

/// Runs the calls of a block behind the history. What became of them is written where it stays.
fn run_block(
    execution: &impl Execution,
    alloc: Global,
    meter: &mut Meter,
    book: &mut Book,
    caller: u64,
    calls: Vec<Call>,
    outcome: &mut Outcome,
)
    requires caller { caller < caller_limit }
    requires few { (1 ≤ length calls.items) × (length calls.items ≤ block_limit) }
    ensures ran { RunsJob book.old book.new caller (Job.Many calls) outcome.new }
    ensures spaces { book.old.spaces + length (calls_back outcome.new) ≤ book.new.spaces + length calls.items }
    ensures counted { RisesBy (length calls.items) meter.old meter.new }
{
    match book.run_block(execution, alloc, meter, caller, calls) {
        Ok((place, replies)) => *outcome = Outcome::AnsweredBlock { place, replies },
        Err((calls, _)) => *outcome = Outcome::RefusedBlock(calls),
    }
}

/// Runs a job that is back: a single call, with its work where that was done before, or a block. An answer stays.
pub(crate) fn run_back(
    execution: &impl Execution,
    alloc: Global,
    meter: &mut Meter,
    book: &mut Book,
    caller: u64,
    outcome: &mut Outcome,
    work: Option<Work>,
)
    requires caller { caller < caller_limit }
    requires space { length (calls_back outcome.old) ≤ book.old.spaces }
    requires lawful { IsLawfulBack outcome.old }
    requires ready { IsReadyWork (memory_of book.old) (Some outcome.old) work }
    ensures ran { RunsBack book.old book.new caller outcome.old outcome.new }
    ensures sure { AnswersIfSure outcome.old outcome.new }
    ensures spaces { book.old.spaces + length (calls_back outcome.new) ≤ book.new.spaces + length (calls_back outcome.old) }
    ensures counted { CountsTurn (Some outcome.old) work meter.old meter.new }
{
    let nothing = Outcome::Answered {
        place: 0,
        reply: Reply::Done,
    };
    let was = mem::replace(outcome, nothing);
    match was {
        Outcome::Refused(call) => match work {
            Some(work) => run_ready(book, caller, call, work, outcome),
            None => run(execution, alloc, meter, book, caller, call, outcome),
        },
        Outcome::RefusedBlock(calls) => {
            run_block(execution, alloc, meter, book, caller, calls, outcome);
        }
        Outcome::Answered { place, reply } => *outcome = Outcome::Answered { place, reply },
        Outcome::AnsweredBlock { place, replies } => {
            *outcome = Outcome::AnsweredBlock { place, replies };
        }
    }
}
