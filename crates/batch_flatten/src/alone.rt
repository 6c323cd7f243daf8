//! A batch of one request, or of none: nothing is planned, noted or joined, and no list is made.

ghost use Rattle.std.specs.Prelude.{◌≡◌, ◌⊎◌, ◌+◌, ◌<◌, ◌≤◌, ◌∷◌, ◌++◌, [], None, Some, OnSome, length, map, vec_len, vec_capacity};
ghost use Rattle.std.specs.List.{AllByRecursion};
ghost use Rattle.cvl_text.specs.Tasks.{task_of};
ghost use Rattle.cvl_calls.specs.Runs.{TakesNoMemory, runs_kernel};
ghost use Rattle.call_history.specs.declared.request.Job.{Job};
ghost use Rattle.call_history.specs.declared.request.Outcome.{Outcome};
ghost use Rattle.call_history.specs.Blocks.{block_limit};
ghost use Rattle.call_history.specs.Callers.{caller_limit};
ghost use Rattle.call_history.specs.Fits.{IsLawfulJob, returned};
ghost use Rattle.batch_flatten.specs.Batches.{AnswersAllSure, HasAnswer, NeedsNoMemory, RunsJob, ServesInOrder};
ghost use Rattle.batch_flatten.specs.Counts.{RisesBy, kernel_bound, kernels_of, kernels_of_job, wave_count};

use crate::emptying::empty;
use crate::made_turns::answered;
use crate::ran::Ran;
use crate::roll::{call_count, hand_back, handed_back};
use call_history::{Book, Job, Outcome, Request, Unserved};
use cvl_calls::has_own_step;
use cvl_text::Call;
use scan_kernels::{Execution, Meter};
use std::alloc::Global;

/// Runs a call behind the history, and puts what became of it behind the outcomes. A call that runs alone comes here only if a history
/// keeps it whole.
#[inline(never)]
pub(crate) fn run_call_onto(
    execution: &impl Execution,
    alloc: Global,
    meter: &mut Meter,
    book: &mut Book,
    caller: u64,
    call: Call,
    outcomes: &mut Vec<Outcome>,
)
    requires caller { caller < caller_limit }
    requires space { 0 < book.old.spaces }
    requires room { vec_len outcomes.old < vec_capacity outcomes.old }
    ensures ran { (outcome : Outcome) × (outcomes.new.items ≡ outcomes.old.items ++ outcome ∷ [])
        × (TakesNoMemory (task_of call).word → HasAnswer outcome) × RunsJob book.old book.new caller (Job.One call) outcome }
    ensures counted { RisesBy (kernels_of (runs_kernel (task_of call).word)) meter.old meter.new }
    ensures one_space { book.old.spaces ≤ book.new.spaces + 1 }
    ensures spaces { vec_capacity outcomes.new ≡ vec_capacity outcomes.old }
{
    let outcome = match book.run_metered(execution, alloc, meter, caller, call) {
        Ok((place, reply)) => Outcome::Answered { place, reply },
        Err((call, _)) => Outcome::Refused(call),
    };
    outcomes.push_reserved(outcome);
}

/// The same of the calls of a block.
#[inline(never)]
fn run_block_onto(
    execution: &impl Execution,
    alloc: Global,
    meter: &mut Meter,
    book: &mut Book,
    caller: u64,
    calls: Vec<Call>,
    outcomes: &mut Vec<Outcome>,
)
    requires caller { caller < caller_limit }
    requires few { (1 ≤ length calls.items) × (length calls.items ≤ block_limit) }
    requires room { vec_len outcomes.old < vec_capacity outcomes.old }
    ensures ran { (outcome : Outcome) × (outcomes.new.items ≡ outcomes.old.items ++ outcome ∷ [])
        × RunsJob book.old book.new caller (Job.Many calls) outcome }
    ensures counted { RisesBy (length calls.items) meter.old meter.new }
    ensures spaces { vec_capacity outcomes.new ≡ vec_capacity outcomes.old }
{
    match book.run_block(execution, alloc, meter, caller, calls) {
        Ok((place, replies)) => {
            outcomes.push_reserved(Outcome::AnsweredBlock { place, replies });
        }
        Err((calls, _)) => outcomes.push_reserved(Outcome::RefusedBlock(calls)),
    }
}

/// Runs a job behind the history, and puts what became of it behind the outcomes.
fn run_onto(
    execution: &impl Execution,
    alloc: Global,
    meter: &mut Meter,
    book: &mut Book,
    caller: u64,
    job: Job,
    outcomes: &mut Vec<Outcome>,
)
    requires caller { caller < caller_limit }
    requires lawful { IsLawfulJob job }
    requires space { 0 < book.old.spaces }
    requires room { vec_len outcomes.old < vec_capacity outcomes.old }
    ensures ran { (outcome : Outcome) × (outcomes.new.items ≡ outcomes.old.items ++ outcome ∷ [])
        × (NeedsNoMemory job → HasAnswer outcome) × RunsJob book.old book.new caller job outcome }
    ensures counted { RisesBy (kernels_of_job job) meter.old meter.new }
    ensures spaces { vec_capacity outcomes.new ≡ vec_capacity outcomes.old }
{
    match job {
        Job::One(call) => run_call_onto(execution, alloc, meter, book, caller, call, outcomes),
        Job::Many(calls) => run_block_onto(execution, alloc, meter, book, caller, calls, outcomes),
    }
}

/// What is left to do of the one request whose job did not run where it was lent: the job is handed back, or runs as one that a history
/// keeps whole. It stands apart, since most calls run where they are lent.
#[inline(never)]
fn serve_unserved(
    execution: &impl Execution,
    alloc: Global,
    meter: &mut Meter,
    book: &mut Book,
    requests: &mut Vec<Request>,
    unserved: Unserved<()>,
    outcomes: &mut Vec<Outcome>,
)
    requires alone { vec_len requests.old ≡ 1 }
    requires lawful { AllByRecursion (λ r. r.caller < caller_limit) requests.old.items }
    requires jobs { AllByRecursion (λ r. IsLawfulJob r.job) requests.old.items }
    requires sure { AllByRecursion (λ r. NeedsNoMemory r.job → unserved ≡ Unserved.OutOfMemory → ⊥) requests.old.items }
    requires space { 0 < book.old.spaces }
    requires room { vec_len outcomes.old < vec_capacity outcomes.old }
    ensures ran { (request : Request) × (outcome : Outcome) × (requests.old.items ≡ request ∷ []) × (outcomes.new.items ≡ outcomes.old.items ++ outcome ∷ [])
        × (NeedsNoMemory request.job → HasAnswer outcome) × RunsJob book.old book.new request.caller request.job outcome }
    ensures counted { (request : Request) → requests.old.items ≡ request ∷ [] → RisesBy (kernels_of_job request.job) meter.old meter.new }
    ensures wanted { unserved ≡ Unserved.OutOfMemory → meter.new ≡ meter.old }
    ensures requests { requests.new.items ≡ [] }
    ensures request_spaces { vec_capacity requests.new ≡ vec_capacity requests.old }
    ensures outcome_spaces { vec_capacity outcomes.new ≡ vec_capacity outcomes.old }
{
    let Request { caller, job } = requests.take_last();
    match unserved {
        Unserved::OutOfMemory => outcomes.push_reserved(handed_back(job)),
        Unserved::Whole(()) => run_onto(execution, alloc, meter, book, caller, job, outcomes),
    }
}

/// Runs a call that is lent behind the history, and puts what became of it behind the outcomes. Where it did not run it answers why, and
/// only the meter may have risen, for want of memory.
#[inline(always)]
fn run_lent_onto(
    execution: &impl Execution,
    alloc: Global,
    meter: &mut Meter,
    book: &mut Book,
    caller: u64,
    call: &Call,
    outcomes: &mut Vec<Outcome>,
) -> Option<Unserved<()>>
    requires caller { caller < caller_limit }
    requires space { 0 < book.old.spaces }
    requires room { vec_len outcomes.old < vec_capacity outcomes.old }
    ensures ran { result ≡ None → (outcome : Outcome) × (outcomes.new.items ≡ outcomes.old.items ++ outcome ∷ [])
        × HasAnswer outcome × RunsJob book.old book.new caller (Job.One call.now) outcome }
    ensures counted { RisesBy (kernels_of (runs_kernel (task_of call.now).word)) meter.old meter.new }

    ensures sure { TakesNoMemory (task_of call.now).word → result ≡ Some Unserved.OutOfMemory → ⊥ }
    ensures whole { result ≡ Some (Unserved.Whole tt) → meter.new ≡ meter.old }
    ensures history { OnSome result (book.new.history ≡ book.old.history) }
    ensures spaces_kept { OnSome result (book.old.spaces ≤ book.new.spaces) }
    ensures outcomes { OnSome result (outcomes.new ≡ outcomes.old) }

    ensures bounds { book.new.bounds ≡ book.old.bounds }
    ensures spaces { vec_capacity outcomes.new ≡ vec_capacity outcomes.old }
{
    if has_own_step(call) {
        match book.run_own_lent(execution, alloc, meter, caller, call) {
            Ok((place, fault)) => outcomes.push_reserved(answered(place, fault)),
            Err(unserved) => return Some(unserved),
        }
    } else {
        match book.run_metered_lent(execution, alloc, meter, caller, call) {
            Ok((place, reply)) => outcomes.push_reserved(Outcome::Answered { place, reply }),
            Err(unserved) => return Some(unserved),
        }
    }
    None
}

/// The same of the job of a request, if that is a single call. A block is not run.
#[inline(always)]
fn run_request_onto(
    execution: &impl Execution,
    alloc: Global,
    meter: &mut Meter,
    book: &mut Book,
    request: &Request,
    outcomes: &mut Vec<Outcome>,
) -> Option<Unserved<()>>
    requires caller { request.now.caller < caller_limit }
    requires space { 0 < book.old.spaces }
    requires room { vec_len outcomes.old < vec_capacity outcomes.old }
    ensures ran { result ≡ None → (outcome : Outcome) × (outcomes.new.items ≡ outcomes.old.items ++ outcome ∷ [])
        × HasAnswer outcome × RunsJob book.old book.new request.now.caller request.now.job outcome }
    ensures counted { RisesBy (kernels_of_job request.now.job) meter.old meter.new }

    ensures sure { NeedsNoMemory request.now.job → result ≡ Some Unserved.OutOfMemory → ⊥ }
    ensures whole { result ≡ Some (Unserved.Whole tt) → meter.new ≡ meter.old }
    ensures history { OnSome result (book.new.history ≡ book.old.history) }
    ensures spaces_kept { OnSome result (book.old.spaces ≤ book.new.spaces) }
    ensures outcomes { OnSome result (outcomes.new ≡ outcomes.old) }

    ensures bounds { book.new.bounds ≡ book.old.bounds }
    ensures spaces { vec_capacity outcomes.new ≡ vec_capacity outcomes.old }
{
    let Job::One(call) = &request.job else {
        return Some(Unserved::Whole(()));
    };
    let caller = request.caller;
    run_lent_onto(execution, alloc, meter, book, caller, call, outcomes)
}

/// Serves a batch of fewer than two requests. Where the history cannot be reserved, the job comes back and nothing changes.
pub(crate) fn serve_alone(
    execution: &impl Execution,
    alloc: Global,
    book: &mut Book,
    requests: &mut Vec<Request>,
    outcomes: &mut Vec<Outcome>,
    meter: &mut Meter,
) -> Ran
    requires alone { vec_len requests.old < 2 }
    requires lawful { AllByRecursion (λ r. r.caller < caller_limit) requests.old.items }
    requires jobs { AllByRecursion (λ r. IsLawfulJob r.job) requests.old.items }
    requires empty { outcomes.old.items ≡ [] }
    requires spaces { vec_len requests.old ≤ vec_capacity outcomes.old }
    ensures serves { ServesInOrder book.old.bounds book.old.history requests.old.items book.new.history outcomes.new.items }
    ensures bounds { book.new.bounds ≡ book.old.bounds }
    ensures waves { (result.waves ≡ wave_count requests.old.items)
        ⊎ ((result ≡ Ran.NOTHING) × (book.new.history ≡ book.old.history) × (outcomes.new.items ≡ map returned requests.old.items)) }
    ensures sure { 0 < result.waves → AnswersAllSure requests.old.items outcomes.new.items }
    ensures bound { result.kernels ≤ kernel_bound requests.old.items + result.singles }
    ensures no_singles { result.singles ≡ 0 }
    ensures kernels { meter.new ≡ record meter.old { runs = meter.old.runs + result.kernels } }
    ensures requests { requests.new.items ≡ [] }
    ensures request_spaces { vec_capacity requests.new ≡ vec_capacity requests.old }
    ensures outcome_spaces { vec_capacity outcomes.new ≡ vec_capacity outcomes.old }
{
    // In a book no block is cut.
    let _entries = book.len();
    let Some(request) = requests.first() else {
        return Ran::NOTHING;
    };
    let Ok(()) = book.reserve(call_count(&request.job)) else {
        hand_back(requests, outcomes);
        return Ran::NOTHING;
    };
    let before = meter.runs();
    match run_request_onto(execution, alloc, meter, book, request, outcomes) {
        None => empty(requests),
        Some(unserved) => serve_unserved(
            execution, alloc, meter, book, requests, unserved, outcomes,
        ),
    }
    Ran {
        waves: 1,
        kernels: meter.runs() - before,
        singles: 0,
    }
}
