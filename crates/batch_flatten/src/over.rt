//! A batch of alike calls in one wave that write their integers over those at their targets, by one kernel run: so long vectors lie once
//! in memory, and not beside those that they replace.

ghost use Rattle.std.specs.Prelude.{◌≡◌, ◌≢◌, ◌+◌, ◌<◌, ◌≤◌, ◌^◌, ◌++◌, [], false, length, map, vec_len, vec_capacity, IfSome, IsTrue};
ghost use Rattle.std.specs.List.{AllByRecursion, AllPairs};
ghost use Rattle.scan_kernels.specs.Metering.{raised};
ghost use Rattle.cvl_calls.specs.Runs.{runs_kernel};
ghost use Rattle.call_history.specs.Callers.{caller_limit};
ghost use Rattle.batch_flatten.specs.Alike.{AreOfWord, RunTogether, ServesAlike, done_from};

use crate::alike::{are_one_wave, common_word};
use crate::plan::BATCH_LIMIT;
use call_history::{Book, Job, Outcome, Request};
use cvl_text::{Call, Reply, Word, target};
use scan_kernels::{Execution, Meter};
use std::alloc::Global;
use vector_memory::Value;

/// From how many integers on a result is written over what lies at its target, since this takes lists of its own. Of 4,096 it repays 64
/// calls, by `bench batch`; where it begins to was not measured.
const WORTH: usize = 2_048;

/// Whether so many integers lie at the target of the first request.
pub(crate) fn is_worth(book: &Book, requests: &[Request]) -> bool {
    let Some(first) = requests.first() else {
        return false;
    };
    let Job::One(call) = &first.job else {
        return false;
    };
    let Some(to) = target(call) else {
        return false;
    };
    match book.memory().get(&to) {
        Some(Value::Ints(items)) => items.len() >= WORTH,
        _ => false,
    }
}

/// The callers of the requests, if there is memory for their list.
fn callers_of(alloc: Global, requests: &[Request]) -> Option<Vec<u64>>
    ensures { IfSome result (λ callers. callers.items ≡ map (λ r. r.caller) requests.now) }
{
    let mut callers = Vec::with_capacity(alloc, requests.len()).ok()?;
    for request in requests {
        callers.push_reserved(request.caller);
    }
    Some(callers)
}

/// The calls of the requests, lent, if all are for single calls and there is memory for their list.
fn calls_of<'a>(alloc: Global, requests: &'a [Request]) -> Option<Vec<&'a Call>>
    ensures { IfSome result (λ calls. map (λ c. Job.One c.now) calls.items ≡ map (λ r. r.job) requests.now) }
{
    let mut calls = Vec::with_capacity(alloc, requests.len()).ok()?;
    for request in requests {
        let Job::One(call) = &request.job else {
            return None;
        };
        calls.push_reserved(call);
    }
    Some(calls)
}

/// Runs the calls of the requests, which have this word, over what lies at their targets, in space that is left. Where that cannot be,
/// nothing changes.
fn run_over(
    execution: &impl Execution,
    alloc: Global,
    meter: &mut Meter,
    book: &mut Book,
    requests: &[Request],
    word: Word,
) -> bool
    requires lawful { AllByRecursion (λ r. r.caller < caller_limit) requests.now }
    requires alike { AreOfWord word requests.now }
    requires space { length requests.now ≤ book.old.spaces }
    ensures ran { IsTrue result → RunTogether book.old book.new requests.now }
    ensures grown { IsTrue result → length book.new.history ≡ length book.old.history + length requests.now }
    ensures counted { IsTrue result → meter.new ≡ raised meter.old }
    ensures unchanged { result ≡ false → book.new ≡ book.old }
    ensures stays { result ≡ false → meter.new ≡ meter.old }
    ensures bounds { book.new.bounds ≡ book.old.bounds }
{
    let Some(callers) = callers_of(alloc, requests) else {
        return false;
    };
    let Some(calls) = calls_of(alloc, requests) else {
        return false;
    };
    book.run_alike(execution, alloc, meter, word, &callers, &calls)
}

/// Puts so many outcomes of calls that are done behind the others, at places one behind another.
fn answer_done(first: u64, count: usize, outcomes: &mut Vec<Outcome>)
    requires small { first + count < 2 ^ 64 }
    requires room { vec_len outcomes.old + count ≤ vec_capacity outcomes.old }
    ensures outcomes { outcomes.new.items ≡ outcomes.old.items ++ done_from first count }
    ensures spaces { vec_capacity outcomes.new ≡ vec_capacity outcomes.old }
{
    if count == 0 {
        return;
    }
    outcomes.push_reserved(Outcome::Answered {
        place: first,
        reply: Reply::Done,
    });
    answer_done(first + 1, count - 1, outcomes);
}

/// Serves a batch of alike calls in one wave over what lies at their targets: each result is written there. Where it is no such batch, or cannot be
/// served so, nothing has changed.
#[inline(never)]
pub(crate) fn serve_over(
    execution: &impl Execution,
    alloc: Global,
    book: &mut Book,
    requests: &mut Vec<Request>,
    outcomes: &mut Vec<Outcome>,
    meter: &mut Meter,
) -> bool
    requires few { vec_len requests.old ≤ BATCH_LIMIT }
    requires lawful { AllByRecursion (λ r. r.caller < caller_limit) requests.old.items }
    requires distinct { AllPairs (λ r s. r.caller ≢ s.caller) requests.old.items }
    requires empty { outcomes.old.items ≡ [] }
    requires spaces { vec_len requests.old ≤ vec_capacity outcomes.old }
    ensures served { IsTrue result → ServesAlike book.old book.new requests.old.items outcomes.new.items 0 meter.old meter.new }
    ensures emptied { IsTrue result → requests.new.items ≡ [] }
    ensures history { result ≡ false → book.new.history ≡ book.old.history }
    ensures bounds { result ≡ false → book.new.bounds ≡ book.old.bounds }
    ensures requests { result ≡ false → requests.new.items ≡ requests.old.items }
    ensures outcomes { result ≡ false → outcomes.new.items ≡ [] }
    ensures meter { result ≡ false → meter.new ≡ meter.old }
    ensures request_spaces { vec_capacity requests.new ≡ vec_capacity requests.old }
    ensures outcome_spaces { vec_capacity outcomes.new ≡ vec_capacity outcomes.old }
{
    // In a book no block is cut, and a meter counts no further than its integers go.
    let _entries = book.len();
    let _runs = meter.runs();
    let Some(word) = common_word(requests) else {
        return false;
    };
    if !are_one_wave(requests) {
        return false;
    }
    let count = requests.len();
    let Ok(()) = book.reserve(count) else {
        return false;
    };
    if !run_over(execution, alloc, meter, book, requests, word) {
        return false;
    }
    answer_done((book.len() - count) as u64, count, outcomes);
    requests.clear();
    true
}
