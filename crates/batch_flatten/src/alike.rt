//! A batch of alike calls in one wave, as most batches of several are: one kernel runs for all of them, and then each takes its turn. Of
//! its requests nothing is noted. Where memory is wanted for that kernel, the calls run by themselves; where a call has a fault, the
//! batch is served as any other.

ghost use Rattle.std.specs.Prelude.{◌≡◌, ◌≢◌, ◌<◌, ◌≤◌, [], length, vec_len, vec_capacity, IfNone, IfSome, IsTrue, OnErr, OnOk, OnSome};
ghost use Rattle.std.specs.List.{AllByRecursion, AllPairs, list_any};
ghost use Rattle.scan_kernels.specs.Metering.{raised};
ghost use Rattle.cvl_calls.specs.Runs.{runs_kernel};
ghost use Rattle.call_history.specs.Books.{memory_of};
ghost use Rattle.call_history.specs.Callers.{caller_limit};
ghost use Rattle.cvl_calls.specs.Joined.{effects_of};
ghost use Rattle.batch_flatten.specs.Alike.{AllApart, AreMadeOf, AreOfWord, ServesAlike};
ghost use Rattle.batch_flatten.specs.Counts.{wave_count, word_of_job};
ghost use Rattle.batch_flatten.specs.Waves.{asked, jobs_clash};

use crate::clash::clashes;
use crate::joining::is_same_word;
use crate::made::make_all;
use crate::made_turns::serve_made;
use crate::plan::BATCH_LIMIT;
use crate::planning::waves;
use crate::roll::{job_word, wave_count};
use crate::singly::serve_singly;
use call_history::{Book, Job, Outcome, Request};
use cvl_calls::{Made, Stop, runs_kernel};
use cvl_text::{Call, TwoWord, Word};
use scan_kernels::{Execution, Meter};
use std::alloc::Global;

/// Whether a job has this word. Of the most common calls, those item by item on two vectors, the word is known but for its operation.
#[inline(always)]
fn has_word(job: &Job, word: Word) -> bool
    ensures { IsTrue result → word_of_job job.now ≡ word }
{
    match job {
        Job::One(Call::MapZ2 { op, .. }) => is_same_word(Word::Two(TwoWord::MapZ2(*op)), word),
        _ => is_same_word(job_word(job), word),
    }
}

/// Whether all requests are for single calls of this word, or for blocks where the word is theirs.
#[inline(always)]
fn have_word(requests: &[Request], word: Word) -> bool
    ensures { IsTrue result → AreOfWord word requests.now }
{
    for request in requests {
        if !has_word(&request.job, word) {
            return false;
        }
    }
    true
}

/// The word of all requests, if they are for single calls of one word, which runs a kernel.
#[inline(always)]
pub(crate) fn common_word(requests: &[Request]) -> Option<Word>
    ensures kernel { IfSome result (λ word. IsTrue (runs_kernel word)) }
    ensures alike { IfSome result (λ word. AreOfWord word requests.now) }
    ensures some { OnSome result (0 < length requests.now) }
{
    let (first, later) = requests.split_first()?;
    let word = job_word(&first.job);
    if runs_kernel(word) && have_word(later, word) {
        Some(word)
    } else {
        None
    }
}

/// Whether one of the later requests reads the target of the first.
fn is_read(first: &Request, later: &[Request]) -> bool
    ensures { result ≡ list_any (λ s. jobs_clash (asked first.now) (asked s)) later.now }
{
    later
        .iter()
        .any(|request| clashes(&first.job, &request.job))
}

/// Whether no request reads the target of an earlier one. Each is compared with each.
fn are_apart(requests: &[Request]) -> bool
    ensures { IsTrue result → AllApart requests.now }
{
    let Some((first, later)) = requests.split_first() else {
        return true;
    };
    !is_read(first, later) && are_apart(later)
}

/// Up to so many requests are compared with one another, which is faster than to plan them.
const FEW: usize = 4;

/// Whether no request reads the target of an earlier one, so that all are one wave. Of many requests the first two are compared
/// before all are planned.
pub(crate) fn are_one_wave(requests: &[Request]) -> bool
    requires { length requests.now ≤ BATCH_LIMIT }
    ensures { IsTrue result → wave_count requests.now ≤ 1 }
{
    if let [first, second] = requests {
        return !clashes(&first.job, &second.job);
    }
    if requests.len() <= FEW {
        return are_apart(requests);
    }
    are_apart(&requests[..2]) && wave_count(&waves(requests), requests.len()) <= 1
}

/// Makes what the calls of the requests make of the memory of a book, with the vectors that it keeps for joined runs.
fn make_on(
    execution: &impl Execution,
    alloc: Global,
    meter: &mut Meter,
    book: &mut Book,
    requests: &[Request],
    word: Word,
    made: &mut Made,
) -> Result<(), Stop>
    requires alike { AreOfWord word requests.now }
    requires kernel { IsTrue (runs_kernel word) }
    ensures made { OnOk result (AreMadeOf (memory_of book.old) requests.now (effects_of made.new)) }
    ensures counted { OnOk result (meter.new ≡ raised meter.old) }
    ensures stays { OnErr result (meter.new ≡ meter.old) }
    ensures book { book.new ≡ book.old }
{
    let mut shelves = book.take_shelves();
    let ended = make_all(
        execution,
        alloc,
        meter,
        &mut shelves,
        book.memory(),
        requests,
        word,
        made,
    );
    book.put_shelves(shelves);
    ended
}

/// Serves a batch of alike calls in one wave, by one kernel run; where memory is wanted before the calls are made, they run by themselves.
/// Answers how many did. None where it is no such batch, a call has a fault, or the history cannot be reserved; then nothing has
/// changed.
#[inline(never)]
pub(crate) fn serve_alike(
    execution: &impl Execution,
    alloc: Global,
    book: &mut Book,
    requests: &mut Vec<Request>,
    outcomes: &mut Vec<Outcome>,
    meter: &mut Meter,
) -> Option<u64>
    requires few { vec_len requests.old ≤ BATCH_LIMIT }
    requires lawful { AllByRecursion (λ r. r.caller < caller_limit) requests.old.items }
    requires distinct { AllPairs (λ r s. r.caller ≢ s.caller) requests.old.items }
    requires empty { outcomes.old.items ≡ [] }
    requires spaces { vec_len requests.old ≤ vec_capacity outcomes.old }
    ensures served { IfSome result (λ singles. ServesAlike book.old book.new requests.old.items outcomes.new.items singles meter.old meter.new) }
    ensures emptied { OnSome result (requests.new.items ≡ []) }
    ensures history { IfNone result (book.new.history ≡ book.old.history) }
    ensures bounds { IfNone result (book.new.bounds ≡ book.old.bounds) }
    ensures requests { IfNone result (requests.new.items ≡ requests.old.items) }
    ensures outcomes { IfNone result (outcomes.new.items ≡ []) }
    ensures meter { IfNone result (meter.new ≡ meter.old) }
    ensures request_spaces { vec_capacity requests.new ≡ vec_capacity requests.old }
    ensures outcome_spaces { vec_capacity outcomes.new ≡ vec_capacity outcomes.old }
{
    // In a book no block is cut, and a meter counts no further than its integers go.
    let _entries = book.len();
    let _runs = meter.runs();
    let word = common_word(requests)?;
    if !are_one_wave(requests) {
        return None;
    }
    let count = requests.len();
    let Ok(()) = book.reserve(count) else {
        return None;
    };
    let mut made = Made::nothing(alloc);
    match make_on(execution, alloc, meter, book, requests, word, &mut made) {
        Ok(()) => {
            serve_made(alloc, book, requests, made, outcomes);
            Some(0)
        }
        Err(Stop::OutOfMemory) => {
            serve_singly(execution, alloc, meter, book, requests, outcomes);
            Some(count as u64)
        }
        Err(Stop::Fault(_)) => None,
    }
}
