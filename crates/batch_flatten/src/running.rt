//! A whole batch.

ghost use Rattle.std.specs.Prelude.{◌≡◌, ◌≢◌, ◌⊎◌, ◌+◌, ◌<◌, ◌≤◌, [], ℕ, List, length, map, take, slice_index, vec_len, vec_capacity};
ghost use Rattle.std.specs.List.{AllByRecursion, AllPairs};
ghost use Rattle.call_history.specs.declared.entry.Entry.{Entry};
ghost use Rattle.call_history.specs.declared.request.Request.{Request};
ghost use Rattle.call_history.specs.Callers.{caller_limit};
ghost use Rattle.call_history.specs.Fits.{IsLawfulJob, returned};
ghost use Rattle.batch_flatten.specs.Waves.{count_of};
ghost use Rattle.batch_flatten.specs.Places.{AreBelow, places_of_first};
ghost use Rattle.batch_flatten.specs.Batches.{AnswersAllSure, ServesInOrder};
ghost use Rattle.batch_flatten.specs.Counts.{RisesBy, count_back, kernel_bound, kernels_below, sizes_back, wave_count};
ghost use Rattle.batch_flatten.specs.Joining.{AreNoted};
ghost use Rattle.batch_flatten.specs.Serving.{AnswersSure, AreApart, AreAskedBy, AreLawful, Serving, WereBack};

use crate::alike::serve_alike;
use crate::alone::serve_alone;
use crate::over::{is_worth, serve_over};
use crate::plan::BATCH_LIMIT;
use crate::ran::Ran;
use crate::roll::{Roll, open};
use crate::wave::{find_wave, serve_wave};
use call_history::{Book, Outcome, Request};
use cvl_text::Word;
use scan_kernels::{Execution, Meter};
use std::alloc::Global;

/// Serves the waves, one after the other. How many calls ran by themselves though they were to be joined.
fn serve_waves(
    execution: &impl Execution,
    alloc: Global,
    meter: &mut Meter,
    book: &mut Book,
    roll: &Roll,
    outcomes: &mut Vec<Outcome>,
) -> u64
    requires few { vec_len outcomes.old ≤ BATCH_LIMIT }
    requires lawful { AreBelow caller_limit roll.now.callers }
    requires lawful_jobs { AreLawful outcomes.old.items }
    requires space { count_back outcomes.old.items ≤ book.old.spaces }
    requires words { AreNoted roll.now.words outcomes.old.items }
    requires apart { AreApart roll.now.waves outcomes.old.items }
    ensures serves { (line : List Entry) (rs : List Request) → AreAskedBy rs roll.now.callers
        → Serving book.old.bounds line rs [] book.old.history outcomes.old.items
        → Serving book.old.bounds line rs (places_of_first (take (vec_len outcomes.old) roll.now.waves) roll.now.count) book.new.history outcomes.new.items }
    ensures sure { AnswersSure outcomes.new.items (places_of_first (take (vec_len outcomes.old) roll.now.waves) roll.now.count) }
    ensures counted { RisesBy (kernels_below (take (vec_len outcomes.old) roll.now.waves) (take (vec_len outcomes.old) roll.now.words)
        (sizes_back outcomes.old.items) roll.now.count + result) meter.old meter.new }
    ensures few_singles { result ≤ vec_len outcomes.old }
    ensures back { WereBack outcomes.old.items outcomes.new.items }
    ensures bounds { book.new.bounds ≡ book.old.bounds }
    ensures count { vec_len outcomes.new ≡ vec_len outcomes.old }
    ensures spaces { vec_capacity outcomes.new ≡ vec_capacity outcomes.old }
{
    let mut found = [0; BATCH_LIMIT];
    let mut found_words = [Word::SetInts; BATCH_LIMIT];
    let mut singles: u64 = 0;
    for wave in 0..roll.count {
        let many = find_wave(
            &roll.waves,
            &roll.words,
            outcomes.len(),
            wave,
            &mut found,
            &mut found_words,
        );
        singles += serve_wave(
            execution,
            alloc,
            meter,
            book,
            &roll.callers,
            &found[..many],
            &found_words[..many],
            outcomes,
        );
    }
    singles
}

/// Serves a batch of several requests. It stands apart, so that the arrays for so many requests are no part of a batch of one.
#[inline(never)]
fn serve_many(
    execution: &impl Execution,
    alloc: Global,
    book: &mut Book,
    requests: &mut Vec<Request>,
    outcomes: &mut Vec<Outcome>,
    meter: &mut Meter,
) -> Ran
    requires few { vec_len requests.old ≤ BATCH_LIMIT }
    requires lawful { AllByRecursion (λ r. r.caller < caller_limit) requests.old.items }
    requires jobs { AllByRecursion (λ r. IsLawfulJob r.job) requests.old.items }
    requires distinct { AllPairs (λ r s. r.caller ≢ s.caller) requests.old.items }
    requires empty { outcomes.old.items ≡ [] }
    requires spaces { vec_len requests.old ≤ vec_capacity outcomes.old }
    ensures serves { ServesInOrder book.old.bounds book.old.history requests.old.items book.new.history outcomes.new.items }
    ensures bounds { book.new.bounds ≡ book.old.bounds }
    ensures waves { (result.waves ≡ wave_count requests.old.items)
        ⊎ ((result ≡ Ran.NOTHING) × (book.new.history ≡ book.old.history) × (outcomes.new.items ≡ map returned requests.old.items)) }
    ensures sure { 0 < result.waves → AnswersAllSure requests.old.items outcomes.new.items }
    ensures bound { result.kernels ≤ kernel_bound requests.old.items + result.singles }
    ensures few_singles { result.singles ≤ length requests.old.items }
    ensures kernels { meter.new ≡ record meter.old { runs = meter.old.runs + result.kernels } }
    ensures requests { requests.new.items ≡ [] }
    ensures request_spaces { vec_capacity requests.new ≡ vec_capacity requests.old }
    ensures outcome_spaces { vec_capacity outcomes.new ≡ vec_capacity outcomes.old }
{
    // In a book no block is cut.
    let _entries = book.len();
    let roll = open(requests, outcomes);
    let Ok(()) = book.reserve(roll.calls) else {
        return Ran::NOTHING;
    };
    let before = meter.runs();
    let singles = serve_waves(execution, alloc, meter, book, &roll, outcomes);
    Ran {
        waves: u64::from(roll.count),
        kernels: meter.runs() - before,
        singles,
    }
}

/// What a batch of one wave did: so many kernels ran, and so many calls by themselves though they were to be joined.
fn one_wave(kernels: u64, singles: u64) -> Ran
    ensures waves { result.waves ≡ 1 }
    ensures kernels { result.kernels ≡ kernels }
    ensures singles { result.singles ≡ singles }
{
    Ran {
        waves: 1,
        kernels,
        singles,
    }
}

/// Serves the requests of a batch in the order of their waves. What became of them stands in their own order. A block takes its turn
/// as one: its calls stand next to one another in the history, or all of them come back. Where the history cannot be reserved, each
/// job comes back and nothing changes.
#[inline(always)]
pub fn run_batch(
    execution: &impl Execution,
    alloc: Global,
    book: &mut Book,
    requests: &mut Vec<Request>,
    outcomes: &mut Vec<Outcome>,
    meter: &mut Meter,
) -> Ran
    requires few { vec_len requests.old ≤ BATCH_LIMIT }
    requires lawful { AllByRecursion (λ r. r.caller < caller_limit) requests.old.items }
    requires jobs { AllByRecursion (λ r. IsLawfulJob r.job) requests.old.items }
    requires distinct { AllPairs (λ r s. r.caller ≢ s.caller) requests.old.items }
    requires empty { outcomes.old.items ≡ [] }
    requires spaces { vec_len requests.old ≤ vec_capacity outcomes.old }
    ensures serves { ServesInOrder book.old.bounds book.old.history requests.old.items book.new.history outcomes.new.items }
    ensures bounds { book.new.bounds ≡ book.old.bounds }
    ensures waves { (result.waves ≡ wave_count requests.old.items)
        ⊎ ((result ≡ Ran.NOTHING) × (book.new.history ≡ book.old.history) × (outcomes.new.items ≡ map returned requests.old.items)) }
    ensures sure { 0 < result.waves → AnswersAllSure requests.old.items outcomes.new.items }
    ensures bound { result.kernels ≤ kernel_bound requests.old.items + result.singles }
    ensures few_singles { result.singles ≤ length requests.old.items }
    ensures kernels { meter.new ≡ record meter.old { runs = meter.old.runs + result.kernels } }
    ensures requests { requests.new.items ≡ [] }
    ensures request_spaces { vec_capacity requests.new ≡ vec_capacity requests.old }
    ensures outcome_spaces { vec_capacity outcomes.new ≡ vec_capacity outcomes.old }
{
    if requests.len() < 2 {
        return serve_alone(execution, alloc, book, requests, outcomes, meter);
    }
    let before = meter.runs();
    // Where long results were replaced, or many, the next are so as well, as a rule.
    let is_worth_over = book.keeps_long_ints() && is_worth(book, requests);
    if is_worth_over && serve_over(execution, alloc, book, requests, outcomes, meter) {
        return one_wave(meter.runs() - before, 0);
    }
    match serve_alike(execution, alloc, book, requests, outcomes, meter) {
        Some(singles) => one_wave(meter.runs() - before, singles),
        None => serve_many(execution, alloc, book, requests, outcomes, meter),
    }
}
