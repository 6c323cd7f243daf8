//! A batch is opened: what is asked of its requests more than once is noted, and their jobs go into their outcomes.

ghost use Rattle.std.specs.Prelude.{◌≡◌, ◌<◌, ◌≤◌, [], length, map, sum_by, take, vec_len, vec_capacity};
ghost use Rattle.std.specs.List.{AllByRecursion};
ghost use Rattle.call_history.specs.Callers.{caller_limit};
ghost use Rattle.call_history.specs.Fits.{IsLawfulJob, calls_of, handed_back, returned};
ghost use Rattle.batch_flatten.specs.Waves.{asked, count_of, waves_of};
ghost use Rattle.batch_flatten.specs.Places.{AreBelow};
ghost use Rattle.batch_flatten.specs.Counts.{count_back, wave_count, word_asked, word_of_job};
ghost use Rattle.batch_flatten.specs.Joining.{AreNoted};
ghost use Rattle.batch_flatten.specs.Serving.{AreApart, AreLawful, caller_of};

use crate::plan::BATCH_LIMIT;
use crate::planning::waves;
use call_history::{Job, Outcome, Request};
use cvl_text::{Word, call_word};

/// What is noted of the requests of a batch, by their places.
#[derive(Drop)]
pub(crate) struct Roll {
    /// The number of the caller.
    pub callers: [u8; BATCH_LIMIT],
    /// The word of a single call, or one that runs no kernel.
    pub words: [Word; BATCH_LIMIT],
    /// The wave.
    pub waves: [u8; BATCH_LIMIT],
    /// How many waves there are.
    pub count: u8,
    /// How many calls all jobs have together.
    pub calls: usize,
}

/// The callers of the requests, and 0 past the last.
fn callers_of(requests: &[Request]) -> [u8; BATCH_LIMIT]
    requires few { length requests.now ≤ BATCH_LIMIT }
    requires lawful { AllByRecursion (λ r. r.caller < caller_limit) requests.now }
    ensures callers { take (length requests.now) result ≡ map caller_of requests.now }
    ensures lawful { AreBelow caller_limit result }
{
    let mut callers = [0; BATCH_LIMIT];
    for i in 0..requests.len() {
        callers[i] = requests[i].caller as u8;
    }
    callers
}

/// The word of a single call; of a block one that runs no kernel.
#[inline(always)]
pub(crate) fn job_word(job: &Job) -> Word
    ensures { result ≡ word_of_job job.now }
{
    match job {
        Job::One(call) => call_word(call),
        Job::Many(_) => Word::SetInts,
    }
}

/// The words of the single calls of the requests, and one that runs no kernel at the others and past the last.
fn words_of(requests: &[Request]) -> [Word; BATCH_LIMIT]
    requires { length requests.now ≤ BATCH_LIMIT }
    ensures { take (length requests.now) result ≡ map word_asked requests.now }
{
    let mut words = [Word::SetInts; BATCH_LIMIT];
    for i in 0..requests.len() {
        words[i] = job_word(&requests[i].job);
    }
    words
}

/// How many waves the first requests, so many, have.
pub(crate) fn wave_count(waves: &[u8; BATCH_LIMIT], count: usize) -> u8
    requires count { count ≤ BATCH_LIMIT }
    requires below { AreBelow BATCH_LIMIT waves.now }
    ensures { result ≡ count_of (take count waves.now) }
{
    let mut most: u8 = 0;
    for i in 0..count {
        most = most.max(waves[i] + 1);
    }
    most
}

/// How many calls a job has.
pub(crate) fn call_count(job: &Job) -> usize
    ensures { result ≡ length (calls_of job.now) }
{
    match job {
        Job::One(_) => 1,
        Job::Many(calls) => calls.len(),
    }
}

/// How many calls the jobs of the requests have together.
fn count_calls(requests: &[Request]) -> usize
    requires few { length requests.now ≤ BATCH_LIMIT }
    requires jobs { AllByRecursion (λ r. IsLawfulJob r.job) requests.now }
    ensures { result ≡ sum_by (λ r. length (calls_of r.job)) requests.now }
{
    let mut calls = 0;
    for i in 0..requests.len() {
        calls += call_count(&requests[i].job);
    }
    calls
}

/// The outcome of a job of which nothing has become yet: its calls back.
pub(crate) fn handed_back(job: Job) -> Outcome
    ensures { result ≡ handed_back job }
{
    match job {
        Job::One(call) => Outcome::Refused(call),
        Job::Many(calls) => Outcome::RefusedBlock(calls),
    }
}

/// Hands each job back: it moves into its outcome, in the order of the requests.
#[inline(never)]
pub(crate) fn hand_back(requests: &mut Vec<Request>, outcomes: &mut Vec<Outcome>)
    requires empty { outcomes.old.items ≡ [] }
    requires spaces { vec_len requests.old ≤ vec_capacity outcomes.old }
    ensures outcomes { outcomes.new.items ≡ map returned requests.old.items }
    ensures requests { requests.new.items ≡ [] }
    ensures request_spaces { vec_capacity requests.new ≡ vec_capacity requests.old }
    ensures outcome_spaces { vec_capacity outcomes.new ≡ vec_capacity outcomes.old }
{
    requests.reverse();
    while let Some(request) = requests.pop() {
        let Request { caller: _, job } = request;
        outcomes.push_reserved(handed_back(job));
    }
}

/// Notes what is asked of the requests, and hands their jobs back.
pub(crate) fn open(requests: &mut Vec<Request>, outcomes: &mut Vec<Outcome>) -> Roll
    requires few { vec_len requests.old ≤ BATCH_LIMIT }
    requires lawful { AllByRecursion (λ r. r.caller < caller_limit) requests.old.items }
    requires jobs { AllByRecursion (λ r. IsLawfulJob r.job) requests.old.items }
    requires empty { outcomes.old.items ≡ [] }
    requires spaces { vec_len requests.old ≤ vec_capacity outcomes.old }
    ensures callers { take (length requests.old.items) result.callers ≡ map caller_of requests.old.items }
    ensures lawful { AreBelow caller_limit result.callers }
    ensures words { take (length requests.old.items) result.words ≡ map word_asked requests.old.items }
    ensures waves { take (length requests.old.items) result.waves ≡ waves_of (map asked requests.old.items) }
    ensures count { result.count ≡ wave_count requests.old.items }
    ensures calls { result.calls ≡ count_back outcomes.new.items }
    ensures lawful_jobs { AreLawful outcomes.new.items }
    ensures outcomes { outcomes.new.items ≡ map returned requests.old.items }
    ensures noted { AreNoted result.words outcomes.new.items }
    ensures apart { AreApart result.waves outcomes.new.items }
    ensures requests { requests.new.items ≡ [] }
    ensures request_spaces { vec_capacity requests.new ≡ vec_capacity requests.old }
    ensures outcome_spaces { vec_capacity outcomes.new ≡ vec_capacity outcomes.old }
{
    let callers = callers_of(requests);
    let words = words_of(requests);
    let calls = count_calls(requests);
    let planned = waves(requests);
    let count = wave_count(&planned, requests.len());
    hand_back(requests, outcomes);
    Roll {
        callers,
        words,
        waves: planned,
        count,
        calls,
    }
}
