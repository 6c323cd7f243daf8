//! The turns of requests whose results were made before, in the order of the requests. No call is moved that a history keeps in few
//! bytes.

ghost use Rattle.std.specs.Prelude.{◌≡◌, ◌≢◌, ◌+◌, ◌<◌, ◌≤◌, ◌∷◌, ◌++◌, [], Ok, length, map, vec_len, vec_capacity};
ghost use Rattle.std.specs.List.{AllByRecursion, AllPairs, range_with_len};
ghost use Rattle.cvl_text.specs.Tasks.{task_of};
ghost use Rattle.vector_memory.specs.Contents.{Bools, Ints, content_of};
ghost use Rattle.cvl_text.specs.Answers.{BoolOf, IntOf, answer_of};
ghost use Rattle.cvl_calls.specs.Joined.{effects_of};
ghost use Rattle.cvl_calls.specs.Outcomes.{Answers, Effect, Stores};
ghost use Rattle.cvl_calls.specs.Steps.{work_on};
ghost use Rattle.call_history.specs.declared.request.Job.{Job};
ghost use Rattle.call_history.specs.declared.request.Outcome.{Outcome};
ghost use Rattle.call_history.specs.Books.{memory_of};
ghost use Rattle.call_history.specs.Callers.{caller_limit};
ghost use Rattle.call_history.specs.Works.{IsWork};
ghost use Rattle.batch_flatten.specs.Alike.{AllApart, AreMadeOf, answered_at, work_asked};
ghost use Rattle.batch_flatten.specs.Batches.{RunsJob};
ghost use Rattle.batch_flatten.specs.Serving.{Serving};

use crate::emptying::empty;
use crate::roll::handed_back;
use call_history::{Book, Job, Outcome, Request, Unserved, Work};
use cvl_calls::Made;
use cvl_text::{Call, Fault, Reply};
use std::alloc::Global;
use std::mem;
use vector_memory::Value;

/// What became of a call that stands in the history at this place, and whose value was stored, or refused by a fault.
#[inline(always)]
pub(crate) fn answered(place: u64, fault: Option<Fault>) -> Outcome
    ensures { result ≡ answered_at place fault }
{
    let reply = match fault {
        None => Reply::Done,
        Some(fault) => Reply::Fault(fault),
    };
    Outcome::Answered { place, reply }
}

/// Takes the job out of a request, which is of no use any more.
pub(crate) fn take_job(alloc: Global, request: &mut Request) -> Job
    ensures { result ≡ request.old.job }
{
    mem::replace(&mut request.job, Job::Many(Vec::new(alloc)))
}

/// The turn of a call that a history keeps whole.
#[inline(never)]
fn run_whole(book: &mut Book, caller: u64, job: Job, work: Work, outcomes: &mut Vec<Outcome>)
    requires caller { caller < caller_limit }
    requires made { (call : Call) → job ≡ Job.One call → IsWork work (work_on (memory_of book.old) (task_of call)) }
    requires room { vec_len outcomes.old < vec_capacity outcomes.old }
    ensures ran { (outcome : Outcome) × (outcomes.new.items ≡ outcomes.old.items ++ outcome ∷ []) × RunsJob book.old book.new caller job outcome }
    ensures one_space { book.old.spaces ≤ book.new.spaces + 1 }
    ensures spaces { vec_capacity outcomes.new ≡ vec_capacity outcomes.old }
{
    match job {
        Job::One(call) => match book.run_with(caller, call, work) {
            Ok((place, reply)) => outcomes.push_reserved(Outcome::Answered { place, reply }),
            Err((call, _)) => outcomes.push_reserved(Outcome::Refused(call)),
        },
        Job::Many(calls) => outcomes.push_reserved(Outcome::RefusedBlock(calls)),
    }
}

/// The turn of a call that did not run where it was lent: a history keeps it whole, or memory is wanted. It stands apart, since most
/// calls run.
#[inline(never)]
fn serve_unserved(
    alloc: Global,
    book: &mut Book,
    request: &mut Request,
    unserved: Unserved<Work>,
    outcomes: &mut Vec<Outcome>,
)
    requires caller { request.old.caller < caller_limit }
    requires made { (work : Work) (call : Call) → unserved ≡ Unserved.Whole work → request.old.job ≡ Job.One call → IsWork work (work_on (memory_of book.old) (task_of call)) }
    requires room { vec_len outcomes.old < vec_capacity outcomes.old }
    ensures ran { (outcome : Outcome) × (outcomes.new.items ≡ outcomes.old.items ++ outcome ∷ []) × RunsJob book.old book.new request.old.caller request.old.job outcome }
    ensures one_space { book.old.spaces ≤ book.new.spaces + 1 }
    ensures spaces { vec_capacity outcomes.new ≡ vec_capacity outcomes.old }
{
    let caller = request.caller;
    let job = take_job(alloc, request);
    match unserved {
        Unserved::OutOfMemory => outcomes.push_reserved(handed_back(job)),
        Unserved::Whole(work) => run_whole(book, caller, job, work, outcomes),
    }
}

/// The same of a call whose value was made before.
#[inline(never)]
fn serve_unserved_value(
    alloc: Global,
    book: &mut Book,
    request: &mut Request,
    unserved: Unserved<Value>,
    outcomes: &mut Vec<Outcome>,
)
    requires caller { request.old.caller < caller_limit }
    requires made { (value : Value) (call : Call) → unserved ≡ Unserved.Whole value → request.old.job ≡ Job.One call → work_on (memory_of book.old) (task_of call) ≡ Ok (Stores (content_of value)) }
    requires room { vec_len outcomes.old < vec_capacity outcomes.old }
    ensures ran { (outcome : Outcome) × (outcomes.new.items ≡ outcomes.old.items ++ outcome ∷ []) × RunsJob book.old book.new request.old.caller request.old.job outcome }
    ensures one_space { book.old.spaces ≤ book.new.spaces + 1 }
    ensures spaces { vec_capacity outcomes.new ≡ vec_capacity outcomes.old }
{
    let work = match unserved {
        Unserved::OutOfMemory => Unserved::OutOfMemory,
        Unserved::Whole(value) => Unserved::Whole(Work::Store(value)),
    };
    serve_unserved(alloc, book, request, work, outcomes);
}

/// The turn of a request whose reply was made before. What became of it goes behind the outcomes.
#[inline(always)]
fn serve_reply(
    alloc: Global,
    book: &mut Book,
    request: &mut Request,
    reply: Reply,
    outcomes: &mut Vec<Outcome>,
)
    requires caller { request.old.caller < caller_limit }
    requires made { work_asked (memory_of book.old) request.old ≡ Ok (Answers (answer_of reply)) }
    requires space { 0 < book.old.spaces }
    requires room { vec_len outcomes.old < vec_capacity outcomes.old }
    ensures ran { (outcome : Outcome) × (outcomes.new.items ≡ outcomes.old.items ++ outcome ∷ []) × RunsJob book.old book.new request.old.caller request.old.job outcome }
    ensures one_space { book.old.spaces ≤ book.new.spaces + 1 }
    ensures spaces { vec_capacity outcomes.new ≡ vec_capacity outcomes.old }
{
    let caller = request.caller;
    let Job::One(call) = &request.job else {
        unreachable!()
    };
    match book.run_lent(caller, call, Work::Say(reply)) {
        Ok((place, reply)) => outcomes.push_reserved(Outcome::Answered { place, reply }),
        Err(unserved) => serve_unserved(alloc, book, request, unserved, outcomes),
    }
}

/// The turn of a request whose value was made before. What became of it goes behind the outcomes.
#[inline(always)]
fn serve_value(
    alloc: Global,
    book: &mut Book,
    request: &mut Request,
    value: Value,
    outcomes: &mut Vec<Outcome>,
)
    requires caller { request.old.caller < caller_limit }
    requires made { work_asked (memory_of book.old) request.old ≡ Ok (Stores (content_of value)) }
    requires space { 0 < book.old.spaces }
    requires room { vec_len outcomes.old < vec_capacity outcomes.old }
    ensures ran { (outcome : Outcome) × (outcomes.new.items ≡ outcomes.old.items ++ outcome ∷ []) × RunsJob book.old book.new request.old.caller request.old.job outcome }
    ensures one_space { book.old.spaces ≤ book.new.spaces + 1 }
    ensures spaces { vec_capacity outcomes.new ≡ vec_capacity outcomes.old }
{
    let caller = request.caller;
    let Job::One(call) = &request.job else {
        unreachable!()
    };
    match book.store_lent(caller, call, value) {
        Ok((place, fault)) => outcomes.push_reserved(answered(place, fault)),
        Err(unserved) => serve_unserved_value(alloc, book, request, unserved, outcomes),
    }
}

/// What a call made, for its turn.
pub(crate) trait Turned: Drop {
    /// What it is.
    ghost effect: { Self → Effect };

    /// The turn of a request for it. What became of it goes behind the outcomes.
    fn serve(
        &mut self,
        alloc: Global,
        book: &mut Book,
        request: &mut Request,
        outcomes: &mut Vec<Outcome>,
    )
        requires caller { request.old.caller < caller_limit }
        requires made { work_asked (memory_of book.old) request.old ≡ Ok (effect self.old) }
        requires space { 0 < book.old.spaces }
        requires room { vec_len outcomes.old < vec_capacity outcomes.old }
        ensures ran { (outcome : Outcome) × (outcomes.new.items ≡ outcomes.old.items ++ outcome ∷ []) × RunsJob book.old book.new request.old.caller request.old.job outcome }
        ensures one_space { book.old.spaces ≤ book.new.spaces + 1 }
        ensures spaces { vec_capacity outcomes.new ≡ vec_capacity outcomes.old };
}

impl Turned for Vec<i64> {
    ghost effect = { λ v. Stores (Ints v.items) };

    #[inline(always)]
    fn serve(
        &mut self,
        alloc: Global,
        book: &mut Book,
        request: &mut Request,
        outcomes: &mut Vec<Outcome>,
    ) {
        let items = mem::replace(self, Vec::new(alloc));
        serve_value(alloc, book, request, Value::Ints(items), outcomes);
    }
}

impl Turned for Vec<bool> {
    ghost effect = { λ v. Stores (Bools v.items) };

    #[inline(always)]
    fn serve(
        &mut self,
        alloc: Global,
        book: &mut Book,
        request: &mut Request,
        outcomes: &mut Vec<Outcome>,
    ) {
        let items = mem::replace(self, Vec::new(alloc));
        serve_value(alloc, book, request, Value::Bools(items), outcomes);
    }
}

impl Turned for i64 {
    ghost effect = { λ x. Answers (IntOf x) };

    #[inline(always)]
    fn serve(
        &mut self,
        alloc: Global,
        book: &mut Book,
        request: &mut Request,
        outcomes: &mut Vec<Outcome>,
    ) {
        serve_reply(alloc, book, request, Reply::Int(*self), outcomes);
    }
}

impl Turned for bool {
    ghost effect = { λ x. Answers (BoolOf x) };

    #[inline(always)]
    fn serve(
        &mut self,
        alloc: Global,
        book: &mut Book,
        request: &mut Request,
        outcomes: &mut Vec<Outcome>,
    ) {
        serve_reply(alloc, book, request, Reply::Bool(*self), outcomes);
    }
}

/// Serves requests of which this was made, one after the other.
fn serve_each<T: Turned>(
    alloc: Global,
    book: &mut Book,
    requests: &mut Vec<Request>,
    made: &mut Vec<T>,
    outcomes: &mut Vec<Outcome>,
)
    requires lawful { AllByRecursion (λ r. r.caller < caller_limit) requests.old.items }
    requires distinct { AllPairs (λ r s. r.caller ≢ s.caller) requests.old.items }
    requires apart { AllApart requests.old.items }
    requires made { AreMadeOf (memory_of book.old) requests.old.items (map T.effect made.old.items) }
    requires space { vec_len requests.old ≤ book.old.spaces }
    requires empty { outcomes.old.items ≡ [] }
    requires room { vec_len requests.old ≤ vec_capacity outcomes.old }
    ensures serves { Serving book.old.bounds book.old.history requests.old.items (range_with_len 0 (length requests.old.items)) book.new.history outcomes.new.items }
    ensures bounds { book.new.bounds ≡ book.old.bounds }
    ensures request_spaces { vec_capacity requests.new ≡ vec_capacity requests.old }
    ensures outcome_spaces { vec_capacity outcomes.new ≡ vec_capacity outcomes.old }
{
    // In a book no block is cut.
    let _entries = book.len();
    for place in 0..requests.len() {
        made[place].serve(alloc, book, &mut requests[place], outcomes);
    }
}

/// Serves requests of which this was made, one after the other, and empties their list.
pub(crate) fn serve_made(
    alloc: Global,
    book: &mut Book,
    requests: &mut Vec<Request>,
    mut made: Made,
    outcomes: &mut Vec<Outcome>,
)
    requires lawful { AllByRecursion (λ r. r.caller < caller_limit) requests.old.items }
    requires distinct { AllPairs (λ r s. r.caller ≢ s.caller) requests.old.items }
    requires apart { AllApart requests.old.items }
    requires made { AreMadeOf (memory_of book.old) requests.old.items (effects_of made) }
    requires space { vec_len requests.old ≤ book.old.spaces }
    requires empty { outcomes.old.items ≡ [] }
    requires room { vec_len requests.old ≤ vec_capacity outcomes.old }
    ensures serves { Serving book.old.bounds book.old.history requests.old.items (range_with_len 0 (length requests.old.items)) book.new.history outcomes.new.items }
    ensures bounds { book.new.bounds ≡ book.old.bounds }
    ensures requests { requests.new.items ≡ [] }
    ensures request_spaces { vec_capacity requests.new ≡ vec_capacity requests.old }
    ensures outcome_spaces { vec_capacity outcomes.new ≡ vec_capacity outcomes.old }
{
    match &mut made {
        Made::Ints(vectors) => serve_each(alloc, book, requests, vectors, outcomes),
        Made::Bools(vectors) => serve_each(alloc, book, requests, vectors, outcomes),
        Made::Numbers(items) => serve_each(alloc, book, requests, items, outcomes),
        Made::Truths(items) => serve_each(alloc, book, requests, items, outcomes),
    }
    book.keep_list(alloc, made);
    empty(requests);
}
