//! Requests of one wave that run by themselves, one after the other, since memory was wanted where they were to be joined.

ghost use Rattle.std.specs.Prelude.{◌≡◌, ◌≢◌, ◌<◌, ◌≤◌, [], length, vec_len, vec_capacity};
ghost use Rattle.std.specs.List.{AllByRecursion, AllPairs, range_with_len};
ghost use Rattle.call_history.specs.Callers.{caller_limit};
ghost use Rattle.batch_flatten.specs.Alike.{IsForCall};
ghost use Rattle.batch_flatten.specs.Counts.{RisesBy};
ghost use Rattle.batch_flatten.specs.Serving.{Serving};

use crate::alone::run_call_onto;
use crate::made_turns::take_job;
use call_history::{Book, Job, Outcome, Request};
use scan_kernels::{Execution, Meter};
use std::alloc::Global;

/// Serves requests for single calls one after the other, each by itself, and empties their list.
#[inline(never)]
pub(crate) fn serve_singly(
    execution: &impl Execution,
    alloc: Global,
    meter: &mut Meter,
    book: &mut Book,
    requests: &mut Vec<Request>,
    outcomes: &mut Vec<Outcome>,
)
    requires lawful { AllByRecursion (λ r. r.caller < caller_limit) requests.old.items }
    requires distinct { AllPairs (λ r s. r.caller ≢ s.caller) requests.old.items }
    requires single { AllByRecursion IsForCall requests.old.items }
    requires space { vec_len requests.old ≤ book.old.spaces }
    requires empty { outcomes.old.items ≡ [] }
    requires room { vec_len requests.old ≤ vec_capacity outcomes.old }
    ensures serves { Serving book.old.bounds book.old.history requests.old.items (range_with_len 0 (length requests.old.items)) book.new.history outcomes.new.items }
    ensures counted { RisesBy (length requests.old.items) meter.old meter.new }
    ensures bounds { book.new.bounds ≡ book.old.bounds }
    ensures requests { requests.new.items ≡ [] }
    ensures request_spaces { vec_capacity requests.new ≡ vec_capacity requests.old }
    ensures outcome_spaces { vec_capacity outcomes.new ≡ vec_capacity outcomes.old }
{
    // In a book no block is cut.
    let _entries = book.len();
    for place in 0..requests.len() {
        let request = &mut requests[place];
        let caller = request.caller;
        let Job::One(call) = take_job(alloc, request) else {
            unreachable!()
        };
        run_call_onto(execution, alloc, meter, book, caller, call, outcomes);
    }
    requests.clear();
}
