//! Lists of requests that were served are emptied.

ghost use Rattle.std.specs.Prelude.{◌≡◌, ◌+◌, ◌<◌, [], false, vec_len, vec_capacity};
ghost use Rattle.call_history.specs.Owning.{is_owning_job};

use call_history::Request;
use std::mem;

/// Lets go of a request with which nothing is freed.
#[inline(always)]
fn let_go(request: Request)
    requires { is_owning_job request.job ≡ false }
{
    mem::forget(request);
}

/// Takes the last request off the list.
#[inline(never)]
fn drop_owning(requests: &mut Vec<Request>)
    requires { 0 < vec_len requests.old }
    ensures len { vec_len requests.new + 1 ≡ vec_len requests.old }
    ensures spaces { vec_capacity requests.new ≡ vec_capacity requests.old }
{
    requests.take_last();
}

/// Takes the last request off the list. One with which nothing is freed is not moved for it.
#[inline(always)]
fn drop_last(requests: &mut Vec<Request>)
    requires { 0 < vec_len requests.old }
    ensures len { vec_len requests.new + 1 ≡ vec_len requests.old }
    ensures spaces { vec_capacity requests.new ≡ vec_capacity requests.old }
{
    let last = requests.len() - 1;
    if requests[last].job.is_owning() {
        drop_owning(requests);
    } else {
        let_go(requests.take_last());
    }
}

/// Empties the list: what `clear` does, which moves each request.
#[inline(always)]
pub(crate) fn empty(requests: &mut Vec<Request>)
    ensures items { requests.new.items ≡ [] }
    ensures spaces { vec_capacity requests.new ≡ vec_capacity requests.old }
{
    for _ in 0..requests.len() {
        drop_last(requests);
    }
}
