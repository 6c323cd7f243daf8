//! Batches of which a growth is refused. `refused/run.sh` runs these tests once for each growth that a batch asks for, and has it
//! refused; the growths are those between the lines `begin` and `end`. By themselves the tests see none refused.
//!
//! Contracts say what came of the calls that were answered. What no contract can say is asked here: that a refused growth of a
//! group has its calls run by themselves, and that any other comes to one call alone.

ghost use Rattle.std.specs.Prelude.{◌≡◌, ◌≤◌, [], length, map, vec_capacity, vec_len};
ghost use Rattle.std.specs.List.{AllByRecursion, range_with_len};
ghost use Rattle.call_history.specs.Fits.{IsLawfulJob};
ghost use Rattle.batch_flatten.specs.Serving.{caller_of};

use crate::asking::{batch_of, book_of};
use batch_flatten::{BATCH_LIMIT, Ran, run_batch};
use call_history::{Book, Outcome, Request};
use scan_kernels::{Meter, Sequential};
use std::alloc::Global;
use std::process::Abort;

/// The requests for the calls of these lines, and space for what becomes of them.
fn asked(rt: &impl Abort, alloc: Global, calls: &str) -> (Vec<Request>, Vec<Outcome>)
    ensures few { vec_len result.0 ≤ BATCH_LIMIT }
    ensures callers { map caller_of result.0.items ≡ range_with_len 0 (length result.0.items) }
    ensures jobs { AllByRecursion (λ r. IsLawfulJob r.job) result.0.items }
    ensures empty { result.1.items ≡ [] }
    ensures spaces { BATCH_LIMIT ≤ vec_capacity result.1 }
{
    let outcomes = Vec::with_capacity(alloc, BATCH_LIMIT).expect(rt, "memory");
    let requests = batch_of(rt, alloc, calls);
    (requests, outcomes)
}

/// How many calls came back.
fn count_back(outcomes: &[Outcome]) -> usize {
    outcomes
        .iter()
        .filter(|outcome| matches!(outcome, Outcome::Refused(_)))
        .count()
}

/// Serves the calls of these lines as one batch behind these. Asserts that at most one of them comes back, or all do and
/// nothing has changed, and prints how they were served. It leaves at its end alone, where all that it holds is dropped once.
fn serves_the_others<R: Abort + Alloc<A = Global> + Print>(rt: &R, before: &str, calls: &str) {
    let (mut requests, mut outcomes) = asked(rt, rt.alloc(), calls);
    let mut book = book_of(rt, rt.alloc(), 1000, before);
    let length = book.len();
    let begun = println!(rt; "begin");
    let ran = run_batch(
        &Sequential,
        rt.alloc(),
        &mut book,
        &mut requests,
        &mut outcomes,
        &mut Meter::new(),
    );
    let ended = println!(rt; "end");
    let back = count_back(&outcomes);
    let none_ran = ran == Ran::NOTHING && back == outcomes.len() && book.len() == length;
    assert!(rt; begun.is_ok() && ended.is_ok());
    assert!(rt; back <= 1 || none_ran, "{calls}");
    assert!(rt; book.audit(&Sequential, rt.alloc()) == Ok(true), "{calls}");
    let Ran {
        waves,
        kernels,
        singles,
    } = ran;
    let said = println!(rt; "{waves} waves, {kernels} kernels, {singles} singles, {back} back");
    assert!(rt; said.is_ok());
}

#[test]
fn joins_with_an_empty_vector(rt: HostRuntime) {
    serves_the_others(
        &rt,
        "e = z\na = z 1 2 3\nb = z 10 20 30",
        "p = add_wuz e e\nq = add_wuz a b",
    )
}

#[test]
fn reads_what_the_wave_writes(rt: HostRuntime) {
    serves_the_others(&rt, "a = z 5\nb = z 1", "b = add_wuz a a\nget b")
}

#[test]
fn reads_before_the_wave_writes(rt: HostRuntime) {
    serves_the_others(&rt, "a = z 5\nb = z 1", "get b\nb = add_wuz a a")
}

#[test]
fn divides_by_zero_in_a_group(rt: HostRuntime) {
    serves_the_others(
        &rt,
        "p = z 6\nq = z 2\nr = z 1\ns = z 0",
        "x = div_wuz p q\ny = div_wuz r s\nz = div_wuz q q",
    )
}

#[test]
fn three_callers_on_one_name(rt: HostRuntime) {
    serves_the_others(&rt, "a = z 1", "b = z 1\nc = cpy_wuz b\nb = z 2")
}

/// Serves the calls of these lines as one batch on a book.
fn serve(rt: &impl Abort, alloc: Global, book: &mut Book, calls: &str) {
    let (mut requests, mut outcomes) = asked(rt, alloc, calls);
    run_batch(
        &Sequential,
        alloc,
        book,
        &mut requests,
        &mut outcomes,
        &mut Meter::new(),
    );
}

/// Serves the calls of these lines as one batch again and again on a book, and prints around the last. By then the history has
/// space and all that few alike calls take lies ready: they make no list, and no vector.
fn serves_again<R: Abort + Alloc<A = Global> + Print>(rt: &R, before: &str, calls: &str) {
    let mut book = book_of(rt, rt.alloc(), 1000, before);
    for _ in 0..3 {
        serve(rt, rt.alloc(), &mut book, calls);
    }
    assert!(rt; book.reserve(BATCH_LIMIT).is_ok());
    let (mut requests, mut outcomes) = asked(rt, rt.alloc(), calls);
    let begun = println!(rt; "begin");
    let ran = run_batch(
        &Sequential,
        rt.alloc(),
        &mut book,
        &mut requests,
        &mut outcomes,
        &mut Meter::new(),
    );
    let ended = println!(rt; "end");
    assert!(rt; begun.is_ok() && ended.is_ok());
    assert!(rt; ran.waves == 1 && ran.kernels == 1 && ran.singles == 0);
    assert!(rt; count_back(&outcomes) == 0);
}

#[test]
fn two_sums_take_nothing_more(rt: HostRuntime) {
    serves_again(
        &rt,
        "a = z 1 2 3\nb = z 10 20 30",
        "c = add_wuz a b\nd = add_wuz a b",
    )
}

#[test]
fn four_replies_take_nothing_more(rt: HostRuntime) {
    serves_again(
        &rt,
        "a = z 1 2 3\nb = z 10 20 30",
        "add_ruz a\nadd_ruz b\nadd_ruz a\nadd_ruz b",
    )
}
