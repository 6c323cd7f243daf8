//! Threads that ask and serve one another at once and never wait, and the history that they leave.

ghost use Rattle.std.specs.Prelude.{◌≡◌, All};

use crate::asking::read;
use call_history::Book;
use combiner::{Caller, Polled, Shared};
use cvl_text::{Call, Reply};
use scan_kernels::Sequential;
use std::alloc::Global;
use std::process::Abort;
use std::thread;
use std::thread::Threads;
use vector_memory::Name;

/// The callers of the machine, each in a thread of its own.
const CALLERS: usize = 4;

/// What a caller was told of one of its calls: its place, and the number that it asked for, if there was one.
#[derive(Clone, Copy, PartialEq, Eq)]
struct Told {
    place: u64,
    number: Option<i64>,
}

/// The call of a round: every other one sets `n` to the round, and the others ask for it.
fn call_of(rt: &impl Abort, alloc: Global, round: u32) -> Call {
    if round % 2 == 1 {
        return read(rt, alloc, b"add_ruz n");
    }
    let to = Name::read(b"n").expect(rt, "no name");
    let mut items = Vec::new(alloc);
    items.push(round as i64).expect(rt, "memory");
    Call::SetInts { to, items }
}

/// What a caller is told, if it is told anything.
fn told_by(polled: Polled) -> Option<Told> {
    let Polled::Answered { place, reply } = polled else {
        return None;
    };
    let number = match reply {
        Reply::Int(n) => Some(n),
        _ => None,
    };
    Some(Told { place, number })
}

/// The rounds of one caller, and what it was told. In a round in which its last call is still left it asks nothing.
fn work(
    rt: &impl Abort,
    alloc: Global,
    shared: &Shared,
    caller: &mut Caller,
    rounds: u32,
) -> Vec<Told>
    requires { caller.old.machine ≡ shared.now }
    ensures { caller.new.machine ≡ shared.now }
{
    let mut told = Vec::new(alloc);
    for round in 0..rounds {
        let _left = shared.post(caller, call_of(rt, alloc, round)).is_ok();
        let _served = shared.combine(&Sequential, alloc, caller);
        let _length = shared.look(caller);
        if let Some(news) = told_by(shared.poll(caller)) {
            told.push(news).expect(rt, "memory");
        }
    }
    told
}

/// One caller meets the others and closes. The book, and of each caller its number and what it was told.
fn close_all(
    rt: &impl Abort,
    alloc: Global,
    shared: Shared,
    mut done: Vec<(Caller, Vec<Told>)>,
) -> (Book, Vec<(usize, Vec<Told>)>)
    requires { All (λ r. r.0.machine ≡ shared) done.items }
{
    let mut all = Vec::new(alloc);
    let (mut last, told) = done.pop().expect(rt, "no caller");
    all.push((last.number(), told)).ok().expect(rt, "memory");
    for (caller, told) in done {
        let mut caller = caller;
        shared.meet(&mut caller, &mut last);
        all.push((caller.number(), told)).ok().expect(rt, "memory");
    }
    (shared.close(last).expect(rt, "no book"), all)
}

/// Each thread owns one caller, and hands it back.
fn work_at_once<R: Abort + Threads + Sync>(
    rt: &R,
    alloc: Global,
    rounds: u32,
) -> (Book, Vec<(usize, Vec<Told>)>) {
    let (machine, callers) = Shared::new(alloc, CALLERS as u64, 100).expect(rt, "no machine");
    let shared = &machine;
    let done = thread::map_vec(
        rt,
        callers,
        &|caller: Caller| -> (Caller, Vec<Told>)
            requires { caller.machine ≡ shared.now }
            ensures { result.0.machine ≡ shared.entry.now }
        {
            let mut caller = caller;
            let told = work(rt, alloc, shared, &mut caller, rounds);
            (caller, told)
        },
    );
    close_all(rt, alloc, machine, done.ok().expect(rt, "memory"))
}

/// The number that stands under `n` after a call, if one stood there before.
fn number_after(call: &Call, before: Option<i64>) -> Option<i64> {
    match call {
        Call::SetInts { items, .. } => items.first().copied(),
        _ => before,
    }
}

/// What the caller of a call at a place is to be told, where this number stands under `n` before it.
fn news_of(call: &Call, place: usize, before: Option<i64>) -> Told {
    let number = match call {
        Call::SetInts { .. } => None,
        _ => before,
    };
    Told {
        place: place as u64,
        number,
    }
}

/// Whether the entries of a caller are those that it was told, in order, and at most one that it has not heard of.
fn is_as_told(book: &Book, caller: usize, told: &[Told]) -> bool {
    let mut number = None;
    let mut heard = 0;
    for place in 0..book.len() {
        let entry = book.entry(place);
        if entry.caller as usize == caller {
            if heard < told.len() && told[heard] != news_of(&entry.call, place, number) {
                return false;
            }
            heard += 1;
        }
        number = number_after(&entry.call, number);
    }
    heard == told.len() || heard == told.len() + 1
}

#[test]
fn four_at_once(rt: HostRuntime) {
    let (book, all) = work_at_once(&rt, rt.alloc(), 500);
    let mut heard = 0;
    for (number, told) in &all {
        assert!(rt; is_as_told(&book, *number, told));
        heard = told.len().saturating_add(heard);
    }
    assert!(rt; all.len() == CALLERS && heard <= book.len());
    assert!(rt; book.len() - heard <= CALLERS);
    assert!(rt; book.audit(&rt, rt.alloc()) == Ok(true));
}
