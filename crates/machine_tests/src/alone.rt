//! A machine with one caller. Its contracts rule out that the book is found taken.

ghost use Rattle.std.specs.Prelude.{◌≡◌, true, length};
ghost use Rattle.combiner.specs.Standing.{IsIdle, HasLeft, callers_of};

use crate::asking::{polls, polls_idle, posts, read, stands_at};
use crate::table::one;
use call_history::Book;
use combiner::{Caller, Combined, Occupied, Polled, Shared};
use cvl_text::{Call, Reply};
use scan_kernels::Sequential;
use std::alloc::Global;
use std::process::Abort;

/// The only caller is never busy, and what it has left is settled then.
fn serve_alone(alloc: Global, shared: &Shared, caller: &mut Caller) -> (u64, u64, u64)
    requires machine { caller.old.machine ≡ shared.now }
    requires alone { callers_of shared.now ≡ 1 }
    ensures machine { caller.new.machine ≡ shared.now }
    ensures phase { caller.new.phase ≡ caller.old.phase }
    ensures settled { HasLeft caller.old → caller.new.settled ≡ true }
{
    let Combined::Served {
        calls,
        waves,
        kernels,
    } = shared.combine(&Sequential, alloc, caller)
    else {
        unreachable!()
    };
    (calls, waves, kernels)
}

/// The only caller need not wait for an answer.
fn call_alone(
    rt: &impl Abort,
    alloc: Global,
    shared: &Shared,
    caller: &mut Caller,
    call: Call,
) -> (u64, Reply)
    requires machine { caller.old.machine ≡ shared.now }
    requires alone { callers_of shared.now ≡ 1 }
    requires idle { IsIdle caller.old }
    ensures machine { caller.new.machine ≡ shared.now }
    ensures idle { IsIdle caller.new }
{
    let Ok(()) = shared.post(caller, call) else {
        unreachable!()
    };
    let _served = serve_alone(alloc, shared, caller);
    match shared.poll(caller) {
        Polled::Answered { place, reply } => (place, reply),
        Polled::OutOfMemory(_) => panic!(rt; "memory"),
        Polled::AnsweredBlock { .. } | Polled::OutOfMemoryBlock(_) => panic!(rt; "no block"),
        Polled::Waiting => unreachable!(),
        Polled::Idle => unreachable!(),
    }
}

/// The only caller counts its answered calls by a look.
fn count_alone(shared: &Shared, caller: &mut Caller) -> u64
    requires machine { caller.old.machine ≡ shared.now }
    requires alone { callers_of shared.now ≡ 1 }
    requires idle { IsIdle caller.old }
    ensures counted { result ≡ length caller.new.own }
    ensures machine { caller.new.machine ≡ shared.now }
{
    shared.look(caller)
}

/// The only caller always gets the book, which has its answered calls and no others where none is left.
fn close_alone(shared: Shared, caller: Caller) -> Book
    requires machine { caller.machine ≡ shared }
    requires alone { callers_of shared ≡ 1 }
    ensures counted { IsIdle caller → length result.history ≡ length caller.own }
{
    let Ok(book) = shared.close(caller) else {
        unreachable!()
    };
    book
}

/// A machine that nobody called has an empty history.
fn unused_book(rt: &impl Abort, alloc: Global) -> Book
    ensures { length result.history ≡ 0 }
{
    let (shared, caller) = one(rt, alloc);
    close_alone(shared, caller)
}

/// Whether the call of this line is handed back, since one is left.
fn comes_back(rt: &impl Abort, alloc: Global, shared: &Shared, caller: &mut Caller) -> bool
    requires { caller.old.machine ≡ shared.now }
    ensures { caller.new.machine ≡ shared.now }
{
    let call = read(rt, alloc, b"len_fov a");
    matches!(&shared.post(caller, call), Err(Occupied(Call::Len { .. })))
}

#[test]
fn one_caller(rt: HostRuntime) {
    let (shared, mut caller) = one(&rt, rt.alloc());
    assert!(rt; caller.number() == 0 && caller.is_idle());
    assert!(rt; polls_idle(&shared, &mut caller));
    assert!(rt; posts(&rt, rt.alloc(), &shared, &mut caller, b"a = z 1"));
    assert!(rt; !caller.is_idle() && comes_back(&rt, rt.alloc(), &shared, &mut caller));
    assert!(rt; serve_alone(rt.alloc(), &shared, &mut caller) == (1, 1, 0));
    assert!(rt; polls(&rt, rt.alloc(), &shared, &mut caller, 0, b"ok"));
    assert!(rt; polls_idle(&shared, &mut caller) && caller.is_idle());
    assert!(rt; serve_alone(rt.alloc(), &shared, &mut caller) == (0, 0, 0));
    let book = close_alone(shared, caller);
    assert!(rt; book.len() == 1 && stands_at(&book, 0, 0, 0));
}

#[test]
fn one_caller_calls(rt: HostRuntime) {
    let (shared, mut caller) = one(&rt, rt.alloc());
    let call = read(&rt, rt.alloc(), b"len_fov a");
    let (place, reply) = call_alone(&rt, rt.alloc(), &shared, &mut caller, call);
    assert!(rt; place == 0 && matches!(&reply, Reply::Fault(_)));
    assert!(rt; count_alone(&shared, &mut caller) == 1);
}

#[test]
fn nobody_calls(rt: HostRuntime) {
    let book = unused_book(&rt, rt.alloc());
    assert!(rt; book.is_empty());
}
