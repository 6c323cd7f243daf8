//! Several threads, each with a caller of its own.

ghost use Rattle.std.specs.Prelude.{◌≡◌, All};
ghost use Rattle.std.specs.Arc.{arc_value};
ghost use Rattle.combiner.specs.Standing.{IsIdle};

use crate::asking::answer;
use crate::table::two;
use call_history::Book;
use combiner::{Caller, Shared};
use cvl_text::Reply;
use std::alloc::Global;
use std::process::Abort;
use std::sync::{Arc, Wait};
use std::thread;
use std::thread::{Threads, join};
use vector_memory::{Name, Value};

/// Calls a line so many times. Each must be done.
fn repeat(
    rt: &(impl Abort + Threads + Wait + Sync),
    alloc: Global,
    shared: &Shared,
    caller: &mut Caller,
    line: &[u8],
    times: u64,
)
    requires machine { caller.old.machine ≡ shared.now }
    requires idle { IsIdle caller.old }
    ensures machine { caller.new.machine ≡ shared.now }
    ensures idle { IsIdle caller.new }
{
    for _ in 0..times {
        let (_, reply) = answer(rt, alloc, shared, caller, line);
        assert!(rt; matches!(&reply, Reply::Done));
    }
}

/// Sets a name of the caller's own to 0, and adds 1 to it so many times.
fn work(
    rt: &(impl Abort + Threads + Wait + Sync),
    alloc: Global,
    shared: &Shared,
    caller: &mut Caller,
    times: u64,
)
    requires machine { caller.old.machine ≡ shared.now }
    requires idle { IsIdle caller.old }
    ensures machine { caller.new.machine ≡ shared.now }
    ensures idle { IsIdle caller.new }
{
    let k = caller.number();
    let first = format!(in alloc; "x{k} = z 0").expect(rt, "memory");
    let second = format!(in alloc; "y{k} = z 1").expect(rt, "memory");
    let third = format!(in alloc; "x{k} = add_wuz x{k} y{k}").expect(rt, "memory");
    repeat(rt, alloc, shared, caller, first.as_bytes(), 1);
    repeat(rt, alloc, shared, caller, second.as_bytes(), 1);
    repeat(rt, alloc, shared, caller, third.as_bytes(), times);
}

/// One caller meets the others, and closes.
fn close_all(rt: &impl Abort, shared: Shared, mut done: Vec<Caller>) -> Book
    requires { All (λ c. c.machine ≡ shared) done.items }
{
    let mut last = done.pop().expect(rt, "no caller");
    for caller in done {
        let mut caller = caller;
        shared.meet(&mut caller, &mut last);
    }
    shared.close(last).expect(rt, "no book")
}

/// Each thread owns one caller, and hands it back.
fn work_at_once<R: Abort + Threads + Wait + Sync>(
    rt: &R,
    alloc: Global,
    callers: u64,
    times: u64,
) -> Book {
    let (machine, callers) = Shared::new(alloc, callers, 1000).expect(rt, "no machine");
    let shared = &machine;
    let done = thread::map_vec(
        rt,
        callers,
        &|caller: Caller| -> Caller
            requires { (caller.machine ≡ shared.now) × IsIdle caller }
            ensures { result.machine ≡ shared.entry.now }
        {
            let mut caller = caller;
            work(rt, alloc, shared, &mut caller, times);
            caller
        },
    );
    close_all(rt, machine, done.ok().expect(rt, "memory"))
}

/// Whether the name of caller `k` stands for this number alone.
fn holds(rt: &impl Abort, alloc: Global, book: &Book, k: u64, number: i64) -> bool {
    let text = format!(in alloc; "x{k}").expect(rt, "memory");
    let name = Name::read(text.as_bytes()).expect(rt, "no name");
    match book.memory().get(&name) {
        Some(Value::Ints(items)) => items.as_slice() == [number].as_slice(),
        _ => false,
    }
}

#[test]
fn own_threads(rt: HostRuntime) {
    let book = work_at_once(&rt, rt.alloc(), 4, 500);
    assert!(rt; book.len() == 2008);
    for k in 0..4 {
        assert!(rt; holds(&rt, rt.alloc(), &book, k, 500));
    }
    assert!(rt; book.audit(&rt, rt.alloc()) == Ok(true));
}

#[test]
fn all_callers_at_once(rt: HostRuntime) {
    let book = work_at_once(&rt, rt.alloc(), 64, 8);
    assert!(rt; book.len() == 640);
    for k in 0..64 {
        assert!(rt; holds(&rt, rt.alloc(), &book, k, 8));
    }
    assert!(rt; book.audit(&rt, rt.alloc()) == Ok(true));
}

/// Two threads share a machine by an `Arc`, and one of their callers closes it.
fn work_by_arc<R: Abort + Threads + Wait + Sync>(rt: &R, alloc: Global, times: u64) -> Book {
    let (machine, first, second) = two(rt, alloc);
    let shared = Arc::new(alloc, machine).ok().expect(rt, "memory");
    let one = Arc::try_clone(&shared).ok().expect(rt, "memory");
    let other = Arc::try_clone(&shared).ok().expect(rt, "memory");
    let ((), last) = join(
        rt,
        move ||
            requires { (first.machine ≡ arc_value one) × IsIdle first }
        {
            let mut caller = first;
            work(rt, alloc, &*one, &mut caller, times);
        },
        move || -> Caller
            requires { (second.machine ≡ arc_value other) × IsIdle second }
            ensures { result.machine ≡ arc_value other }
        {
            let mut caller = second;
            work(rt, alloc, &*other, &mut caller, times);
            caller
        },
    );
    let machine = Arc::try_unwrap(shared).ok().expect(rt, "shared yet");
    machine.close(last).expect(rt, "no book")
}

#[test]
fn shared_by_arc(rt: HostRuntime) {
    let book = work_by_arc(&rt, rt.alloc(), 100);
    assert!(rt; book.len() == 204);
    assert!(rt; holds(&rt, rt.alloc(), &book, 0, 100) && holds(&rt, rt.alloc(), &book, 1, 100));
}
