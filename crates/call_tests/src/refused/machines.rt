//! Machines while memory is refused to the calls that run what a caller asks, beside a memory that is refused nothing.

ghost use Rattle.std.specs.Prelude.{◌≡◌};
ghost use Rattle.combiner.specs.Standing.{IsIdle, HasLeftACall};

use super::{ROOM, begin, each_word, end, holds, memory_text, opened, opening, replied, text_of};
use call_history::Book;
use combiner::{Caller, Shared};
use cvl_text::{Call, Reply};
use scan_kernels::Sequential;
use std::alloc::{Alloc, Global};
use std::process::Abort;
use std::sync::Wait;
use std::thread::Threads;
use vector_memory::{Memory, OutOfMemory};

/// How a caller has its call run.
#[derive(Clone, Copy)]
enum Way {
    Call,
    Wait,
    WaitBy,
}

/// A machine with one caller.
fn alone<R: Abort + Alloc<A = Global>>(rt: &R) -> (Shared, Caller)
    ensures machine { result.1.machine ≡ result.0 }
    ensures idle { IsIdle result.1 }
{
    let Ok((shared, mut callers)) = Shared::new(rt.alloc(), 1, ROOM) else {
        panic!(rt; "memory");
    };
    let caller = callers.pop().expect(rt, "no caller");
    (shared, caller)
}

/// Leaves a call of an idle caller.
fn leave(shared: &Shared, caller: &mut Caller, call: Call)
    requires machine { caller.old.machine ≡ shared.now }
    requires idle { IsIdle caller.old }
    ensures machine { caller.new.machine ≡ shared.now }
    ensures left { HasLeftACall caller.new }
{
    let Ok(()) = shared.post(caller, call) else {
        unreachable!()
    };
}

/// Has a call of an idle caller run.
fn ask<R: Alloc<A = Global> + Threads + Wait + Sync>(
    rt: &R,
    shared: &Shared,
    caller: &mut Caller,
    way: Way,
    call: Call,
) -> Result<(u64, Reply), (Call, OutOfMemory)>
    requires machine { caller.old.machine ≡ shared.now }
    requires idle { IsIdle caller.old }
    ensures machine { caller.new.machine ≡ shared.now }
    ensures idle { IsIdle caller.new }
{
    match way {
        Way::Call => shared.call(rt, rt.alloc(), caller, call),
        Way::Wait => {
            leave(shared, caller, call);
            shared.wait(rt, rt.alloc(), caller)
        }
        Way::WaitBy => {
            leave(shared, caller, call);
            shared.wait_by(&Sequential, rt, rt.alloc(), caller)
        }
    }
}

/// Has a call run that is refused nothing: its place, and the text of its reply.
fn ask_surely<R: Abort + Alloc<A = Global> + Threads + Wait + Sync>(
    rt: &R,
    shared: &Shared,
    caller: &mut Caller,
    way: Way,
    call: Call,
) -> (u64, Vec<u8>)
    requires machine { caller.old.machine ≡ shared.now }
    requires idle { IsIdle caller.old }
    ensures machine { caller.new.machine ≡ shared.now }
    ensures idle { IsIdle caller.new }
{
    let Ok((place, reply)) = ask(rt, shared, caller, way, call) else {
        panic!(rt; "out of memory");
    };
    (place, text_of(rt, &reply))
}

/// Asserts that a call is that of a line, with all its names and items.
fn is_of_line<R: Abort + Alloc<A = Global>>(rt: &R, call: &Call, line: &str) {
    let wanted = Call::read(rt.alloc(), line.as_bytes()).expect(rt, "a call");
    let wanted = format!(in rt.alloc(); "{wanted:?}").expect(rt, "memory");
    let found = format!(in rt.alloc(); "{call:?}").expect(rt, "memory");
    assert!(rt; found == wanted);
}

/// Has the call of a line run, with its growths counted.
fn asked<R: Abort + Alloc<A = Global> + Print + Threads + Wait + Sync>(
    rt: &R,
    shared: &Shared,
    caller: &mut Caller,
    way: Way,
    line: &str,
) -> Result<(u64, Reply), (Call, OutOfMemory)>
    requires machine { caller.old.machine ≡ shared.now }
    requires idle { IsIdle caller.old }
    ensures machine { caller.new.machine ≡ shared.now }
    ensures idle { IsIdle caller.new }
{
    let call = Call::read(rt.alloc(), line.as_bytes()).expect(rt, "a call");
    begin(rt);
    let asked = ask(rt, shared, caller, way, call);
    end(rt);
    asked
}

/// Has the call of a line run, with its growths counted: its place, and the text of its reply. Where memory is refused the call
/// has come back, and is run as it is.
fn answer<R: Abort + Alloc<A = Global> + Print + Threads + Wait + Sync>(
    rt: &R,
    shared: &Shared,
    caller: &mut Caller,
    way: Way,
    line: &str,
) -> (u64, Vec<u8>)
    requires machine { caller.old.machine ≡ shared.now }
    requires idle { IsIdle caller.old }
    ensures machine { caller.new.machine ≡ shared.now }
    ensures idle { IsIdle caller.new }
{
    match asked(rt, shared, caller, way, line) {
        Ok((place, reply)) => (place, text_of(rt, &reply)),
        Err((back, OutOfMemory)) => {
            is_of_line(rt, &back, line);
            ask_surely(rt, shared, caller, way, back)
        }
    }
}

/// Asserts that a line is answered behind all others, as a memory replies.
fn runs_last<R: Abort + Alloc<A = Global> + Print + Threads + Wait + Sync>(
    rt: &R,
    shared: &Shared,
    caller: &mut Caller,
    way: Way,
    memory: &mut Memory,
    line: &str,
)
    requires machine { caller.old.machine ≡ shared.now }
    requires idle { IsIdle caller.old }
    ensures machine { caller.new.machine ≡ shared.now }
    ensures idle { IsIdle caller.new }
{
    let length = shared.look(caller);
    let (place, text) = answer(rt, shared, caller, way, line);
    assert!(rt; place == length && shared.look(caller) == length.saturating_add(1));
    assert!(rt; text == replied(rt, memory, line));
}

/// Asserts that a machine runs a line of each word, and goes on where one of them is refused memory.
fn runs_each<R: Abort + Alloc<A = Global> + Print + Threads + Wait + Sync>(
    rt: &R,
    shared: &Shared,
    caller: &mut Caller,
    way: Way,
    memory: &mut Memory,
)
    requires machine { caller.old.machine ≡ shared.now }
    requires idle { IsIdle caller.old }
    ensures machine { caller.new.machine ≡ shared.now }
{
    for line in opening().lines().chain(each_word().lines()) {
        runs_last(rt, shared, caller, way, memory, line);
    }
}

/// The book of a machine that ran these lines and was closed.
fn closed_book<R: Abort + Alloc<A = Global> + Print + Threads + Wait + Sync>(
    rt: &R,
    way: Way,
    memory: &mut Memory,
) -> Book {
    let (shared, mut caller) = alone(rt);
    runs_each(rt, &shared, &mut caller, way, memory);
    shared.close(caller).expect(rt, "one caller")
}

/// Asserts that an audit finds a book right, and that it holds what a memory holds.
fn is_right<R: Abort + Alloc<A = Global>>(rt: &R, book: &Book, memory: &Memory) {
    assert!(rt; book.audit(&Sequential, rt.alloc()).expect(rt, "memory"));
    holds(rt, book.memory(), &memory_text(rt, memory));
}

/// The same, and that it holds then what a memory holds that is refused nothing.
fn runs_on<R: Abort + Alloc<A = Global> + Print + Threads + Wait + Sync>(rt: &R, way: Way) {
    let mut memory = Memory::new(rt.alloc(), ROOM).expect(rt, "memory");
    let book = closed_book(rt, way, &mut memory);
    is_right(rt, &book, &memory);
}

#[test]
fn calls_go_on(rt: HostRuntime) {
    runs_on(&rt, Way::Call);
}

#[test]
fn waits_go_on(rt: HostRuntime) {
    runs_on(&rt, Way::Wait);
}

#[test]
fn waits_by_a_policy_go_on(rt: HostRuntime) {
    runs_on(&rt, Way::WaitBy);
}

/// A machine with one caller that has run what the opening sets.
fn opened_machine<R: Abort + Alloc<A = Global> + Threads + Wait + Sync>(rt: &R) -> (Shared, Caller)
    ensures machine { result.1.machine ≡ result.0 }
    ensures idle { IsIdle result.1 }
{
    let (shared, mut caller) = alone(rt);
    run_opening(rt, &shared, &mut caller);
    (shared, caller)
}

/// Runs what the opening sets.
fn run_opening<R: Abort + Alloc<A = Global> + Threads + Wait + Sync>(
    rt: &R,
    shared: &Shared,
    caller: &mut Caller,
)
    requires machine { caller.old.machine ≡ shared.now }
    requires idle { IsIdle caller.old }
    ensures machine { caller.new.machine ≡ shared.now }
    ensures idle { IsIdle caller.new }
{
    for line in opening().lines() {
        let call = Call::read(rt.alloc(), line.as_bytes()).expect(rt, "a call");
        ask_surely(rt, shared, caller, Way::Call, call);
    }
}

/// Asserts that a line was answered as a memory replies, or that its call came back. How many entries it made.
fn told<R: Abort + Alloc<A = Global>>(
    rt: &R,
    asked: &Result<(u64, Reply), (Call, OutOfMemory)>,
    memory: &mut Memory,
    line: &str,
) -> usize {
    match asked {
        Ok((_, reply)) => {
            let text = text_of(rt, reply);
            assert!(rt; text == replied(rt, memory, line));
            1
        }
        Err((back, _)) => {
            is_of_line(rt, back, line);
            0
        }
    }
}

/// Asserts that a book has what the opening sets and a line, where that was answered, as a memory has it.
fn is_behind<R: Abort + Alloc<A = Global>>(
    rt: &R,
    asked: &Result<(u64, Reply), (Call, OutOfMemory)>,
    book: &Book,
    memory: &mut Memory,
    line: &str,
) {
    let answered = told(rt, asked, memory, line);
    assert!(rt; book.len() == opening().lines().count().saturating_add(answered));
    is_right(rt, book, memory);
}

/// Asserts that a machine that is closed behind a line has answered it, or has all that it had before.
fn is_whole_behind<R: Abort + Alloc<A = Global> + Print + Threads + Wait + Sync>(
    rt: &R,
    way: Way,
    line: &str,
) {
    let (shared, mut caller) = opened_machine(rt);
    let asked = asked(rt, &shared, &mut caller, way, line);
    let book = shared.close(caller).expect(rt, "one caller");
    let mut memory = opened(rt);
    is_behind(rt, &asked, &book, &mut memory, line);
}

/// Asserts that of a line of each word.
fn is_whole_behind_each<R: Abort + Alloc<A = Global> + Print + Threads + Wait + Sync>(
    rt: &R,
    way: Way,
) {
    for line in each_word().lines() {
        is_whole_behind(rt, way, line);
    }
}

#[test]
fn is_whole_behind_calls(rt: HostRuntime) {
    is_whole_behind_each(&rt, Way::Call);
}

#[test]
fn is_whole_behind_waits(rt: HostRuntime) {
    is_whole_behind_each(&rt, Way::Wait);
}

#[test]
fn is_whole_behind_waits_by_a_policy(rt: HostRuntime) {
    is_whole_behind_each(&rt, Way::WaitBy);
}
