//! The calls of one caller of a shared machine: its names are filled, and its calls are answered in one of three ways.

ghost use Rattle.std.specs.Prelude.{◌≡◌, OnSome};
ghost use Rattle.combiner.specs.Standing.{IsIdle};

use crate::load::Way;
use crate::operands::{add, adds, name, numbers};
use call_history::BLOCK_LIMIT;
use combiner::{Caller, Combined, Polled, Shared};
use cvl_text::Call;
use scan_kernels::Sequential;
use std::alloc::Global;
use std::sync::Wait;
use std::thread::Threads;
use vector_memory::Name;

/// Names in the memory beside two for each thread.
const OTHERS: u64 = 64;

/// Sets a name to so many numbers.
fn set(
    rt: &(impl Threads + Wait + Sync),
    alloc: Global,
    shared: &Shared,
    caller: &mut Caller,
    to: Name,
    items: Vec<i64>,
) -> Option<()>
    requires machine { caller.old.machine ≡ shared.now }
    requires idle { IsIdle caller.old }
    ensures machine { caller.new.machine ≡ shared.now }
    ensures idle { IsIdle caller.new }
{
    let call = Call::SetInts { to, items };
    match shared.call(rt, alloc, caller, call) {
        Ok(_) => Some(()),
        Err(_) => None,
    }
}

/// Sets the caller's two names, and others that nobody calls.
pub fn fill(
    rt: &(impl Threads + Wait + Sync),
    alloc: Global,
    shared: &Shared,
    caller: &mut Caller,
    items: u32,
) -> Option<()>
    requires machine { caller.old.machine ≡ shared.now }
    requires idle { IsIdle caller.old }
    ensures machine { caller.new.machine ≡ shared.now }
    ensures idle { IsIdle caller.new }
{
    let number = caller.number() as u64;
    let zeros = numbers(alloc, items, 0, 0)?;
    set(rt, alloc, shared, caller, name(b'x', number)?, zeros)?;
    let steps = numbers(alloc, items, 1, 7)?;
    set(rt, alloc, shared, caller, name(b'y', number)?, steps)?;
    for k in 0..OTHERS {
        let ones = numbers(alloc, items, 1, 0)?;
        set(rt, alloc, shared, caller, name(b'f', k)?, ones)?;
    }
    Some(())
}

/// One call by its steps: it is left, served and asked for, each once. None where another caller has the book, and for want of
/// memory.
fn step(
    rt: &(impl Threads + Sync),
    alloc: Global,
    shared: &Shared,
    caller: &mut Caller,
    call: Call,
) -> Option<()>
    requires machine { caller.old.machine ≡ shared.now }
    requires idle { IsIdle caller.old }
    ensures machine { caller.new.machine ≡ shared.now }
    ensures idle { OnSome result (IsIdle caller.new) }
{
    let Ok(()) = shared.post(caller, call) else {
        unreachable!()
    };
    let Combined::Served { .. } = shared.combine(&Sequential, alloc, caller) else {
        return None;
    };
    match shared.poll(caller) {
        Polled::Answered { .. } => Some(()),
        Polled::OutOfMemory(_) => None,
        Polled::AnsweredBlock { .. } | Polled::OutOfMemoryBlock(_) => None,
        Polled::Waiting | Polled::Idle => unreachable!(),
    }
}

/// A block of so many calls of one kind. None where it was not answered.
fn block(
    rt: &(impl Threads + Wait + Sync),
    alloc: Global,
    shared: &Shared,
    caller: &mut Caller,
    size: u32,
    x: Name,
    y: Name,
) -> Option<()>
    requires machine { caller.old.machine ≡ shared.now }
    requires idle { IsIdle caller.old }
    ensures machine { caller.new.machine ≡ shared.now }
    ensures idle { OnSome result (IsIdle caller.new) }
{
    let calls = adds(alloc, size, x, y)?;
    if calls.is_empty() || calls.len() > BLOCK_LIMIT {
        return None;
    }
    shared.call_block(rt, alloc, caller, calls).ok()?;
    Some(())
}

/// One call `x = add_wuz x y`, or a block of them. None where it was not answered.
pub fn call_once(
    rt: &(impl Threads + Wait + Sync),
    alloc: Global,
    shared: &Shared,
    caller: &mut Caller,
    way: Way,
    x: Name,
    y: Name,
) -> Option<()>
    requires machine { caller.old.machine ≡ shared.now }
    requires idle { IsIdle caller.old }
    ensures machine { caller.new.machine ≡ shared.now }
    ensures idle { OnSome result (IsIdle caller.new) }
{
    match way {
        Way::Call => {
            shared.call(rt, alloc, caller, add(x, y)).ok()?;
            Some(())
        }
        Way::Steps => step(rt, alloc, shared, caller, add(x, y)),
        Way::Block(size) => block(rt, alloc, shared, caller, size, x, y),
    }
}
