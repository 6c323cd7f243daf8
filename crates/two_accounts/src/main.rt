//! Two threads move money between two accounts of one shared machine, each move a block of two calls, and read both accounts in
//! a block. No sum that is read tells of a move half done.
#![tactic(auto)]

ghost use Rattle.std.specs.Prelude.{◌≡◌, IfSome};
ghost use Rattle.combiner.specs.Standing.{IsIdle};

use call_history::BLOCK_LIMIT;
use combiner::{Caller, Shared};
use cvl_text::{Call, Reply};
use std::alloc::{Alloc, Global};
use std::io;
use std::sync::Wait;
use std::thread::{Threads, join};

/// What both accounts have together.
const SUM: i64 = 100;

/// How often each thread moves and reads.
const TURNS: u32 = 100;

/// The accounts, and what is moved.
const OPENING: &[&str] = &["a = z 100", "b = z 0", "one = z 1"];

const FROM_A: &[&str] = &["a = sub_wuz a one", "b = add_wuz b one"];

const FROM_B: &[&str] = &["b = sub_wuz b one", "a = add_wuz a one"];

const READING: &[&str] = &["add_ruz a", "add_ruz b"];

/// The replies to a block of these lines. None where memory is refused.
fn ask<R: Alloc<A = Global> + Threads + Wait + Sync>(
    rt: &R,
    shared: &Shared,
    caller: &mut Caller,
    lines: &[&str],
) -> Option<Vec<Reply>>
    requires { (caller.old.machine ≡ shared.now) × IsIdle caller.old }
    ensures { (caller.new.machine ≡ shared.now) × IsIdle caller.new }
{
    let mut block = Vec::new(rt.alloc());
    for line in lines {
        let call = Call::read(rt.alloc(), line.as_bytes()).ok()?;
        block.push(call).ok()?;
    }
    if block.is_empty() || block.len() > BLOCK_LIMIT {
        return None;
    }
    let (_, replies) = shared.call_block(rt, rt.alloc(), caller, block).ok()?;
    Some(replies)
}

/// Whether two replies are integers with this sum.
fn is_sum(replies: &[Reply], sum: i64) -> bool {
    match replies {
        [Reply::Int(a), Reply::Int(b)] => a.wrapping_add(*b) == sum,
        _ => false,
    }
}

/// Moves one from account to account. Whether what is read then has the sum.
fn turn<R: Alloc<A = Global> + Threads + Wait + Sync>(
    rt: &R,
    shared: &Shared,
    caller: &mut Caller,
    moving: &[&str],
) -> bool
    requires { (caller.old.machine ≡ shared.now) × IsIdle caller.old }
    ensures { (caller.new.machine ≡ shared.now) × IsIdle caller.new }
{
    if ask(rt, shared, caller, moving).is_none() {
        return false;
    }
    match ask(rt, shared, caller, READING) {
        Some(replies) => is_sum(&replies, SUM),
        None => false,
    }
}

/// What each thread does, and how often it read the sum.
fn work<R: Alloc<A = Global> + Threads + Wait + Sync>(
    rt: &R,
    shared: &Shared,
    mut caller: Caller,
    moving: &[&str],
) -> (Caller, u32)
    requires { (caller.machine ≡ shared.now) × IsIdle caller }
    ensures { (result.0.machine ≡ shared.now) × IsIdle result.0 }
{
    let mut whole = 0;
    for _done in 0..TURNS {
        if turn(rt, shared, &mut caller, moving) {
            whole += 1;
        }
    }
    (caller, whole)
}

/// Has the callers work, each in a thread of its own: how often the sum was read, and a caller that has met the other.
fn work_both<R: Alloc<A = Global> + Threads + Wait + Sync>(
    rt: &R,
    shared: &Shared,
    mut first: Caller,
    second: Caller,
) -> Option<(u32, Caller)>
    requires first { (first.machine ≡ shared.now) × IsIdle first }
    requires second { (second.machine ≡ shared.now) × IsIdle second }
    ensures { IfSome result (λ done. done.1.machine ≡ shared.now) }
{
    ask(rt, shared, &mut first, OPENING)?;
    let ((mut first, one), (mut second, other)) = join(
        rt,
        move || -> (Caller, u32)
            requires { (first.machine ≡ shared.now) × IsIdle first }
            ensures { (result.0.machine ≡ shared.entry.now) × IsIdle result.0 }
        { work(rt, shared, first, FROM_A) },
        move || -> (Caller, u32)
            requires { (second.machine ≡ shared.now) × IsIdle second }
            ensures { (result.0.machine ≡ shared.entry.now) × IsIdle result.0 }
        { work(rt, shared, second, FROM_B) },
    );
    shared.meet(&mut first, &mut second);
    Some((one.wrapping_add(other), second))
}

/// Runs the two threads: how often the sum was read, and how many calls the history has.
fn run<R: Alloc<A = Global> + Threads + Wait + Sync>(rt: &R) -> Option<(u32, usize)> {
    let (machine, mut callers) = Shared::new(rt.alloc(), 2, 1000).ok()?;
    let (second, first) = (callers.pop()?, callers.pop()?);
    let (whole, last) = work_both(rt, &machine, first, second)?;
    Some((whole, machine.close(last).ok()?.len()))
}

fn main(rt: HostRuntime) -> io::Result<()> {
    match run(&rt) {
        Some((whole, calls)) => println!(rt; "read {whole} times {SUM}, history {calls}"),
        None => println!(rt; "not all was done"),
    }
}
