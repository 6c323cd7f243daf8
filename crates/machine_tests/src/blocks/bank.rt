//! A bank of two accounts and 64 clerks, each on a thread of its own: they move money in blocks, and read both accounts in blocks. No
//! reply tells of a move half done.

ghost use Rattle.std.specs.Prelude.{◌≡◌, ◌≤◌, length};
ghost use Rattle.call_history.specs.Blocks.{block_limit};
ghost use Rattle.combiner.specs.Standing.{IsIdle};

use super::machines::block_of;
use combiner::{Caller, Polled, Shared};
use cvl_text::{Call, Reply};
use scan_kernels::Sequential;
use std::alloc::{Alloc, Global};
use std::process::Abort;
use std::sync::Wait;
use std::thread;
use std::thread::Threads;

/// What both accounts have together.
const SUM: i64 = 100;

const CLERKS: u64 = 64;

/// How often each clerk moves and reads.
const TURNS: u32 = 10;

const OPENING: &[&[u8]] = &[b"a = z 100", b"b = z 0", b"one = z 1"];

const MOVE: &[&[u8]] = &[b"a = sub_wuz a one", b"b = add_wuz b one"];

const MOVE_BACK: &[&[u8]] = &[b"b = sub_wuz b one", b"a = add_wuz a one"];

const READING: &[&[u8]] = &[b"add_ruz a", b"add_ruz b"];

/// Leaves a block, and polls and serves until it is answered.
fn leave(
    rt: &(impl Abort + Wait),
    alloc: Global,
    shared: &Shared,
    caller: &mut Caller,
    calls: Vec<Call>,
) -> Vec<Reply>
    requires machine { caller.old.machine ≡ shared.now }
    requires idle { IsIdle caller.old }
    requires few { (1 ≤ length calls.items) × (length calls.items ≤ block_limit) }
    ensures machine { caller.new.machine ≡ shared.now }
    ensures idle { IsIdle caller.new }
{
    let Ok(()) = shared.post_block(caller, calls) else {
        unreachable!()
    };
    for _ in rt.forever() {
        match shared.poll(caller) {
            Polled::AnsweredBlock { place: _, replies } => return replies,
            Polled::Waiting => {}
            _ => panic!(rt; "no block is answered"),
        }
        shared.combine(&Sequential, alloc, caller);
    }
    unreachable!()
}

/// How a clerk has its blocks run.
#[derive(Clone, Copy)]
enum Way {
    AtOnce,
    Left,
}

/// The replies to the block of these lines.
fn ask(
    rt: &(impl Abort + Threads + Wait + Sync),
    alloc: Global,
    shared: &Shared,
    caller: &mut Caller,
    way: Way,
    lines: &[&[u8]],
) -> Vec<Reply>
    requires machine { caller.old.machine ≡ shared.now }
    requires idle { IsIdle caller.old }
    ensures machine { caller.new.machine ≡ shared.now }
    ensures idle { IsIdle caller.new }
{
    let calls = block_of(rt, alloc, lines);
    match way {
        Way::Left => leave(rt, alloc, shared, caller, calls),
        Way::AtOnce => {
            let called = shared.call_block(rt, alloc, caller, calls);
            called.ok().expect(rt, "memory").1
        }
    }
}

/// Whether two replies are integers that have the sum together, or faults where the accounts may not be open yet.
fn is_sum(replies: &[Reply], opened: bool) -> bool {
    match replies {
        [Reply::Int(a), Reply::Int(b)] => a.wrapping_add(*b) == SUM,
        [Reply::Fault(_), Reply::Fault(_)] => !opened,
        _ => false,
    }
}

/// Moves and reads so many times; the first clerk opens the accounts before. Whether each reading tells the sum.
fn work(
    rt: &(impl Abort + Threads + Wait + Sync),
    alloc: Global,
    shared: &Shared,
    caller: &mut Caller,
) -> bool
    requires machine { caller.old.machine ≡ shared.now }
    requires idle { IsIdle caller.old }
{
    let (moves, way) = match caller.number() % 4 {
        0 => (MOVE, Way::AtOnce),
        1 => (MOVE_BACK, Way::AtOnce),
        2 => (MOVE, Way::Left),
        _ => (MOVE_BACK, Way::Left),
    };
    let opens = caller.number() == 0;
    if opens {
        ask(rt, alloc, shared, caller, way, OPENING);
    }
    let mut all = true;
    for _ in 0..TURNS {
        ask(rt, alloc, shared, caller, way, moves);
        all &= is_sum(&ask(rt, alloc, shared, caller, way, READING), opens);
    }
    all
}

/// What each clerk has been told.
fn told<R: Abort + Alloc<A = Global> + Threads + Wait + Sync>(rt: &R) -> Vec<bool> {
    let alloc = rt.alloc();
    let (machine, callers) = Shared::new(alloc, CLERKS, 1000).expect(rt, "no machine");
    let shared = &machine;
    let told = thread::map_vec(
        rt,
        callers,
        &|caller: Caller| -> bool
            requires { (caller.machine ≡ shared.now) × IsIdle caller }
        {
            let mut caller = caller;
            work(rt, alloc, shared, &mut caller)
        },
    );
    told.ok().expect(rt, "memory")
}

#[test]
fn no_move_is_seen_half_done(rt: HostRuntime) {
    let told = told(&rt);
    assert!(rt; told.len() == 64 && told.iter().all(|told| *told));
}
