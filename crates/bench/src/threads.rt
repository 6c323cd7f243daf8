//! Threads that share a machine: each calls `x = add_wuz x y` on two names of its own, as often as its load says.

ghost use Rattle.std.specs.Prelude.{◌≡◌};
ghost use Rattle.combiner.specs.Standing.{IsIdle};

use crate::calls::{call_once, fill};
use crate::load::Load;
use crate::operands::name;
use combiner::{Caller, Shared};
use std::alloc::Global;
use std::rt::Clock;
use std::sync::Wait;
use std::thread;
use std::thread::Threads;
use std::time::Instant;

/// When each call of a thread was answered: nanoseconds since the run's clock was read. The first is when it began.
pub type Times = Vec<u32>;

/// The room of the machine's memory.
const ROOM: u64 = 1 << 22;

/// Nanoseconds since then, at most 4 seconds.
fn since(rt: &impl Clock, then: Instant) -> u32 {
    match then.elapsed(rt) {
        Ok(time) => u32::try_from(time.as_nanos()).unwrap_or(u32::MAX),
        Err(_) => u32::MAX,
    }
}

/// Calls as often as the load says. The time of each answer is noted if it is asked for, else that of the last.
fn work<R: Clock + Threads + Wait + Sync>(
    rt: &R,
    alloc: Global,
    shared: &Shared,
    caller: &mut Caller,
    load: Load,
    then: Instant,
    each: bool,
) -> Option<Times>
    requires machine { caller.old.machine ≡ shared.now }
    requires idle { IsIdle caller.old }
{
    fill(rt, alloc, shared, caller, load.items)?;
    let number = caller.number() as u64;
    let (x, y) = (name(b'x', number)?, name(b'y', number)?);
    let mut times = Vec::with_capacity(alloc, load.turns() as usize + 2).ok()?;
    times.push(since(rt, then)).ok()?;
    for _ in 0..load.turns() {
        call_once(rt, alloc, shared, caller, load.way, x, y)?;
        if each {
            times.push(since(rt, then)).ok()?;
        }
    }
    times.push(since(rt, then)).ok()?;
    Some(times)
}

/// What each thread noted, if each had its calls answered.
fn noted(alloc: Global, threads: Vec<Option<Times>>) -> Option<Vec<Times>> {
    let mut all = Vec::with_capacity(alloc, threads.len()).ok()?;
    for times in threads {
        all.push(times?).ok()?;
    }
    Some(all)
}

/// Runs the load on a machine of its own. What each thread noted, if each had its calls answered.
pub fn run<R: Clock + Threads + Wait + Sync>(
    rt: &R,
    alloc: Global,
    load: Load,
    each: bool,
) -> Option<Vec<Times>> {
    let (machine, mut callers) = Shared::new(alloc, u64::from(load.callers), ROOM).ok()?;
    callers.truncate(load.threads as usize);
    let shared = &machine;
    let then = Instant::now(rt).ok()?;
    let threads = thread::map_vec(
        rt,
        callers,
        &|caller: Caller| -> Option<Times>
            requires { (caller.machine ≡ shared.now) × IsIdle caller }
        {
            let mut caller = caller;
            work(rt, alloc, shared, &mut caller, load, then, each)
        },
    )
    .ok()?;
    noted(alloc, threads)
}
