//! The rows of latencies: how long one thread waits from answer to answer.

use crate::load::Load;
use crate::threads::{Times, run};
use std::alloc::Global;
use std::io;
use std::rt::Clock;
use std::sync::Wait;
use std::thread::Threads;

/// How many threads share the machine.
const THREADS: [u32; 4] = [1, 2, 4, 8];

/// How many items the vectors have.
const ITEMS: u32 = 16;

/// Which in a thousand of the waits are printed, and their names.
const RANKS: [(usize, &str); 3] = [(500, "p50"), (990, "p99"), (999, "p99.9")];

/// The waits of all threads from answer to answer, the shortest first.
fn waits(alloc: Global, all: &[Times]) -> io::Result<Vec<u32>> {
    let mut waits = Vec::new(alloc);
    for times in all {
        for pair in times.windows(2) {
            waits.push(pair[1].saturating_sub(pair[0]))?;
        }
    }
    waits.sort_unstable();
    Ok(waits)
}

/// Prints `latency TAB load rank TAB cvl TAB nanoseconds`.
fn latencies<R: Alloc<A = Global> + Clock + Print + Threads + Wait + Sync>(
    rt: &R,
    load: Load,
) -> io::Result<()> {
    let Some(all) = run(rt, rt.alloc(), load, true) else {
        return Ok(());
    };
    let waits = waits(rt.alloc(), &all)?;
    for (rank, name) in RANKS {
        let wait = waits.get(waits.len() / 1000 * rank).copied().unwrap_or(0);
        println!(rt; "latency\t{load} {name}\tcvl\t{wait}")?;
    }
    Ok(())
}

/// The rows of the loads whose names begin with these words. Whether there are such loads.
pub fn rows<R: Alloc<A = Global> + Clock + Print + Threads + Wait + Sync>(
    rt: &R,
    words: &str,
) -> io::Result<bool> {
    let mut any = false;
    for threads in THREADS {
        let load = Load::of(threads, ITEMS);
        if load.is_named(rt.alloc(), words)? {
            any = true;
            latencies(rt, load)?;
        }
    }
    Ok(any)
}
