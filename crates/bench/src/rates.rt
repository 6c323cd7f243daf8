//! The rows of rates: calls a second of all threads together.

use crate::load::Load;
use crate::threads::{Times, run};
use std::alloc::{AllocError, Global};
use std::io;
use std::rt::Clock;
use std::sync::Wait;
use std::thread::Threads;

/// How many threads share the machine.
const THREADS: [u32; 3] = [1, 2, 4];

/// How many items the vectors have.
const ITEMS: [u32; 4] = [2, 16, 256, 4096];

/// How many calls a block has, and how many items its vectors.
const BLOCKS: [u32; 3] = [4, 16, 64];

const BLOCK_ITEMS: [u32; 3] = [2, 16, 256];

/// How many times each row is measured.
const REPEATS: u32 = 3;

/// The loads, in the order of their rows: all callers call, some among many that do not, one calls by steps,
/// and all call in blocks.
fn loads(alloc: Global) -> Result<Vec<Load>, AllocError> {
    let mut loads = Vec::new(alloc);
    for items in ITEMS {
        for threads in THREADS {
            loads.push(Load::of(threads, items))?;
        }
    }
    loads.extend_from_slice(&[
        Load::of(8, 16),
        Load::of(1, 16).among(64),
        Load::of(4, 16).among(64),
        Load::of(1, 2).by_steps(),
        Load::of(1, 16).by_steps(),
    ])?;
    for size in BLOCKS {
        for items in BLOCK_ITEMS {
            for threads in THREADS {
                loads.push(Load::of(threads, items).in_blocks(size))?;
            }
        }
    }
    Ok(loads)
}

/// Calls a second, from the first beginning to the last answer.
fn rate(load: Load, all: &[Times]) -> f64 {
    let mut begin = u32::MAX;
    let mut end = 0;
    for times in all {
        begin = begin.min(times.first().copied().unwrap_or(0));
        end = end.max(times.last().copied().unwrap_or(u32::MAX));
    }
    let calls = f64::from(load.turns()) * f64::from(load.size()) * f64::from(load.threads);
    calls * 1_000_000_000.0 / f64::from(end.saturating_sub(begin).max(1))
}

/// Prints `shared TAB load TAB cvl TAB calls a second`, once for each repeat.
fn rates<R: Alloc<A = Global> + Clock + Print + Threads + Wait + Sync>(
    rt: &R,
    load: Load,
) -> io::Result<()> {
    for _ in 0..REPEATS {
        if let Some(all) = run(rt, rt.alloc(), load, false) {
            let rate = rate(load, &all);
            println!(rt; "shared\t{load}\tcvl\t{rate:.0}")?;
        }
    }
    Ok(())
}

/// The rows of the loads whose names begin with these words. Whether there are such loads.
pub fn rows<R: Alloc<A = Global> + Clock + Print + Threads + Wait + Sync>(
    rt: &R,
    words: &str,
) -> io::Result<bool> {
    let mut any = false;
    for load in loads(rt.alloc())? {
        if load.is_named(rt.alloc(), words)? {
            any = true;
            rates(rt, load)?;
        }
    }
    Ok(any)
}
