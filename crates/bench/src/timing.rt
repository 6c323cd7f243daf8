//! Times of one piece of work: one warm-up, then the least of at least five repeats.

use crate::case::Case;
use crate::inputs::Inputs;
use scan_kernels::{Execution, Meter};
use std::alloc::Global;
use std::io;
use std::rt::Clock;
use std::thread::Threads;
use std::time::Instant;

/// A repeat lasts at least so many nanoseconds, so that the clock's own time is not felt.
const LEAST_REPEAT: u32 = 100_000;

/// No repeat begins after so many.
const MOST_REPEATS: u32 = 400;

/// Repeats go on until they took so many nanoseconds together.
const LEAST_TOTAL: u32 = 40_000_000;

/// From so many nanoseconds on five repeats are not waited for.
const MOST_TOTAL: u32 = 600_000_000;

/// The time of so many runs, one behind the other, in nanoseconds; four seconds where it is longer.
fn time<R: Alloc<A = Global> + Clock + Threads + Execution<Shared = R> + Sync>(
    rt: &R,
    case: Case,
    inputs: &Inputs,
    runs: u32,
) -> io::Result<u32> {
    let mut meter = Meter::new();
    let start = Instant::now(rt)?;
    for _ in 0..runs {
        case.run(rt, &mut meter, inputs)?;
    }
    Ok(u32::try_from(start.elapsed(rt)?.as_nanos()).unwrap_or(u32::MAX))
}

/// The least time of one run, in nanoseconds.
pub fn least<R: Alloc<A = Global> + Clock + Threads + Execution<Shared = R> + Sync>(
    rt: &R,
    case: Case,
    inputs: &Inputs,
) -> io::Result<f64> {
    time(rt, case, inputs, 1)?;
    let once = time(rt, case, inputs, 1)?;
    let runs = (LEAST_REPEAT / once.max(1)).saturating_add(1);
    let mut least = u32::MAX;
    let mut total = 0u32;
    for repeat in 0..MOST_REPEATS {
        let enough = if repeat < 5 { MOST_TOTAL } else { LEAST_TOTAL };
        if enough <= total {
            break;
        }
        let taken = time(rt, case, inputs, runs)?;
        total = total.saturating_add(taken);
        least = least.min(taken);
    }
    Ok(f64::from(least) / f64::from(runs))
}
