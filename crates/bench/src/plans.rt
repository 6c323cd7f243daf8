//! The rows of planning: what it takes to find the waves of requests, and nothing else.

ghost use Rattle.std.specs.Prelude.{◌≤◌, vec_len};

use crate::operands::name;
use batch_flatten::{BATCH_LIMIT, waves};
use call_history::{Job, Request};
use cvl_text::{Call, Z2};
use std::alloc::Global;
use std::io;
use std::rt::Clock;
use std::time::Instant;

/// How many requests are planned.
const REQUESTS: [u32; 4] = [1, 4, 16, 64];

/// How often they are planned in a repeat.
const PLANS: u32 = 500;

/// How many times that is timed.
const REPEATS: u32 = 100;

/// What the calls read.
#[derive(Clone, Copy)]
enum Reads {
    /// Each two names of its own.
    Own,
    /// All the same name.
    One,
    /// Each the target of the one before it.
    Before,
    /// Each its own target, which all have.
    All,
}

const READS: [(Reads, &str); 4] = [
    (Reads::Own, "own"),
    (Reads::One, "one"),
    (Reads::Before, "before"),
    (Reads::All, "all"),
];

/// The call at this place.
fn call_at(reads: Reads, k: u64) -> Option<Call> {
    let to = match reads {
        Reads::All => name(b'x', 0)?,
        _ => name(b'x', k)?,
    };
    let (a, b) = match reads {
        Reads::Own => (name(b'y', k)?, name(b'z', k)?),
        Reads::One => (name(b'y', 0)?, name(b'y', 0)?),
        Reads::All => (to, name(b'y', 0)?),
        Reads::Before => (name(b'x', k.saturating_sub(1))?, name(b'y', 0)?),
    };
    let op = Z2::Add;
    Some(Call::MapZ2 { to, op, a, b })
}

fn requests_of(alloc: Global, reads: Reads, count: u32) -> Option<Vec<Request>> {
    let mut requests = Vec::new(alloc);
    for k in 0..count {
        let caller = u64::from(k);
        let job = Job::One(call_at(reads, caller)?);
        requests.push(Request { caller, job }).ok()?;
    }
    Some(requests)
}

/// The time of some plans, in nanoseconds, and the sum of the last waves, so that each plan is made.
fn time(rt: &impl Clock, requests: &[Request]) -> Option<(u32, u64)> {
    if requests.len() > BATCH_LIMIT || requests.is_empty() {
        return None;
    }
    let mut sum: u64 = 0;
    let start = Instant::now(rt).ok()?;
    for _ in 0..PLANS {
        let found = waves(requests);
        sum = sum.wrapping_add(u64::from(found[requests.len() - 1]));
    }
    let taken = start.elapsed(rt).ok()?;
    Some((u32::try_from(taken.as_nanos()).unwrap_or(u32::MAX), sum))
}

/// The least time of one plan, in nanoseconds, and the wave of the last request.
fn least(rt: &impl Clock, alloc: Global, reads: Reads, count: u32) -> Option<(f64, u64)> {
    let requests = requests_of(alloc, reads, count)?;
    let mut least = u32::MAX;
    let mut last = 0;
    for _ in 0..REPEATS {
        let (taken, sum) = time(rt, &requests)?;
        least = least.min(taken);
        last = sum / u64::from(PLANS);
    }
    Some((f64::from(least) / f64::from(PLANS), last))
}

/// Prints `plans TAB n=requests reads=what wave=the last one's TAB cvl TAB nanoseconds a request`.
pub fn rows<R: Alloc<A = Global> + Clock + Print>(rt: &R) -> io::Result<()> {
    for (reads, what) in READS {
        for count in REQUESTS {
            if let Some((plan, last)) = least(rt, rt.alloc(), reads, count) {
                let each = plan / f64::from(count);
                println!(rt; "plans\tn={count} reads={what} wave={last}\tcvl\t{each:.1}")?;
            }
        }
    }
    Ok(())
}
