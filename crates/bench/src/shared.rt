//! The rows of the shared machine: calls a second of all threads together, and how long one thread waits for an answer; and of a book
//! by itself.

use crate::{alone, latencies, rates};
use std::alloc::Global;
use std::io;
use std::rt::Clock;
use std::sync::Wait;
use std::thread::Threads;

/// The rows of the loads whose names begin with these words. Whether there are such loads.
pub fn rows<R: Alloc<A = Global> + Clock + Print + Threads + Wait + Sync>(
    rt: &R,
    words: &str,
) -> io::Result<bool> {
    let rated = rates::rows(rt, words)?;
    let timed = latencies::rows(rt, words)?;
    let alone = alone::rows(rt, words)?;
    Ok(rated || timed || alone)
}
