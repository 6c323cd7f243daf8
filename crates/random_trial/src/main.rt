//! A trial by chance: scripts of all call words, with faults, run in four ways that must come to the same: call by call on a plain
//! memory and on a book, in batches on a book, and by threads that share a machine. It finds, and proves nothing.
//!
//! `random_trial SEED COUNT` runs so many scripts, the first of this seed, the next of the next seed. Without arguments it runs
//! those of the gate. Where a way differs it says which, and with what seed, with status 1.
#![tactic(auto)]

mod alone;
mod batches;
mod chance;
mod patterns;
mod replay;
mod script;
mod texts;
mod threads;
mod writer;

use chance::Chance;
use script::Script;
use std::alloc::Global;
use std::process::ExitCode;
use std::sync::Wait;
use std::thread::Threads;
use std::{env, io};

const USAGE: &str = "usage: random_trial [SEED COUNT]";

/// The scripts that run without arguments: the first seed, and how many.
const SCRIPTS: (u64, u64) = (1, 300);

/// The way that differed.
#[derive(Clone, Copy)]
enum Found {
    Alone,
    Batches,
    Threads,
}

impl Found {
    fn text(self) -> &'static str {
        match self {
            Found::Alone => "call by call",
            Found::Batches => "in batches",
            Found::Threads => "in threads",
        }
    }
}

/// Runs a script in each way: the first that differed, if one did. None where memory is refused.
fn run_each_way<R: Threads + Wait + Sync>(
    rt: &R,
    alloc: Global,
    chance: &mut Chance,
    script: &Script,
) -> Option<Option<Found>> {
    if !alone::is_right(alloc, script)? {
        return Some(Some(Found::Alone));
    }
    if !batches::is_right(alloc, chance, script)? {
        return Some(Some(Found::Batches));
    }
    if !threads::is_right(rt, alloc, script)? {
        return Some(Some(Found::Threads));
    }
    Some(None)
}

/// Runs the script of a seed in each way: the first that differed, if one did, and how many calls it has. None where memory is
/// refused.
fn run<R: Threads + Wait + Sync>(rt: &R, alloc: Global, seed: u64) -> Option<(Option<Found>, u64)> {
    let mut chance = Chance::new(seed);
    let script = Script::new(alloc, &mut chance)?;
    let found = run_each_way(rt, alloc, &mut chance, &script)?;
    Some((found, script.len()))
}

/// Runs so many scripts, from this seed on. Says what was found.
fn run_all<R: Alloc<A = Global> + Print + Threads + Wait + Sync>(
    rt: &R,
    first: u64,
    count: u64,
) -> io::Result<ExitCode> {
    let mut calls: u64 = 0;
    for number in 0..count {
        let seed = first.wrapping_add(number);
        let Some((found, more)) = run(rt, rt.alloc(), seed) else {
            println!(rt; "seed {seed}: out of memory")?;
            return Ok(ExitCode::from(3));
        };
        if let Some(found) = found {
            let way = found.text();
            println!(rt; "seed {seed}: differs {way}")?;
            return Ok(ExitCode::from(1));
        }
        calls = calls.saturating_add(more);
    }
    println!(rt; "{count} scripts from seed {first}, {calls} calls: nothing found")?;
    Ok(ExitCode::SUCCESS)
}

/// The seed and the count that the arguments ask for, those of the gate where there are none.
fn read_arguments(rt: &HostRuntime) -> io::Result<Option<(u64, u64)>> {
    let mut arguments = env::args(rt)?;
    arguments.next();
    let (seed, count) = match (arguments.next(), arguments.next(), arguments.next()) {
        (None, _, _) => return Ok(Some(SCRIPTS)),
        (Some(seed), Some(count), None) => (seed, count),
        _ => return Ok(None),
    };
    let (Ok(seed), Ok(count)) = (seed.parse(), count.parse()) else {
        return Ok(None);
    };
    Ok(Some((seed, count)))
}

fn main(rt: HostRuntime) -> io::Result<ExitCode> {
    let Some((seed, count)) = read_arguments(&rt)? else {
        println!(rt; "{USAGE}")?;
        return Ok(ExitCode::from(2));
    };
    run_all(&rt, seed, count)
}
