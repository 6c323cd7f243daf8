//! The benchmark program. `bench kernels` times the kernels, and prints a line for each row:
//! `kernels TAB row TAB cvl TAB nanoseconds an item`, where a row is a kernel and how many items it runs over.
//! `bench shared` times threads that share a machine, as `rates.rt` and `latencies.rt` say, and beside them a book by itself, as
//! `alone.rt` says. `bench shared WORDS` prints the rows of those loads alone whose name begins so, as `bench shared "T=4 len=16"`.
//! `bench batch` times batches, as `batch.rt` says, and how they are planned, as `plans.rt` says. `bench chunks` times kernels in
//! threads, as `chunks.rt` says, and `bench chunks WORDS` those alone whose name begins so, as `bench chunks scan`. `bench over`
//! times results that are written over an operand, as `over.rt` says, and `bench blocks` blocks of calls on a book, as `blocks.rt`
//! says. Without arguments it prints its usage; so it does for other arguments, and for words with which no name begins, with
//! status 2.
#![tactic(auto)]

mod alone;
mod batch;
mod blocks;
mod calls;
mod case;
mod chunks;
mod inputs;
mod latencies;
mod load;
mod operands;
mod over;
mod plans;
mod rates;
mod runs;
mod shared;
mod threads;
mod timing;

use case::{CASES, Case};
use inputs::Inputs;
use scan_kernels::{Counted, Execution};
use std::alloc::Global;
use std::process::ExitCode;
use std::rt::Clock;
use std::thread::Threads;
use std::{env, io};

const USAGE: &str = "usage: bench kernels|shared [WORDS]|batch|blocks|chunks [WORDS]|over";

/// How many items the kernels run over.
const SIZES: [u32; 4] = [1_000, 32_000, 1_000_000, 16_000_000];

/// Times each kernel over each number of items.
fn kernels<R: Alloc<A = Global> + Clock + Print + Threads + Execution<Shared = R> + Sync>(
    rt: &R,
) -> io::Result<()> {
    for size in SIZES {
        let inputs = Inputs::new(rt.alloc(), size)?;
        for case in &CASES {
            let nanoseconds = timing::least(rt, *case, &inputs)?;
            let item = nanoseconds / f64::from(size);
            let name = case.name();
            println!(rt; "kernels\t{name}/{size}\tcvl\t{item:.5}")?;
        }
    }
    Ok(())
}

/// What the arguments ask for.
#[derive(Drop)]
enum Asked {
    Usage,
    Kernels,
    /// The rows of the shared machine whose names begin so.
    Shared(String),
    Batch,
    Blocks,
    /// The rows of the kernels in threads whose names begin so.
    Chunks(String),
    Over,
    Unknown,
}

fn read_arguments(rt: &HostRuntime) -> io::Result<Asked> {
    let mut arguments = env::args(rt)?;
    arguments.next();
    let Some(word) = arguments.next() else {
        return Ok(Asked::Usage);
    };
    let words = arguments.next();
    if arguments.next().is_some() {
        return Ok(Asked::Unknown);
    }
    Ok(match (word.as_str(), words) {
        ("kernels", None) => Asked::Kernels,
        ("shared", None) => Asked::Shared(String::new(rt.alloc())),
        ("shared", Some(words)) => Asked::Shared(words),
        ("batch", None) => Asked::Batch,
        ("blocks", None) => Asked::Blocks,
        ("chunks", None) => Asked::Chunks(String::new(rt.alloc())),
        ("chunks", Some(words)) => Asked::Chunks(words),
        ("over", None) => Asked::Over,
        _ => Asked::Unknown,
    })
}

/// For arguments that ask for no rows.
fn refuse(rt: &impl Print) -> io::Result<ExitCode> {
    println!(rt; "{USAGE}")?;
    Ok(ExitCode::from(2))
}

fn main(rt: HostRuntime) -> io::Result<ExitCode> {
    match read_arguments(&rt)? {
        Asked::Kernels => kernels(&rt)?,
        Asked::Shared(words) => {
            if !shared::rows(&rt, &words)? {
                return refuse(&rt);
            }
        }
        Asked::Batch => {
            plans::rows(&rt)?;
            batch::rows(&rt)?;
        }
        Asked::Blocks => blocks::rows(&rt)?,
        Asked::Chunks(words) => {
            let counted = Counted::new(rt);
            if !chunks::rows(counted.runtime(), &counted, &words)? {
                return refuse(counted.runtime());
            }
        }
        Asked::Over => over::rows(&rt)?,
        Asked::Usage => println!(rt; "{USAGE}")?,
        Asked::Unknown => return refuse(&rt),
    }
    Ok(ExitCode::SUCCESS)
}
