//! The rows of batches: alike calls `xk = add_wuz a b` in one batch beside the same calls one by one, and planning alone.
//! Both ways begin with the same list of requests, and each runs on a book of its own. They take turns, and of each the
//! least time counts. Rows `batch threads` are the same with a runtime as the policy, and those of scans and reductions.

ghost use Rattle.std.specs.Prelude.{◌≡◌, ◌≢◌, ◌<◌, ◌≤◌, [], length, vec_len, OnSome};
ghost use Rattle.std.specs.List.{AllByRecursion, AllPairs};
ghost use Rattle.call_history.specs.Callers.{caller_limit};
ghost use Rattle.call_history.specs.Fits.{IsLawfulJob};

use crate::operands::{name, numbers};
use batch_flatten::{BATCH_LIMIT, run_batch};
use call_history::{Book, CALLER_LIMIT, Job, Outcome, Request};
use cvl_text::{Call, ScanZ, Z2};
use scan_kernels::{Execution, Meter, Sequential};
use std::alloc::Global;
use std::io;
use std::rt::Clock;
use std::thread::Threads;
use std::time::Instant;
use vector_memory::Name;

/// How many calls a batch has.
const CALLS: [u32; 5] = [1, 2, 4, 16, 64];

/// How many items the vectors have.
const ITEMS: [u32; 5] = [2, 16, 256, 4096, 32_768];

/// How many calls are timed together. Their history is short enough that the system hands out no memory for it meanwhile.
const TIMED: u32 = 960;

/// How many of them where vectors are long.
const TIMED_LONG: u32 = 192;

/// How many rounds go before those that are timed: in the first a book has no vectors to replace yet, in the second none that are kept.
const UNTIMED: u32 = 3;

/// How many times each way is timed.
const REPEATS: u32 = 400;

/// How many times where a time is long.
const REPEATS_LONG: u32 = 60;

/// The room of the books.
const ROOM: u64 = 1 << 22;

/// Which calls a batch has.
#[derive(Clone, Copy)]
enum Shape {
    /// `xk = add_wuz a b`, each with a target of its own: one wave.
    Alike,
    /// `x = add_wuz x b`, each of which reads the target of all before it: as many waves as calls.
    Chain,
    /// `xk = add_suz a`, each with a target of its own.
    Scans,
    /// `add_ruz a`, each of which replies a sum.
    Sums,
}

/// The calls of a batch: their targets, and the two names that they read.
#[derive(Drop)]
struct Calls {
    shape: Shape,
    targets: Vec<Name>,
    left: Name,
    right: Name,
    ghost few: { vec_len targets ≤ caller_limit },
}

/// What a way of serving calls keeps between its turns.
#[derive(Drop)]
struct Lists {
    requests: Vec<Request>,
    outcomes: Vec<Outcome>,
    meter: Meter,
}

/// How calls are served.
#[derive(Clone, Copy)]
enum Way {
    Batch,
    OneByOne,
}

fn calls_of(alloc: Global, shape: Shape, count: u32) -> Option<Calls> {
    let left = match shape {
        Shape::Chain => name(b'x', 0)?,
        Shape::Alike | Shape::Scans | Shape::Sums => name(b'a', 0)?,
    };
    let mut targets = Vec::new(alloc);
    for k in 0..count {
        let target = match shape {
            Shape::Chain => left,
            Shape::Alike | Shape::Scans | Shape::Sums => name(b'x', u64::from(k))?,
        };
        targets.push(target).ok()?;
    }
    if targets.len() > CALLER_LIMIT {
        return None;
    }
    Some(Calls {
        shape,
        targets,
        left,
        right: name(b'b', 0)?,
    })
}

fn set(book: &mut Book, alloc: Global, to: Name, items: Vec<i64>) -> Option<()> {
    let call = Call::SetInts { to, items };
    book.run(&Sequential, alloc, 0, call).ok()?;
    Some(())
}

/// Gives the names of the calls values, and makes space for so many entries more.
fn prepare(alloc: Global, book: &mut Book, calls: &Calls, items: u32, space: u32) -> Option<()> {
    set(book, alloc, calls.left, numbers(alloc, items, 0, 7)?)?;
    set(book, alloc, calls.right, numbers(alloc, items, 1, 3)?)?;
    for to in &calls.targets {
        set(book, alloc, *to, numbers(alloc, items, 0, 0)?)?;
    }
    book.reserve(space as usize).ok()
}

/// The call with this target.
fn call_to(calls: &Calls, to: Name) -> Call {
    let (a, b) = (calls.left, calls.right);
    match calls.shape {
        Shape::Alike | Shape::Chain => Call::MapZ2 {
            op: Z2::Add,
            to,
            a,
            b,
        },
        Shape::Scans => Call::ScanOfZ {
            op: ScanZ::Add,
            to,
            a,
            s: None,
        },
        Shape::Sums => Call::RedZ { op: ScanZ::Add, a },
    }
}

/// The requests of the calls, of a caller each.
fn ask(requests: &mut Vec<Request>, calls: &Calls) -> Option<()>
    ensures few { OnSome result (vec_len requests.new ≤ BATCH_LIMIT) }
    ensures lawful { OnSome result (AllByRecursion (λ r. r.caller < caller_limit) requests.new.items) }
    ensures distinct { OnSome result (AllPairs (λ r s. r.caller ≢ s.caller) requests.new.items) }
    ensures jobs { OnSome result (AllByRecursion (λ r. IsLawfulJob r.job) requests.new.items) }
{
    requests.clear();
    for k in 0..calls.targets.len() {
        let job = Job::One(call_to(calls, calls.targets[k]));
        let caller = k as u64;
        let request = Request { caller, job };
        let Ok(()) = requests.push(request) else {
            return None;
        };
    }
    Some(())
}

/// Serves the requests one by one, from the last to the first.
fn serve_each(
    execution: &impl Execution,
    alloc: Global,
    book: &mut Book,
    lists: &mut Lists,
) -> Option<()> {
    while let Some(request) = lists.requests.pop() {
        let Request { caller, job } = request;
        let Job::One(call) = job else {
            return None;
        };
        if caller >= CALLER_LIMIT as u64 {
            return None;
        }
        let Ok(_) = book.run_metered(execution, alloc, &mut lists.meter, caller, call) else {
            return None;
        };
    }
    Some(())
}

/// Serves the calls once.
fn serve(
    execution: &impl Execution,
    alloc: Global,
    book: &mut Book,
    calls: &Calls,
    way: Way,
    lists: &mut Lists,
) -> Option<()> {
    ask(&mut lists.requests, calls)?;
    match way {
        Way::Batch => {
            lists.outcomes.clear();
            lists.outcomes.reserve(lists.requests.len()).ok()?;
            run_batch(
                execution,
                alloc,
                book,
                &mut lists.requests,
                &mut lists.outcomes,
                &mut lists.meter,
            );
        }
        Way::OneByOne => serve_each(execution, alloc, book, lists)?,
    }
    Some(())
}

/// Serves the calls on a new book, and then so many rounds of them that are timed: the time of these in nanoseconds; four seconds
/// where it is longer.
fn time_on(
    rt: &impl Clock,
    execution: &impl Execution,
    alloc: Global,
    book: &mut Book,
    calls: &Calls,
    items: u32,
    rounds: u32,
    way: Way,
    lists: &mut Lists,
) -> Option<u32> {
    let space = rounds
        .saturating_add(UNTIMED)
        .saturating_mul(BATCH_LIMIT as u32);
    prepare(alloc, book, calls, items, space)?;
    for _ in 0..UNTIMED {
        serve(execution, alloc, book, calls, way, lists)?;
    }
    let start = Instant::now(rt).ok()?;
    for _ in 0..rounds {
        serve(execution, alloc, book, calls, way, lists)?;
    }
    let taken = start.elapsed(rt).ok()?;
    Some(u32::try_from(taken.as_nanos()).unwrap_or(u32::MAX))
}

/// The time of so many rounds of the calls, in nanoseconds, on a book of their own.
fn time(
    rt: &impl Clock,
    execution: &impl Execution,
    alloc: Global,
    calls: &Calls,
    items: u32,
    rounds: u32,
    way: Way,
    lists: &mut Lists,
) -> Option<u32> {
    let mut book = Book::new(alloc, ROOM).ok()?;
    time_on(
        rt, execution, alloc, &mut book, calls, items, rounds, way, lists,
    )
}

/// The least times of one call in a batch of so many and by itself, in nanoseconds.
fn least(
    rt: &impl Clock,
    execution: &impl Execution,
    alloc: Global,
    shape: Shape,
    count: u32,
    items: u32,
) -> Option<(f64, f64)> {
    let calls = calls_of(alloc, shape, count)?;
    let mut lists = Lists {
        requests: Vec::new(alloc),
        outcomes: Vec::new(alloc),
        meter: Meter::new(),
    };
    let timed = if items > 10_000 { TIMED_LONG } else { TIMED };
    let repeats = if items > 1_000 { REPEATS_LONG } else { REPEATS };
    let rounds = timed / count.max(1);
    let (mut batch, mut one_by_one) = (u32::MAX, u32::MAX);
    for _ in 0..repeats {
        batch = batch.min(time(
            rt,
            execution,
            alloc,
            &calls,
            items,
            rounds,
            Way::Batch,
            &mut lists,
        )?);
        one_by_one = one_by_one.min(time(
            rt,
            execution,
            alloc,
            &calls,
            items,
            rounds,
            Way::OneByOne,
            &mut lists,
        )?);
    }
    let all = f64::from(rounds) * f64::from(count);
    Some((f64::from(batch) / all, f64::from(one_by_one) / all))
}

/// Prints `what TAB n=calls len=items TAB cvl TAB nanoseconds a call in a batch TAB by itself TAB their ratio`.
fn row<R: Alloc<A = Global> + Clock + Print>(
    rt: &R,
    execution: &impl Execution,
    what: &str,
    shape: Shape,
    count: u32,
    items: u32,
) -> io::Result<()> {
    if let Some((batch, one_by_one)) = least(rt, execution, rt.alloc(), shape, count, items) {
        let ratio = batch / one_by_one;
        println!(rt;
            "{what}\tn={count} len={items}\tcvl\t{batch:.1}\t{one_by_one:.1}\t{ratio:.3}"
        )?;
    }
    Ok(())
}

/// Batches of long vectors: how many calls, and how many items. In threads the results of the first lie in vectors that were kept;
/// of the second half of them do.
const LONG: [(u32, u32); 2] = [(16, 65_536), (64, 32_768)];

/// All rows of batches: in the calling thread, and those of long vectors in threads as well.
pub fn rows<R: Alloc<A = Global> + Clock + Print + Threads + Execution<Shared = R> + Sync>(
    rt: &R,
) -> io::Result<()> {
    for items in ITEMS {
        for count in CALLS {
            row(rt, &Sequential, "batch", Shape::Alike, count, items)?;
        }
    }
    row(rt, &Sequential, "batch", Shape::Alike, 16, 65_536)?;
    for (count, items) in LONG {
        row(rt, rt, "batch threads", Shape::Alike, count, items)?;
        row(rt, rt, "batch threads scans", Shape::Scans, count, items)?;
        row(rt, rt, "batch threads sums", Shape::Sums, count, items)?;
    }
    for count in [2, 64] {
        row(rt, &Sequential, "chain", Shape::Chain, count, 2)?;
    }
    Ok(())
}
