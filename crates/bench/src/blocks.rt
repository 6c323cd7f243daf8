//! The rows of blocks on a book, in one thread: the same calls `x = add_wuz x y` one by one and in blocks, each way on a book of
//! its own. They take turns, and of each the least time counts.

use crate::operands::{add, adds, name, numbers};
use call_history::{BLOCK_LIMIT, Book};
use cvl_text::Call;
use scan_kernels::{Meter, Sequential};
use std::alloc::Global;
use std::io;
use std::rt::Clock;
use std::time::Instant;
use vector_memory::Name;

/// How many calls a block has: 1 stands for calls one by one.
const SIZES: [u32; 4] = [1, 4, 16, 64];

/// How many items the vectors have.
const ITEMS: [u32; 4] = [2, 16, 256, 4096];

/// How many calls are timed together.
const TIMED: u32 = 1920;

/// How many times each way is timed.
const REPEATS: u32 = 200;

/// The room of the books.
const ROOM: u64 = 1 << 16;

/// Sets a name to so many numbers.
pub fn set(book: &mut Book, alloc: Global, to: Name, items: Vec<i64>) -> Option<()> {
    let call = Call::SetInts { to, items };
    book.run(&Sequential, alloc, 0, call).ok()?;
    Some(())
}

/// A block of so many calls runs, or one call by itself.
fn serve(
    alloc: Global,
    book: &mut Book,
    meter: &mut Meter,
    size: u32,
    x: Name,
    y: Name,
) -> Option<()> {
    if size == 1 {
        book.run_metered(&Sequential, alloc, meter, 0, add(x, y))
            .ok()?;
        return Some(());
    }
    let calls = adds(alloc, size, x, y)?;
    if calls.is_empty() || calls.len() > BLOCK_LIMIT {
        return None;
    }
    book.run_block(&Sequential, alloc, meter, 0, calls).ok()?;
    Some(())
}

/// Gives both names so many items, and makes space for the calls that are timed together.
fn prepare(alloc: Global, book: &mut Book, items: u32, x: Name, y: Name) -> Option<()> {
    set(book, alloc, x, numbers(alloc, items, 0, 0)?)?;
    set(book, alloc, y, numbers(alloc, items, 1, 7)?)?;
    book.reserve(TIMED as usize).ok()
}

/// Serves the calls that are timed together: the time in nanoseconds; four seconds where it is longer.
fn serve_all(
    rt: &impl Clock,
    alloc: Global,
    book: &mut Book,
    size: u32,
    x: Name,
    y: Name,
) -> Option<u32> {
    let mut meter = Meter::new();
    let then = Instant::now(rt).ok()?;
    for _ in 0..TIMED / size.max(1) {
        serve(alloc, book, &mut meter, size, x, y)?;
    }
    let time = then.elapsed(rt).ok()?;
    Some(u32::try_from(time.as_nanos()).unwrap_or(u32::MAX))
}

/// Nanoseconds a call, of the calls that are timed together on a new book.
fn time_on(rt: &impl Clock, alloc: Global, book: &mut Book, size: u32, items: u32) -> Option<f64> {
    let (x, y) = (name(b'x', 0)?, name(b'y', 0)?);
    prepare(alloc, book, items, x, y)?;
    let nanoseconds = serve_all(rt, alloc, book, size, x, y)?;
    Some(f64::from(nanoseconds) / f64::from(TIMED))
}

/// Nanoseconds a call on a book of its own.
fn time(rt: &impl Clock, alloc: Global, size: u32, items: u32) -> Option<f64> {
    let mut book = Book::new(alloc, ROOM).ok()?;
    time_on(rt, alloc, &mut book, size, items)
}

/// Prints `blocks TAB len=items block=calls TAB cvl TAB nanoseconds a call`.
pub fn rows(rt: &(impl Alloc<A = Global> + Clock + Print)) -> io::Result<()> {
    for items in ITEMS {
        let mut least = [f64::MAX; 4];
        for _ in 0..REPEATS {
            for (best, size) in least.iter_mut().zip(SIZES) {
                *best = best.min(time(rt, rt.alloc(), size, items).unwrap_or(f64::MAX));
            }
        }
        for (best, size) in least.iter().zip(SIZES) {
            println!(rt; "blocks\tlen={items} block={size}\tcvl\t{best:.1}")?;
        }
    }
    Ok(())
}
