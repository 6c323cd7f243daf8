//! The rows of a book by itself, beside those of the shared machine: one thread makes the same calls `x = add_wuz x y` one by one on a
//! book that nobody shares, among as many names, and its history grows alike.

use crate::blocks::set;
use crate::operands::{add, name, numbers};
use call_history::Book;
use scan_kernels::Sequential;
use std::alloc::{AllocError, Global};
use std::io;
use std::rt::Clock;
use std::time::Instant;

/// How many items the vectors have.
const ITEMS: [u32; 4] = [2, 16, 256, 4096];

/// How many calls are timed together, and how many where vectors are long.
const CALLS: u32 = 100_000;

const CALLS_LONG: u32 = 25_000;

/// Names in the memory beside the two that are called.
const OTHERS: u64 = 64;

/// How many times each row is measured.
const REPEATS: u32 = 3;

/// The room of the books.
const ROOM: u64 = 1 << 22;

fn calls(items: u32) -> u32 {
    if items > 1000 { CALLS_LONG } else { CALLS }
}

/// Sets the two names, and others that nobody calls.
fn fill(alloc: Global, book: &mut Book, items: u32) -> Option<()> {
    set(book, alloc, name(b'x', 0)?, numbers(alloc, items, 0, 0)?)?;
    set(book, alloc, name(b'y', 0)?, numbers(alloc, items, 1, 7)?)?;
    for k in 0..OTHERS {
        set(book, alloc, name(b'f', k)?, numbers(alloc, items, 1, 0)?)?;
    }
    Some(())
}

/// Calls a second on this book.
fn rate_on(rt: &impl Clock, alloc: Global, book: &mut Book, items: u32) -> Option<f64> {
    fill(alloc, book, items)?;
    let (x, y) = (name(b'x', 0)?, name(b'y', 0)?);
    let then = Instant::now(rt).ok()?;
    for _ in 0..calls(items) {
        book.run(&Sequential, alloc, 0, add(x, y)).ok()?;
    }
    let time = then.elapsed(rt).ok()?;
    let nanoseconds = u32::try_from(time.as_nanos()).unwrap_or(u32::MAX).max(1);
    Some(f64::from(calls(items)) * 1_000_000_000.0 / f64::from(nanoseconds))
}

/// Calls a second on a book of its own.
fn rate(rt: &impl Clock, alloc: Global, items: u32) -> Option<f64> {
    let mut book = Book::new(alloc, ROOM).ok()?;
    rate_on(rt, alloc, &mut book, items)
}

/// Whether the row's name begins with these words.
fn is_named(alloc: Global, items: u32, words: &str) -> Result<bool, AllocError> {
    let row = format!(in alloc; "book T=1 len={items}")?;
    Ok(row.as_str().starts_with(words))
}

/// Prints `shared TAB book T=1 len=items TAB cvl TAB calls a second`, once for each repeat, where the name begins with these words.
/// Whether there are such rows.
pub fn rows(rt: &(impl Alloc<A = Global> + Clock + Print), words: &str) -> io::Result<bool> {
    let mut any = false;
    for items in ITEMS {
        if !is_named(rt.alloc(), items, words)? {
            continue;
        }
        any = true;
        for _ in 0..REPEATS {
            if let Some(rate) = rate(rt, rt.alloc(), items) {
                println!(rt; "shared\tbook T=1 len={items}\tcvl\t{rate:.0}")?;
            }
        }
    }
    Ok(any)
}
