//! The rows of results that are written over an operand: `a = add_wuz a b` beside `c = add_wuz a b`, whose result goes into a
//! vector that was kept, and the same of a scan. They are calls on a book, in one thread, and take turns; of each the least time
//! counts.

use call_history::Book;
use cvl_text::Call;
use scan_kernels::Sequential;
use std::alloc::Global;
use std::io::{self, ErrorKind};
use std::rt::Clock;
use std::time::Instant;

/// How many items the vectors have.
const SIZES: [u32; 9] = [
    4_096, 8_192, 16_384, 32_768, 65_536, 131_072, 262_144, 524_288, 1_000_000,
];

/// A row: its name, the call whose result is written over an operand, and the other one.
struct Row {
    name: &'static str,
    over: &'static str,
    kept: &'static str,
}

const ROWS: [Row; 2] = [
    Row {
        name: "add",
        over: "a = add_wuz a b",
        kept: "c = add_wuz a b",
    },
    Row {
        name: "scan",
        over: "a = add_suz a",
        kept: "c = add_suz a",
    },
];

/// How many times each way is timed.
const REPEATS: u32 = 300;

/// The room of the book.
const ROOM: u64 = 4_000_000;

/// Runs a line: the time in nanoseconds.
fn time(rt: &impl Clock, alloc: Global, book: &mut Book, line: &str) -> io::Result<u32> {
    let Ok(call) = Call::read(alloc, line.as_bytes()) else {
        return Err(io::Error::from(ErrorKind::InvalidInput));
    };
    let start = Instant::now(rt)?;
    let ran = book.run(&Sequential, alloc, 0, call);
    let elapsed = start.elapsed(rt)?.as_nanos();
    if ran.is_err() {
        return Err(io::Error::from(ErrorKind::OutOfMemory));
    }
    Ok(u32::try_from(elapsed).unwrap_or(u32::MAX))
}

/// Sets two vectors of so many items.
fn set(rt: &impl Clock, alloc: Global, book: &mut Book, size: u32) -> io::Result<()> {
    let first = format!(in alloc; "a = ind_luz 0 1 {size}")?;
    time(rt, alloc, book, first.as_str())?;
    let second = format!(in alloc; "b = dis_vuz 7 {size}")?;
    time(rt, alloc, book, second.as_str())?;
    Ok(())
}

/// The least time of both ways, in nanoseconds.
fn least(rt: &impl Clock, alloc: Global, book: &mut Book, row: &Row) -> io::Result<(u32, u32)> {
    let mut least = (u32::MAX, u32::MAX);
    for _repeat in 0..REPEATS {
        let over = time(rt, alloc, book, row.over)?;
        let kept = time(rt, alloc, book, row.kept)?;
        least = (least.0.min(over), least.1.min(kept));
    }
    Ok(least)
}

/// The least times on a new book with two vectors of so many items.
fn least_on(
    rt: &impl Clock,
    alloc: Global,
    book: &mut Book,
    row: &Row,
    size: u32,
) -> io::Result<(u32, u32)> {
    set(rt, alloc, book, size)?;
    least(rt, alloc, book, row)
}

/// The least times on a book of their own.
fn least_of(rt: &impl Clock, alloc: Global, row: &Row, size: u32) -> io::Result<(u32, u32)> {
    let Ok(mut book) = Book::new(alloc, ROOM) else {
        return Err(io::Error::from(ErrorKind::OutOfMemory));
    };
    least_on(rt, alloc, &mut book, row, size)
}

/// Prints for each number of items the nanoseconds of a call either way.
pub fn rows<R: Alloc<A = Global> + Clock + Print>(rt: &R) -> io::Result<()> {
    for row in &ROWS {
        for size in SIZES {
            let (over, kept) = least_of(rt, rt.alloc(), row, size)?;
            let name = row.name;
            println!(rt; "over\t{name}/{size}\tover an operand\t{over}")?;
            println!(rt; "over\t{name}/{size}\tinto a kept vector\t{kept}")?;
        }
    }
    Ok(())
}
