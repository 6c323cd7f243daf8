//! Scripts call by call: on a book, and on a plain memory.

ghost use Rattle.std.specs.Prelude.{◌≡◌, None};

use crate::replay::{Told, is_told_right, note, replay_call};
use crate::script::{CALLERS, Script};
use crate::texts::{call_text, hold_the_same};
use call_history::Book;
use cvl_text::Call;
use scan_kernels::Sequential;
use std::alloc::Global;
use vector_memory::{Edition, Memory, is_lawful_room};

/// Runs the call of a line on a book, and notes what its caller is told. Whether the line is a call.
fn run_line(
    alloc: Global,
    book: &mut Book,
    number: usize,
    line: &str,
    told: &mut Vec<Told>,
) -> Option<bool> {
    let Ok(call) = Call::read_in(alloc, line.as_bytes(), Edition::Two) else {
        return Some(false);
    };
    let text = call_text(alloc, &call)?;
    let caller = (number % CALLERS) as u64;
    let (place, reply) = book.run(&Sequential, alloc, caller, call).ok()?;
    note(alloc, told, caller, text, place, &reply)?;
    Some(true)
}

/// Runs the calls of these lines on a book, each by the next caller in turn, and notes what is told. Whether each line is a call.
pub(crate) fn run_lines(
    alloc: Global,
    book: &mut Book,
    lines: &str,
    told: &mut Vec<Told>,
) -> Option<bool> {
    for (number, line) in lines.lines().enumerate() {
        if !run_line(alloc, book, number, line, told)? {
            return Some(false);
        }
    }
    Some(true)
}

/// Runs the calls of these lines on a plain memory, each by the next caller in turn, and notes what is told.
fn replay_lines(
    alloc: Global,
    memory: &mut Memory,
    lines: &str,
    replay: &mut Vec<Told>,
) -> Option<()>
    requires { memory.old.block ≡ None }
    ensures { memory.new.block ≡ None }
{
    for (number, line) in lines.lines().enumerate() {
        let call = Call::read_in(alloc, line.as_bytes(), Edition::Two).ok()?;
        let caller = (number % CALLERS) as u64;
        replay_call(alloc, memory, replay, caller, &call)?;
    }
    Some(())
}

/// Runs a script on a plain memory, and notes what is told. Whether it ends with what the book holds.
fn replays(alloc: Global, script: &Script, book: &Book, replay: &mut Vec<Told>) -> Option<bool> {
    let mut memory = Memory::with_edition(alloc, book.room(), book.edition()).ok()?;
    replay_lines(alloc, &mut memory, &script.opening, replay)?;
    replay_lines(alloc, &mut memory, &script.calls, replay)?;
    hold_the_same(alloc, &memory, book.memory())
}

/// Whether the same was told, in order.
fn are_alike(told: &[Told], replay: &[Told]) -> bool {
    for (one, other) in told.iter().zip(replay.iter()) {
        if !one.agrees(other) {
            return false;
        }
    }
    true
}

/// Whether a plain memory replies to the lines of a script what was told, in order, and ends with what the book holds.
fn agrees(alloc: Global, script: &Script, book: &Book, told: &[Told]) -> Option<bool> {
    let mut replay = Vec::new(alloc);
    let replayed = replays(alloc, script, book, &mut replay)?;
    Some(replayed && are_alike(told, &replay))
}

/// A book of the script's room and edition.
pub(crate) fn book_of(alloc: Global, script: &Script) -> Option<Book> {
    if !is_lawful_room(script.room) {
        return None;
    }
    Book::with_edition(alloc, script.room, script.edition).ok()
}

/// Whether this book, which is empty, tells what a plain memory replies, and holds the same.
fn tells_right(
    alloc: Global,
    script: &Script,
    book: &mut Book,
    told: &mut Vec<Told>,
) -> Option<bool> {
    let read = run_lines(alloc, book, &script.opening, told)?
        && run_lines(alloc, book, &script.calls, told)?;
    Some(read && agrees(alloc, script, book, told)? && is_told_right(alloc, book, told)?)
}

/// Whether a book tells what a plain memory replies, and holds the same.
pub(crate) fn is_right(alloc: Global, script: &Script) -> Option<bool> {
    let mut book = book_of(alloc, script)?;
    let mut told = Vec::new(alloc);
    tells_right(alloc, script, &mut book, &mut told)
}
