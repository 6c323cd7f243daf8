//! Books while memory is refused, beside a memory that is refused nothing.

use super::{ROOM, begin, each_word, end, holds, memory_text, opening, replied, text_of};
use call_history::Book;
use cvl_text::{Call, Reply};
use scan_kernels::{Meter, Sequential};
use std::alloc::{Alloc, Global};
use std::process::Abort;
use vector_memory::Memory;

/// A new book, made again where memory is refused.
fn new_book<R: Abort + Alloc<A = Global> + Print>(rt: &R) -> Book {
    begin(rt);
    let book = Book::new(rt.alloc(), ROOM);
    end(rt);
    match book {
        Ok(book) => book,
        Err(_) => Book::new(rt.alloc(), ROOM).expect(rt, "memory"),
    }
}

/// The reply to a line, and its place. None where memory is refused, of which the meter may have counted a kernel.
fn answer<R: Abort + Alloc<A = Global> + Print>(
    rt: &R,
    book: &mut Book,
    line: &str,
) -> Option<(u64, Reply)> {
    let call = Call::read(rt.alloc(), line.as_bytes()).expect(rt, "a call");
    let mut meter = Meter::new();
    begin(rt);
    let ran = book.run_metered(&Sequential, rt.alloc(), &mut meter, 0, call);
    end(rt);
    assert!(rt; ran.is_ok() || meter.runs() <= 1);
    ran.ok()
}

/// The same of a line that is refused nothing.
fn sure_answer<R: Abort + Alloc<A = Global>>(rt: &R, book: &mut Book, line: &str) -> (u64, Reply) {
    let call = Call::read(rt.alloc(), line.as_bytes()).expect(rt, "a call");
    let Ok(answer) = book.run(&Sequential, rt.alloc(), 0, call) else {
        panic!(rt; "out of memory");
    };
    answer
}

/// The reply to a line, and its place. Where memory is refused the book has not changed, and the line is run again.
fn run<R: Abort + Alloc<A = Global> + Print>(rt: &R, book: &mut Book, line: &str) -> (u64, Reply) {
    let before = memory_text(rt, book.memory());
    let length = book.len();
    if let Some(answer) = answer(rt, book, line) {
        return answer;
    }
    assert!(rt; book.len() == length);
    holds(rt, book.memory(), &before);
    sure_answer(rt, book, line)
}

/// Asserts that a line is answered behind all others, as the memory replies.
fn runs_last<R: Abort + Alloc<A = Global> + Print>(
    rt: &R,
    book: &mut Book,
    memory: &mut Memory,
    line: &str,
) {
    let length = book.len() as u64;
    let (place, reply) = run(rt, book, line);
    assert!(rt; place == length);
    let text = text_of(rt, &reply);
    assert!(rt; text == replied(rt, memory, line));
}

fn runs_each<R: Abort + Alloc<A = Global> + Print>(rt: &R, book: &mut Book, memory: &mut Memory) {
    for line in opening().lines().chain(each_word().lines()) {
        runs_last(rt, book, memory, line);
    }
    holds(rt, book.memory(), &memory_text(rt, memory));
}

fn runs_beside_a_memory<R: Abort + Alloc<A = Global> + Print>(rt: &R, book: &mut Book) {
    let mut memory = Memory::new(rt.alloc(), ROOM).expect(rt, "memory");
    runs_each(rt, book, &mut memory);
}

#[test]
fn runs_on_a_book(rt: HostRuntime) {
    let mut book = new_book(&rt);
    runs_beside_a_memory(&rt, &mut book);
}

/// A book that has a call of each word.
fn full_book<R: Abort + Alloc<A = Global>>(rt: &R) -> Book {
    let mut book = Book::new(rt.alloc(), ROOM).expect(rt, "memory");
    for line in opening().lines().chain(each_word().lines()) {
        sure_answer(rt, &mut book, line);
    }
    book
}

fn audits<R: Abort + Alloc<A = Global> + Print>(rt: &R, book: &mut Book) {
    let length = book.len();
    begin(rt);
    let reserved = book.reserve(1000);
    let audited = book.audit(&Sequential, rt.alloc());
    end(rt);
    assert!(rt; book.len() == length && audited != Ok(false));
    assert!(rt; reserved.is_ok() || audited == Ok(true));
    assert!(rt; book.audit(&Sequential, rt.alloc()).expect(rt, "memory"));
}

/// An audit says that a book is right, or that memory is wanting, also of a book that was refused space.
#[test]
fn audits_a_book(rt: HostRuntime) {
    let mut book = full_book(&rt);
    audits(&rt, &mut book);
}
