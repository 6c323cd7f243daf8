//! The book with ample memory.

use call_history::{Book, CALLER_LIMIT};
use cvl_text::Call;
use scan_kernels::Execution;
use std::alloc::{Alloc, Global};
use std::process::Abort;
use std::thread::Threads;

/// The place of a line's call that a caller ran, and the text of the reply.
fn run<R: Threads + Abort + Execution<Shared = R> + Sync>(
    rt: &R,
    alloc: Global,
    book: &mut Book,
    caller: u64,
    line: &[u8],
) -> (u64, Vec<u8>) {
    assert!(rt; caller < CALLER_LIMIT as u64);
    let call = Call::read(alloc, line).expect(rt, "a call");
    let Ok((place, reply)) = book.run(rt, alloc, caller, call) else {
        panic!(rt; "out of memory");
    };
    let mut text = Vec::new(alloc);
    reply.write(&mut text).expect(rt, "memory");
    (place, text)
}

/// Whether a line that a caller runs is answered at this place, with this text.
fn answers<R: Threads + Abort + Execution<Shared = R> + Sync>(
    rt: &R,
    alloc: Global,
    book: &mut Book,
    caller: u64,
    line: &[u8],
    place: u64,
    wanted: &[u8],
) -> bool {
    let (found, text) = run(rt, alloc, book, caller, line);
    found == place && text.as_slice() == wanted
}

/// Whether the entry at a place is of this caller, with this ticket.
fn stands_at(book: &Book, place: usize, caller: u64, ticket: u64) -> bool {
    if place >= book.len() {
        return false;
    }
    let entry = book.entry(place);
    u64::from(entry.caller) == caller && entry.ticket == ticket
}

/// Whether the book is the one of the first test.
fn is_first_book(book: &Book) -> bool {
    book.len() == 3
        && stands_at(book, 0, 3, 0)
        && stands_at(book, 1, 3, 1)
        && stands_at(book, 2, 5, 0)
        && book.memory().len() == 1
        && book.memory().cells() == 1
        && book.room() == 10
}

fn expect_first_book<R: Abort + Alloc<A = Global> + Threads + Execution<Shared = R> + Sync>(
    rt: &R,
    book: &mut Book,
) {
    assert!(rt; book.is_empty());
    assert!(rt; answers(rt, rt.alloc(), book, 3, b"a = z 1", 0, b"ok"));
    assert!(rt; answers(rt, rt.alloc(), book, 3, b"get b", 1, b"fault 1"));
    assert!(rt; answers(rt, rt.alloc(), book, 5, b"get a", 2, b"z 1"));
    assert!(rt; is_first_book(book) && !book.is_empty());
    book.reserve(1000).expect(rt, "memory");
    assert!(rt; is_first_book(book));
    assert!(rt; book.audit(rt, rt.alloc()).expect(rt, "memory"));
}

#[test]
fn keeps_what_its_callers_ran(rt: HostRuntime) {
    let mut book = Book::new(rt.alloc(), 10).expect(&rt, "memory");
    expect_first_book(&rt, &mut book);
}

/// The calls of a round.
const ROUND: [&[u8]; 10] = [
    b"a = z 3 1 4",
    b"b = add_suz a",
    b"s = mke_fov a",
    b"c = add_wuz a b",
    b"f = boo_wuz c",
    b"p = pck_puz a f",
    b"add_ruz p",
    b"d = dis_vuz 7 200",
    b"fre_fov b",
    b"get b",
];

fn run_round<R: Abort + Alloc<A = Global> + Threads + Execution<Shared = R> + Sync>(
    rt: &R,
    book: &mut Book,
    caller: u64,
) {
    for line in &ROUND {
        run(rt, rt.alloc(), book, caller, line);
    }
}

fn expect_ten_thousand<R: Abort + Alloc<A = Global> + Threads + Execution<Shared = R> + Sync>(
    rt: &R,
    book: &mut Book,
) {
    for round in 0..1000 {
        run_round(rt, book, round % 64);
    }
    assert!(rt; book.len() == 10_000);
    assert!(rt; stands_at(book, 9999, 39, 159));
    assert!(rt; book.audit(rt, rt.alloc()).expect(rt, "memory"));
}

#[test]
fn audits_ten_thousand_calls(rt: HostRuntime) {
    let mut book = Book::new(rt.alloc(), 100).expect(&rt, "memory");
    expect_ten_thousand(&rt, &mut book);
}
