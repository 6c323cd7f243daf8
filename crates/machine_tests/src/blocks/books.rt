//! Blocks of calls on a book.

use super::machines::{block_of, text_of};
use crate::asking::read;
use call_history::{BLOCK_LIMIT, Book, CALLER_LIMIT};
use cvl_text::Call;
use scan_kernels::{Meter, Sequential};
use std::alloc::Global;
use std::process::Abort;

/// The place that a block of these lines is answered, and the texts of its replies, each with a line feed.
fn run(
    rt: &impl Abort,
    alloc: Global,
    book: &mut Book,
    meter: &mut Meter,
    caller: u64,
    lines: &[&[u8]],
) -> (u64, Vec<u8>) {
    assert!(rt; caller < CALLER_LIMIT as u64);
    let calls = block_of(rt, alloc, lines);
    let ran = book.run_block(&Sequential, alloc, meter, caller, calls);
    let (place, replies) = ran.ok().expect(rt, "memory");
    (place, text_of(rt, alloc, &replies))
}

/// Whether a block is answered at this place, with these texts, and runs so many kernels.
fn runs(
    rt: &impl Abort,
    alloc: Global,
    book: &mut Book,
    caller: u64,
    lines: &[&[u8]],
    wanted: (u64, &[u8], u64),
) -> bool {
    let (place, text, kernels) = wanted;
    let mut meter = Meter::new();
    let (at, said) = run(rt, alloc, book, &mut meter, caller, lines);
    at == place && said.as_slice() == text && meter.runs() == kernels
}

/// Whether the entry at a place is of this caller, with this ticket, and so many of its block follow it.
fn stands_at(book: &Book, place: usize, caller: u64, ticket: u64, rest: u64) -> bool {
    if place >= book.len() {
        return false;
    }
    let entry = book.entry(place);
    u64::from(entry.caller) == caller && entry.ticket == ticket && u64::from(entry.rest) == rest
}

const FAULTY: &[&[u8]] = &[b"a = z 1 2", b"b = z 3 4 5", b"get a"];

#[test]
fn goes_on_behind_a_fault(rt: HostRuntime) {
    let alloc = rt.alloc();
    let mut book = Book::new(alloc, 4).expect(&rt, "memory");
    assert!(rt;
        runs(
            &rt,
            alloc,
            &mut book,
            0,
            FAULTY,
            (0, b"ok\nfault 9\nz 1 2\n", 0)
        )
    );
    assert!(rt; runs(&rt, alloc, &mut book, 1, &[b"get a"], (3, b"z 1 2\n", 0)));
    assert!(rt; stands_at(&book, 0, 0, 0, 2) && stands_at(&book, 1, 0, 1, 1));
    assert!(rt; stands_at(&book, 2, 0, 2, 0) && stands_at(&book, 3, 1, 0, 0));
    assert!(rt; book.len() == 4 && book.memory().len() == 1);
    assert!(rt; book.audit(&Sequential, alloc) == Ok(true));
}

const OPENING: &[&[u8]] = &[b"a = z 1", b"b = z 2"];

const MOVED: &[&[u8]] = &[b"fre_fov a", b"a = z 7 8", b"c = add_wuz b b"];

#[test]
fn frees_and_stores_again(rt: HostRuntime) {
    let alloc = rt.alloc();
    let mut book = Book::new(alloc, 100).expect(&rt, "memory");
    assert!(rt; runs(&rt, alloc, &mut book, 0, OPENING, (0, b"ok\nok\n", 0)));
    assert!(rt; runs(&rt, alloc, &mut book, 5, MOVED, (2, b"ok\nok\nok\n", 1)));
    let shown: &[&[u8]] = &[b"get a", b"get c"];
    assert!(rt; runs(&rt, alloc, &mut book, 0, shown, (5, b"z 7 8\nz 4\n", 0)));
    assert!(rt; book.audit(&Sequential, alloc) == Ok(true));
}

/// So many calls that add one to a name.
fn additions(rt: &impl Abort, alloc: Global, count: usize) -> Vec<Call> {
    let mut calls = Vec::with_capacity(alloc, count).expect(rt, "memory");
    for _ in 0..count {
        let call = read(rt, alloc, b"a = add_wuz a b");
        calls.push(call).ok().expect(rt, "memory");
    }
    calls
}

/// So many calls that add one to a name, as one block: its place.
fn adds(rt: &impl Abort, alloc: Global, book: &mut Book, count: usize) -> u64 {
    let calls = additions(rt, alloc, count);
    assert!(rt; !calls.is_empty() && calls.len() <= BLOCK_LIMIT);
    let ran = book.run_block(&Sequential, alloc, &mut Meter::new(), 63, calls);
    let (place, _) = ran.ok().expect(rt, "memory");
    place
}

#[test]
fn runs_as_many_calls_as_there_may_be(rt: HostRuntime) {
    let alloc = rt.alloc();
    let mut book = Book::new(alloc, 100).expect(&rt, "memory");
    let opening: &[&[u8]] = &[b"a = z 0", b"b = z 1"];
    assert!(rt; runs(&rt, alloc, &mut book, 0, opening, (0, b"ok\nok\n", 0)));
    assert!(rt; adds(&rt, alloc, &mut book, 1024) == 2);
    assert!(rt; adds(&rt, alloc, &mut book, 1) == 1026);
    assert!(rt; stands_at(&book, 2, 63, 0, 1023) && stands_at(&book, 1025, 63, 1023, 0));
    assert!(rt; stands_at(&book, 1026, 63, 1024, 0));
    let sum: &[&[u8]] = &[b"add_ruz a"];
    assert!(rt; runs(&rt, alloc, &mut book, 0, sum, (1027, b"int 1025\n", 1)));
}
