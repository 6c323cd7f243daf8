//! Calls of one word by several callers, beside the same calls one by one: all words that run a kernel join.

use crate::alone::come_to_the_same;
use crate::asking::book_of;
use crate::table::{ALONE, CALLS, OPERANDS, write_call};
use batch_flatten::Ran;
use scan_kernels::DEFAULT_CHUNK;
use std::alloc::Global;
use std::process::Abort;
use vector_memory::ROOM_LIMIT;

/// The operands, and a value for every second target, so that some targets are new and others stand.
fn before(rt: &impl Abort, alloc: Global) -> String {
    let mut lines = OPERANDS.to_string(alloc).expect(rt, "memory");
    for pair in 0..32_u64 {
        let number = 2 * pair;
        let line = format!(in alloc; "x{number} = z 1 2 3\n").expect(rt, "memory");
        lines.push_str(&line).expect(rt, "memory");
    }
    lines
}

/// A call of the table by so many callers, on these sets of operands in turn.
fn alike(rt: &impl Abort, alloc: Global, call: &str, callers: usize, sets: &[char; 4]) -> String {
    let mut lines = String::new(alloc);
    for caller in 0..callers {
        let target = format!(in alloc; "x{caller}").expect(rt, "memory");
        write_call(rt, &mut lines, call, &target, sets[caller % 4]);
    }
    lines
}

/// Asserts of a call of the table that so many callers of it are served in one wave, by so many kernel runs, with chunks of so
/// many items, and that they come to the same as one by one.
fn joins(
    rt: &impl Abort,
    alloc: Global,
    before: &str,
    call: &str,
    kernels: u64,
    callers: usize,
    chunk: usize,
    sets: &[char; 4],
) {
    let mut one = book_of(rt, alloc, ROOM_LIMIT, before);
    let mut other = book_of(rt, alloc, ROOM_LIMIT, before);
    let lines = alike(rt, alloc, call, callers, sets);
    let ran = come_to_the_same(rt, alloc, &mut one, &mut other, chunk, &lines);
    let wanted = Ran {
        waves: 1,
        kernels,
        singles: 0,
    };
    assert!(rt; ran == wanted, "{call}");
}

/// Asserts of each call of the table that so many callers of it join, where it runs a kernel.
fn all_join(rt: &impl Abort, alloc: Global, callers: usize, chunk: usize, sets: &[char; 4]) {
    let before = before(rt, alloc);
    for (place, call) in CALLS.iter().enumerate() {
        let kernels = u64::from(place >= ALONE);
        joins(rt, alloc, &before, call, kernels, callers, chunk, sets);
    }
}

#[test]
fn with_items(rt: HostRuntime) {
    for callers in [2, 3, 64] {
        all_join(
            &rt,
            rt.alloc(),
            callers,
            DEFAULT_CHUNK,
            &['0', '0', '0', '0'],
        );
    }
}

#[test]
fn with_no_items(rt: HostRuntime) {
    for callers in [2, 3, 64] {
        all_join(
            &rt,
            rt.alloc(),
            callers,
            DEFAULT_CHUNK,
            &['1', '1', '1', '1'],
        );
    }
}

#[test]
fn with_empty_segments(rt: HostRuntime) {
    for callers in [2, 3, 64] {
        all_join(
            &rt,
            rt.alloc(),
            callers,
            DEFAULT_CHUNK,
            &['2', '2', '2', '2'],
        );
    }
}

#[test]
fn with_operands_of_several_lengths(rt: HostRuntime) {
    for callers in [2, 3, 64] {
        all_join(
            &rt,
            rt.alloc(),
            callers,
            DEFAULT_CHUNK,
            &['0', '3', '1', '2'],
        );
        all_join(
            &rt,
            rt.alloc(),
            callers,
            DEFAULT_CHUNK,
            &['1', '3', '2', '0'],
        );
    }
}

#[test]
fn by_chunks(rt: HostRuntime) {
    for (callers, chunk) in [(2, 1), (3, 2), (64, 7)] {
        all_join(&rt, rt.alloc(), callers, chunk, &['0', '3', '1', '2']);
    }
}
