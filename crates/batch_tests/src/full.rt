//! Batches of as many calls as there may be.

use crate::case::{Case, comes_about};
use batch_flatten::BATCH_LIMIT;
use std::alloc::{AllocError, Global};
use std::process::Abort;

/// Writes a line behind the text.
fn push(rt: &impl Abort, text: &mut String, line: Result<String, AllocError>) {
    let line = line.expect(rt, "memory");
    text.push_str(&line).expect(rt, "memory");
}

/// For each caller the line, with the caller's number behind its beginning.
fn numbered(rt: &impl Abort, alloc: Global, first: u64, beginning: &str, end: &str) -> String {
    let mut text = String::new(alloc);
    for caller in 0..BATCH_LIMIT as u64 {
        let number = first.wrapping_add(caller);
        let line = format!(in alloc; "{beginning}{number}{end}\n");
        push(rt, &mut text, line);
    }
    text
}

#[test]
fn one_wave(rt: HostRuntime) {
    let calls = numbered(&rt, rt.alloc(), 0, "x", " = add_wuz a a");
    let answers = numbered(&rt, rt.alloc(), 1, "", " ok");
    let results = numbered(&rt, rt.alloc(), 0, "x", " z 2 4");
    let after = format!(in rt.alloc(); "a z 1 2\n{results}").expect(&rt, "memory");
    let case = Case {
        room: 1000,
        before: "a = z 1 2",
        calls: &calls,
        waves: 1,
        kernels: 1,
        answers: &answers,
        after: &after,
    };
    comes_about(&rt, rt.alloc(), &case)
}

#[test]
fn a_wave_for_each_call(rt: HostRuntime) {
    let mut calls = String::new(rt.alloc());
    for _ in 0..BATCH_LIMIT {
        calls.push_str("c = add_wuz c s\n").expect(&rt, "memory");
    }
    let answers = numbered(&rt, rt.alloc(), 2, "", " ok");
    let case = Case {
        room: 1000,
        before: "c = z 0 5\ns = z 1 -1",
        calls: &calls,
        waves: 64,
        kernels: 64,
        answers: &answers,
        after: "c z 64 -59\ns z 1 -1\n",
    };
    comes_about(&rt, rt.alloc(), &case)
}

/// The calls of two callers, one of the first wave and one that waits for its like, 32 times; their answers, and what the
/// first ones leave. All of the first wave stand before the others: in the history behind three calls, those are the places
/// 3 to 35.
fn pairs(rt: &impl Abort, alloc: Global) -> (String, String, String) {
    let mut calls = String::new(alloc);
    let mut answers = "3 ok\n4 ok\n".to_string(alloc).expect(rt, "memory");
    let mut after = String::new(alloc);
    for pair in 0..BATCH_LIMIT as u64 / 2 {
        let two = format!(in alloc; "x{pair} = add_wuz a a\nc = mul_wuz c s\n");
        push(rt, &mut calls, two);
        push(rt, &mut after, format!(in alloc; "x{pair} z 2\n"));
        if pair > 0 {
            let (first, second) = (4 + pair, 35 + pair);
            let two = format!(in alloc; "{first} ok\n{second} ok\n");
            push(rt, &mut answers, two);
        }
    }
    (calls, answers, after)
}

/// In the first wave each of the two words runs a kernel, in the others one.
#[test]
fn a_wave_of_many_and_waves_of_one(rt: HostRuntime) {
    let (calls, answers, results) = pairs(&rt, rt.alloc());
    let after = format!(in rt.alloc(); "a z 1\nc z 4294967296\ns z 2\n{results}");
    let after = after.expect(&rt, "memory");
    let case = Case {
        room: 1000,
        before: "a = z 1\nc = z 1\ns = z 2",
        calls: &calls,
        waves: 32,
        kernels: 33,
        answers: &answers,
        after: &after,
    };
    comes_about(&rt, rt.alloc(), &case)
}
