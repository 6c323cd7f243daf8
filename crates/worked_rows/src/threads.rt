//! The program in mode `threads`: what it writes does not tell in which order the callers' calls were served.

use crate::program::{USAGE, expect_answer, expect_ran, run_on, whole, writer};
use crate::streams::{Full, Pieces};
use scan_kernels::Execution;
use std::alloc::{Alloc, Global};
use std::process::Abort;
use std::sync::Wait;
use std::thread::Threads;

/// The lines of caller `k`: it sets two names of its own to these items, adds the one to the other 97 times, and asks for it.
fn adds_often(rt: &impl Abort, alloc: Global, script: &mut Vec<u8>, k: u64, items: &str) {
    let first = format!(in alloc; "{k}: y{k} = z {items}\n{k}: x{k} = z 0 0\n");
    let first = first.expect(rt, "memory");
    script
        .extend_from_slice(first.as_bytes())
        .expect(rt, "memory");
    let add = format!(in alloc; "{k}: x{k} = add_wuz x{k} y{k}\n").expect(rt, "memory");
    for _ in 0..97 {
        script
            .extend_from_slice(add.as_bytes())
            .expect(rt, "memory");
    }
    let last = format!(in alloc; "{k}: get x{k}\n").expect(rt, "memory");
    script
        .extend_from_slice(last.as_bytes())
        .expect(rt, "memory");
}

/// The replies to so many calls of a caller that are done, and one more line.
fn replies(rt: &impl Abort, alloc: Global, text: &mut Vec<u8>, k: u64, oks: u64, last: &str) {
    let ok = format!(in alloc; "{k} ok\n").expect(rt, "memory");
    for _ in 0..oks {
        text.extend_from_slice(ok.as_bytes()).expect(rt, "memory");
    }
    text.extend_from_slice(last.as_bytes()).expect(rt, "memory");
}

#[test]
fn adds_on_two_threads(rt: HostRuntime) {
    let mut script = Vec::new(rt.alloc());
    adds_often(&rt, rt.alloc(), &mut script, 0, "1 2");
    adds_often(&rt, rt.alloc(), &mut script, 1, "3 4");
    let mut text = Vec::new(rt.alloc());
    replies(&rt, rt.alloc(), &mut text, 0, 99, "0 z 97 194\n");
    replies(&rt, rt.alloc(), &mut text, 1, 99, "1 z 291 388\n");
    let report = b"x0 z 97 194\nx1 z 291 388\ny0 z 1 2\ny1 z 3 4\nhistory 200\naudit ok\n";
    text.extend_from_slice(report).expect(&rt, "memory");
    expect_answer(&rt, &["threads"], &script, &text, 0);
}

/// A line for each name from this number on to that one, which it stands for.
fn names_between(rt: &impl Abort, alloc: Global, text: &mut Vec<u8>, from: u64, to: u64) {
    for k in from..to {
        let line = format!(in alloc; "x{k} z {k}\n").expect(rt, "memory");
        text.extend_from_slice(line.as_bytes()).expect(rt, "memory");
    }
}

/// The names x0 to x63 in the order of their bytes.
fn names_in_order(rt: &impl Abort, alloc: Global, text: &mut Vec<u8>) {
    names_between(rt, alloc, text, 0, 2);
    names_between(rt, alloc, text, 10, 20);
    for first in 2..7u64 {
        names_between(rt, alloc, text, first, first + 1);
        names_between(rt, alloc, text, first * 10, (first * 10 + 10).min(64));
    }
    names_between(rt, alloc, text, 7, 10)
}

/// A script in which each of 64 callers sets a name of its own.
fn a_line_each(rt: &impl Abort, alloc: Global) -> Vec<u8> {
    let mut script = Vec::new(alloc);
    for k in 0..64u64 {
        let line = format!(in alloc; "{k}: x{k} = z {k}\n").expect(rt, "memory");
        script
            .extend_from_slice(line.as_bytes())
            .expect(rt, "memory");
    }
    script
}

#[test]
fn all_callers_at_once(rt: HostRuntime) {
    let script = a_line_each(&rt, rt.alloc());
    let mut text = Vec::new(rt.alloc());
    for k in 0..64u64 {
        replies(&rt, rt.alloc(), &mut text, k, 1, "");
    }
    names_in_order(&rt, rt.alloc(), &mut text);
    let report = b"history 64\naudit ok\n";
    text.extend_from_slice(report).expect(&rt, "memory");
    expect_answer(&rt, &["threads"], &script, &text, 0);
}

const SCRIPT: &[u8] = b"0: a = z 1 2\n# four lines\n1: b = b T\n2: c = z\n";

const REPORT: &[u8] = b"0 ok\n1 ok\n2 ok\na z 1 2\nb b T\nc z\nhistory 3\naudit ok\n";

/// Nothing is run, and nothing written.
#[test]
fn fails_to_read_at_each_call(rt: HostRuntime) {
    for step in [1, 5, 1000] {
        for call in 0..SCRIPT.len().div_ceil(step) {
            let reader = Pieces {
                bytes: SCRIPT,
                step,
                fails: Some(call as u64),
            };
            let taking = writer(rt.alloc(), 1000, 1000, Full::Fails);
            expect_ran(&rt, &run_on(&rt, &["threads"], reader, taking), b"", 4);
        }
    }
}

/// Asserts that the program, with a writer that takes so many bytes, writes so much of this text for a script, and fails.
fn expect_failure<R: Alloc<A = Global> + Threads + Wait + Abort + Execution<Shared = R> + Sync>(
    rt: &R,
    script: &[u8],
    text: &[u8],
    left: usize,
    full: Full,
) {
    let taking = writer(rt.alloc(), 3, left, full);
    let ran = run_on(rt, &["threads"], whole(script, 7), taking);
    assert!(rt; left <= text.len());
    expect_ran(rt, &ran, &text[..left], 4);
}

#[test]
fn fails_to_write_after_each_byte(rt: HostRuntime) {
    expect_answer(&rt, &["threads"], SCRIPT, REPORT, 0);
    for full in [Full::Fails, Full::TakesNone] {
        for left in 0..REPORT.len() {
            expect_failure(&rt, SCRIPT, REPORT, left, full);
        }
    }
}

#[test]
fn fails_to_write_a_bad_line(rt: HostRuntime) {
    let text = b"bad line 2\n";
    for left in 0..text.len() {
        expect_failure(&rt, b"0: a = z 1\n0: oh\n", text, left, Full::Fails);
    }
}

/// The arguments are judged before any input is read.
#[test]
fn usage_before_input(rt: HostRuntime) {
    let failing = Pieces {
        bytes: b"",
        step: 1,
        fails: Some(0),
    };
    let taking = writer(rt.alloc(), 1000, 1000, Full::Fails);
    let ran = run_on(&rt, &["threads", "04"], failing, taking);
    expect_ran(&rt, &ran, USAGE, 2);
}
