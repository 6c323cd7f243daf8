//! Lines with bytes that no table can hold, and texts longer than one block.

use crate::program::{expect_answer, expect_ran, run};
use std::alloc::Global;
use std::process::Abort;

/// Lines that are none of the grammar.
static BAD: [&[u8]; 5] = [
    b"0: get a\t",
    b"0: get a\r",
    b"0: get a\xc8",
    b"\xc8",
    b"\t",
];

#[test]
fn bad_lines(rt: HostRuntime) {
    for line in &BAD {
        expect_answer(&rt, &["serial"], line, b"bad line 1\n", 2);
    }
}

/// Comments, which are answered with nothing.
static GOOD: [&[u8]; 2] = [b"#\xc8", b"# 64: \xc8\t\r"];

#[test]
fn good_lines(rt: HostRuntime) {
    for line in &GOOD {
        expect_answer(&rt, &["serial"], line, b"", 0);
    }
}

/// `first`, and this many bytes behind it.
fn with_tail(rt: &impl Abort, alloc: Global, first: &[u8], byte: u8, count: usize) -> Vec<u8> {
    let mut line = Vec::from_slice(alloc, first).expect(rt, "memory");
    for _ in 0..count {
        line.push(byte).expect(rt, "memory");
    }
    line
}

#[test]
fn lines_of_the_greatest_length(rt: HostRuntime) {
    for (first, byte) in [(b"#", b'x'), (b" ", b' ')] {
        let mut line = with_tail(&rt, rt.alloc(), first, byte, 1_048_575);
        for step in [1_000_000, 65_536] {
            expect_ran(&rt, &run(&rt, &["serial"], &line, step), b"", 0);
        }
        line.push(byte).expect(&rt, "memory");
        for step in [1_000_000, 65_536] {
            expect_ran(&rt, &run(&rt, &["serial"], &line, step), b"bad line 1\n", 2);
        }
    }
}

/// `first`, so many times ten bytes behind it, and a line feed.
fn with_items(rt: &impl Abort, alloc: Global, first: &[u8], count: usize) -> Vec<u8> {
    let mut line = Vec::from_slice(alloc, first).expect(rt, "memory");
    for _ in 0..count {
        line.extend_from_slice(b" -12345678").expect(rt, "memory");
    }
    line.push(b'\n').expect(rt, "memory");
    line
}

/// The replies to one block of lines are longer than a block.
#[test]
fn long_replies(rt: HostRuntime) {
    let mut script = with_items(&rt, rt.alloc(), b"0: a = z ", 20_000);
    let value = with_items(&rt, rt.alloc(), b"0 z", 20_000);
    let mut text = Vec::from_slice(rt.alloc(), b"0 ok\n").expect(&rt, "memory");
    for _ in 0..10 {
        script
            .extend_from_slice(b"0: get a\n")
            .expect(&rt, "memory");
        text.extend_from_slice(&value).expect(&rt, "memory");
    }
    for step in [1_000_000, 1000] {
        expect_ran(&rt, &run(&rt, &["serial"], &script, step), &text, 0);
    }
}
