//! Bytes that no line may have, at each place of a line, and texts that the ends of blocks cut.

use crate::program::{expect_ran, run};
use scan_kernels::Execution;
use std::alloc::{Alloc, Global};
use std::process::Abort;
use std::sync::Wait;
use std::thread::Threads;

/// `line` with a byte before the place of this number.
fn with_byte(rt: &impl Abort, alloc: Global, line: &[u8], place: usize, byte: u8) -> Vec<u8> {
    let (before, behind) = line.split_at(place.min(line.len()));
    let mut odd = Vec::from_slice(alloc, before).expect(rt, "memory");
    odd.push(byte).expect(rt, "memory");
    odd.extend_from_slice(behind).expect(rt, "memory");
    odd
}

/// Asserts that both modes find a script bad at its first line.
fn expect_bad<R: Alloc<A = Global> + Threads + Wait + Abort + Execution<Shared = R> + Sync>(
    rt: &R,
    script: &[u8],
) {
    for mode in ["serial", "threads"] {
        expect_ran(rt, &run(rt, &[mode], script, 1000), b"bad line 1\n", 2);
    }
}

const LINE: &[u8] = b"0: ab = z 1\n";

/// Each byte outside 32 to 126 but a line feed, at each place of a line.
#[test]
fn odd_bytes_at_each_place(rt: HostRuntime) {
    for byte in 0..=u8::MAX {
        if byte == b'\n' || (32..=126).contains(&byte) {
            continue;
        }
        for place in 0..LINE.len() {
            expect_bad(&rt, &with_byte(&rt, rt.alloc(), LINE, place, byte));
        }
    }
}

/// Behind the sign of a comment each byte may stand.
#[test]
fn odd_bytes_in_comments(rt: HostRuntime) {
    for byte in 0..=u8::MAX {
        let script = with_byte(&rt, rt.alloc(), b"# ab\n# c\n", 3, byte);
        let ran = run(&rt, &["serial"], &script, 1000);
        if byte == b'\n' {
            expect_ran(&rt, &ran, b"bad line 2\n", 2);
        } else {
            expect_ran(&rt, &ran, b"", 0);
        }
    }
}

/// Lines that end in the manner of Windows.
#[test]
fn carriage_returns(rt: HostRuntime) {
    expect_bad(&rt, b"0: a = z 1\r\n0: get a\r\n");
    expect_bad(&rt, b"\r\n0: a = z 1\r\n");
    let ran = run(&rt, &["serial"], b"# a\r\n0: a = z 1\r\n", 1000);
    expect_ran(&rt, &ran, b"bad line 2\n", 2);
}

/// The bytes of a block of the reader, and of one of the writer.
const BLOCK: usize = 65_536;

/// A comment of this many bytes with its line feed.
fn comment(rt: &impl Abort, alloc: Global, bytes: usize) -> Vec<u8> {
    let mut line = Vec::from_slice(alloc, b"#").expect(rt, "memory");
    line.resize(bytes.saturating_sub(1), b'x')
        .expect(rt, "memory");
    line.push(b'\n').expect(rt, "memory");
    line
}

const LINES: &[u8] = b"0: abc = z -123 45\n0: get abc\n0: oh\n";

/// The end of a block of input falls behind each byte of three lines.
#[test]
fn blocks_end_in_lines(rt: HostRuntime) {
    for cut in 0..=LINES.len() {
        let mut script = comment(&rt, rt.alloc(), BLOCK.saturating_sub(cut));
        script.extend_from_slice(LINES).expect(&rt, "memory");
        let ran = run(&rt, &["serial"], &script, 1_000_000);
        expect_ran(&rt, &ran, b"0 ok\n0 z -123 45\nbad line 4\n", 2);
    }
}

/// `line`, so many times ` 1` behind it, and what ends it.
fn with_ones(rt: &impl Abort, alloc: Global, line: &[u8], ones: usize, end: &[u8]) -> Vec<u8> {
    let mut long = Vec::from_slice(alloc, line).expect(rt, "memory");
    for _ in 0..ones {
        long.extend_from_slice(b" 1").expect(rt, "memory");
    }
    long.extend_from_slice(end).expect(rt, "memory");
    long
}

/// So many times the same line, and others behind it.
fn behind_lines(rt: &impl Abort, alloc: Global, count: usize, line: &[u8], last: &[u8]) -> Vec<u8> {
    let mut lines = Vec::new(alloc);
    for _ in 0..count {
        lines.extend_from_slice(line).expect(rt, "memory");
    }
    lines.extend_from_slice(last).expect(rt, "memory");
    lines
}

/// The end of a block of output falls behind each byte of a reply and of a bad line: with so many replies of five bytes before
/// them, and one of this many ones.
fn expect_replies<R: Alloc<A = Global> + Threads + Wait + Abort + Execution<Shared = R> + Sync>(
    rt: &R,
    oks: usize,
    ones: usize,
) {
    let last = with_ones(
        rt,
        rt.alloc(),
        b"0: a = z",
        ones,
        b"\n0: get a\n0: get e\n0: oh\n",
    );
    let script = behind_lines(rt, rt.alloc(), oks, b"0: d = z\n", &last);
    let number = oks.saturating_add(4);
    let end = format!(in rt.alloc(); "\n0 fault 1\nbad line {number}\n").expect(rt, "memory");
    let last = with_ones(rt, rt.alloc(), b"0 ok\n0 z", ones, end.as_bytes());
    let text = behind_lines(rt, rt.alloc(), oks, b"0 ok\n", &last);
    expect_ran(rt, &run(rt, &["serial"], &script, 1_000_000), &text, 2);
}

#[test]
fn blocks_end_in_replies(rt: HostRuntime) {
    for oks in 0..5 {
        for few in 0..12 {
            expect_replies(&rt, oks, 32_750usize.saturating_add(few));
        }
    }
}
