//! A reader that fails at each call, and a writer that fails after each byte, on a script of five lines.

use crate::program::{expect_ran, run, run_on, whole, writer};
use crate::streams::{Full, Interrupted, Pieces};
use script_main::{ReadSource, WriteSink, run_serial};
use std::alloc::Global;
use std::process::Abort;

const SCRIPT: &[u8] = b"0: a = z 1 2\n# five lines\n1: a = add_wuz a a\n2: get a\n3: get b\n";

static REPLIES: [&[u8]; 5] = [b"0 ok\n", b"", b"1 ok\n", b"2 z 2 4\n", b"3 fault 1\n"];

/// The replies to the lines of the script that these first bytes of it end.
fn text_of_lines(rt: &impl Abort, alloc: Global, read: usize) -> Vec<u8> {
    let mut text = Vec::new(alloc);
    let ends = SCRIPT
        .iter()
        .take(read)
        .filter(|byte| **byte == b'\n')
        .count();
    for reply in REPLIES.iter().take(ends) {
        text.extend_from_slice(reply).expect(rt, "memory");
    }
    text
}

#[test]
fn fails_to_read_at_each_call(rt: HostRuntime) {
    for step in [1, 5, 1000] {
        for call in 0..SCRIPT.len().div_ceil(step) {
            let reader = Pieces {
                bytes: SCRIPT,
                step,
                fails: Some(call as u64),
            };
            let taking = writer(rt.alloc(), 1000, 1000, Full::Fails);
            let ran = run_on(&rt, &["serial"], reader, taking);
            let read = SCRIPT.len().min(call.saturating_mul(step));
            expect_ran(&rt, &ran, &text_of_lines(&rt, rt.alloc(), read), 4);
        }
    }
}

#[test]
fn fails_to_write_after_each_byte(rt: HostRuntime) {
    let text = text_of_lines(&rt, rt.alloc(), SCRIPT.len());
    expect_ran(&rt, &run(&rt, &["serial"], SCRIPT, 1000), &text, 0);
    for full in [Full::Fails, Full::TakesNone] {
        for left in 0..text.len() {
            let taking = writer(rt.alloc(), 1, left, full);
            let ran = run_on(&rt, &["serial"], whole(SCRIPT, 7), taking);
            expect_ran(&rt, &ran, &text[..left], 4);
        }
    }
}

/// A bad line is written behind the replies before it, and that write may fail too.
#[test]
fn fails_to_write_a_bad_line(rt: HostRuntime) {
    let script = b"0: a = z 1\n0: oh\n";
    let text = b"0 ok\nbad line 2\n";
    for left in 0..text.len() {
        let taking = writer(rt.alloc(), 3, left, Full::Fails);
        let ran = run_on(&rt, &["serial"], whole(script, 1000), taking);
        expect_ran(&rt, &ran, &text[..left], 4);
    }
}

/// A bad line that was read with its line feed wins over a later failed read.
#[test]
fn bad_line_before_a_failed_read(rt: HostRuntime) {
    let reader = Pieces {
        bytes: b"0: oh\n0: a = z 1",
        step: 6,
        fails: Some(1),
    };
    let taking = writer(rt.alloc(), 1000, 1000, Full::Fails);
    let ran = run_on(&rt, &["serial"], reader, taking);
    expect_ran(&rt, &ran, b"bad line 1\n", 2);
}

/// A read or a write that a signal interrupts is made again, and nothing is lost.
#[test]
fn goes_on_behind_signals(rt: HostRuntime) {
    let mut source = ReadSource::new(Interrupted {
        stream: whole(SCRIPT, 7),
        passes: false,
    });
    let mut short = writer(rt.alloc(), 3, 1000, Full::Fails);
    let mut sink = WriteSink::new(Interrupted {
        stream: &mut short,
        passes: false,
    });
    assert!(rt; run_serial(&rt, rt.alloc(), 100, &mut source, &mut sink) == Ok(()));
    assert!(rt; short.taken == text_of_lines(&rt, rt.alloc(), SCRIPT.len()));
}
