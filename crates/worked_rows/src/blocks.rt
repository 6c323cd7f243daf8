//! Blocks of scripts of edition 2: as many calls as there may be and one more, a script cut at each byte, and a read that fails.

use crate::program::{expect_answer, expect_ran, run, run_on, writer};
use crate::streams::{Full, Pieces};
use std::alloc::{Alloc, Global};
use std::process::Abort;

/// A script of a block of so many calls, and a line behind it.
fn block_of(rt: &impl Abort, alloc: Global, calls: usize) -> Vec<u8> {
    let mut script = Vec::new(alloc);
    script
        .extend_from_slice(b"cvl 2\n63: {\n")
        .expect(rt, "memory");
    for _ in 0..calls {
        script
            .extend_from_slice(b"63: a = z 1\n")
            .expect(rt, "memory");
    }
    script
        .extend_from_slice(b"63: }\n0: get a")
        .expect(rt, "memory");
    script
}

/// The text that a block of so many calls is answered with.
fn answers_to(rt: &impl Abort, alloc: Global, calls: usize) -> Vec<u8> {
    let mut text = Vec::new(alloc);
    for _ in 0..calls {
        text.extend_from_slice(b"63 ok\n").expect(rt, "memory");
    }
    text.extend_from_slice(b"0 z 1\n").expect(rt, "memory");
    text
}

#[test]
fn runs_blocks_of_one_call_and_of_the_most(rt: HostRuntime) {
    for calls in [1, 1024] {
        let script = block_of(&rt, rt.alloc(), calls);
        let text = answers_to(&rt, rt.alloc(), calls);
        expect_answer(&rt, &["serial"], &script, &text, 0);
    }
}

/// The block opens in line 2, so its 1,025th call is line 1,027.
#[test]
fn refuses_a_call_more_than_the_most(rt: HostRuntime) {
    let script = block_of(&rt, rt.alloc(), 1025);
    for mode in ["serial", "threads"] {
        expect_answer(&rt, &[mode], &script, b"bad line 1027\n", 2);
    }
}

const SCRIPT: &[u8] = b"cvl 2\n0: a = z 1\n0: {\n0: get a\n0: }\n";

/// What the script is answered with where it is cut behind so many bytes or more, up to the next row: text and status.
static CUTS: [(usize, &[u8], u8); 11] = [
    (0, b"", 0),
    (1, b"bad line 1\n", 2),
    (5, b"", 0),
    (7, b"bad line 2\n", 2),
    (14, b"0 ok\n", 0),
    (18, b"0 ok\nbad line 3\n", 2),
    (21, b"0 ok\nbad line 4\n", 2),
    (30, b"0 ok\nbad line 5\n", 2),
    (35, b"0 ok\n0 z 1\n", 0),
    (36, b"0 ok\n0 z 1\n", 0),
    (37, b"", 0),
];

/// The row of `CUTS` for a script that is cut behind so many bytes.
fn answer_at(cut: usize) -> (&'static [u8], u8) {
    let mut answer: (&'static [u8], u8) = (b"", 0);
    for row in &CUTS {
        if row.0 <= cut {
            answer = (row.1, row.2);
        }
    }
    answer
}

#[test]
fn is_cut_at_each_byte(rt: HostRuntime) {
    for cut in 0..SCRIPT.len() + 1 {
        let (text, status) = answer_at(cut);
        for step in [1, 5, 100] {
            expect_ran(
                &rt,
                &run(&rt, &["serial"], &SCRIPT[..cut], step),
                text,
                status,
            );
        }
    }
}

/// The text of the whole lines before a read that fails: a block that is open then is no bad line, and has none.
#[test]
fn fails_to_read_in_a_block(rt: HostRuntime) {
    for (call, text) in [(4, b"0 ok\n".as_slice()), (6, b"0 ok\n".as_slice())] {
        let reader = Pieces {
            bytes: SCRIPT,
            step: 5,
            fails: Some(call),
        };
        let taking = writer(rt.alloc(), 1000, usize::MAX, Full::Fails);
        expect_ran(&rt, &run_on(&rt, &["serial"], reader, taking), text, 4);
    }
}
