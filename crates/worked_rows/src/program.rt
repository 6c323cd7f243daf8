//! The program over memory, and its arguments.

use crate::streams::{Full, Pieces, Short};
use scan_kernels::Execution;
use script_main::{ReadSource, RunFault, WriteSink, run_program, run_serial};
use std::alloc::{Alloc, Global};
use std::process::Abort;
use std::sync::Wait;
use std::thread::Threads;

/// What the program wrote, and its exit status.
#[derive(Drop)]
pub struct Ran {
    pub text: Vec<u8>,
    pub status: u8,
}

/// Asserts that the program wrote this text and ended with this status.
pub fn expect_ran(rt: &impl Abort, ran: &Ran, text: &[u8], status: u8) {
    assert!(rt; ran.text.as_slice() == text);
    assert!(rt; ran.status == status);
}

/// Runs the program with these arguments on a reader, with a writer that takes a number of bytes.
pub fn run_on<R: Alloc<A = Global> + Threads + Wait + Abort + Execution<Shared = R> + Sync>(
    rt: &R,
    arguments: &[&str],
    reader: Pieces<'_>,
    mut writer: Short,
) -> Ran {
    let mut words = Vec::new(rt.alloc());
    for argument in arguments {
        let word = argument.to_string(rt.alloc()).expect(rt, "memory");
        words.push(word).expect(rt, "memory");
    }
    let mut source = ReadSource::new(reader);
    let mut sink = WriteSink::new(&mut writer);
    let status = run_program(rt, rt.alloc(), &words, &mut source, &mut sink);
    Ran {
        text: writer.taken,
        status,
    }
}

/// A writer that takes this many bytes, some at a time, and then fails.
pub fn writer(alloc: Global, step: usize, left: usize, full: Full) -> Short {
    Short {
        taken: Vec::new(alloc),
        step,
        left,
        full,
    }
}

/// A reader of a script that does not fail.
pub fn whole(bytes: &[u8], step: usize) -> Pieces<'_> {
    Pieces {
        bytes,
        step,
        fails: None,
    }
}

/// Runs the program on a script, with nothing that fails.
pub fn run<R: Alloc<A = Global> + Threads + Wait + Abort + Execution<Shared = R> + Sync>(
    rt: &R,
    arguments: &[&str],
    script: &[u8],
    step: usize,
) -> Ran {
    let taking = writer(rt.alloc(), 1000, usize::MAX, Full::Fails);
    run_on(rt, arguments, whole(script, step), taking)
}

/// Asserts that the program answers a script with this text and this status, however the script is cut by reads.
pub fn expect_answer<R: Alloc<A = Global> + Threads + Wait + Abort + Execution<Shared = R> + Sync>(
    rt: &R,
    arguments: &[&str],
    script: &[u8],
    text: &[u8],
    status: u8,
) {
    for step in [1, 2, 7, 100_000] {
        expect_ran(rt, &run(rt, arguments, script, step), text, status);
    }
}

pub const USAGE: &[u8] = b"usage: cvl serial|threads [room]\n";

/// Arguments that ask for nothing that the program does, and that no table can hold, which parts them by spaces.
static WRONG: [&[&str]; 3] = [&[], &["serial "], &["serial", "4 "]];

#[test]
fn usage_for_other_arguments(rt: HostRuntime) {
    for arguments in &WRONG {
        expect_answer(&rt, arguments, b"0: a = z 1\n", USAGE, 2);
    }
}

/// Asserts that `run_serial` tells so of a run.
fn expect_end<R: Alloc<A = Global> + Abort + Execution<Shared = R>>(
    rt: &R,
    reader: Pieces<'_>,
    left: usize,
    end: Result<(), RunFault>,
) {
    let mut source = ReadSource::new(reader);
    let mut sink = WriteSink::new(writer(rt.alloc(), 1000, left, Full::Fails));
    assert!(rt; run_serial(rt, rt.alloc(), 4, &mut source, &mut sink) == end);
}

/// `run_serial` tells how a run ended.
#[test]
fn tells_how_a_run_ended(rt: HostRuntime) {
    let good = b"0: a = z 1\n";
    let failing = Pieces {
        bytes: good,
        step: 1000,
        fails: Some(0),
    };
    expect_end(&rt, whole(good, 1000), 1000, Ok(()));
    let bad = RunFault::BadLine(3);
    expect_end(&rt, whole(b"0: a = z 1\n\noh\n", 1000), 1000, Err(bad));
    expect_end(&rt, failing, 1000, Err(RunFault::Read));
    expect_end(&rt, whole(good, 1000), 3, Err(RunFault::Write));
    expect_end(&rt, whole(b"oh", 1000), 3, Err(RunFault::Write));
}

/// The arguments are judged before any input is read, and the usage line may find no writer.
#[test]
fn usage_without_reader_or_writer(rt: HostRuntime) {
    let failing = Pieces {
        bytes: b"",
        step: 1,
        fails: Some(0),
    };
    let ran = run_on(
        &rt,
        &[],
        failing,
        writer(rt.alloc(), 1000, 1000, Full::Fails),
    );
    expect_ran(&rt, &ran, USAGE, 2);
    for left in 0..USAGE.len() {
        let ran = run_on(
            &rt,
            &[],
            whole(b"", 1),
            writer(rt.alloc(), 1, left, Full::Fails),
        );
        expect_ran(&rt, &ran, &USAGE[..left], 4);
    }
}
