//! Scripts that are read for their callers, and the reports of settled runs.

use crate::program::{whole, writer};
use crate::streams::{Full, Pieces, Short};
use call_history::{BLOCK_LIMIT, Book, CALLER_LIMIT, Job};
use cvl_text::Reply;
use scan_kernels::{Meter, Sequential};
use script_main::{ReadSource, RunFault, Script, Settled, WriteSink, read_script, write_report};
use std::alloc::{Alloc, Global};
use std::process::Abort;

/// A script, or why it was not read.
fn script_of(alloc: Global, reader: Pieces<'_>) -> Result<Script, RunFault> {
    let mut source = ReadSource::new(reader);
    read_script(alloc, &mut source)
}

/// Runs the jobs of the callers on a book of this room, caller after caller.
fn settled(rt: &impl Abort, alloc: Global, room: u64, script: Script) -> Settled {
    assert!(rt; 1 <= room && room <= 1000 && script.workers.len() <= CALLER_LIMIT);
    let mut book = Book::with_edition(alloc, room, script.edition).expect(rt, "memory");
    let mut replies = Vec::new(alloc);
    for jobs in script.workers {
        let caller = replies.len();
        assert!(rt; caller < CALLER_LIMIT);
        let own = run_jobs(rt, alloc, &mut book, caller as u64, jobs);
        replies.push(own).expect(rt, "memory");
    }
    Settled { replies, book }
}

/// The replies to the jobs of a caller.
fn run_jobs(
    rt: &impl Abort,
    alloc: Global,
    book: &mut Book,
    caller: u64,
    jobs: Vec<Job>,
) -> Vec<Reply> {
    assert!(rt; caller < CALLER_LIMIT as u64);
    let mut replies = Vec::new(alloc);
    for job in jobs {
        run_job(rt, alloc, book, caller, job, &mut replies);
    }
    replies
}

/// Runs a job, and puts the replies to it behind the others.
fn run_job(
    rt: &impl Abort,
    alloc: Global,
    book: &mut Book,
    caller: u64,
    job: Job,
    replies: &mut Vec<Reply>,
) {
    assert!(rt; caller < CALLER_LIMIT as u64);
    match job {
        Job::One(call) => {
            let Ok((_, reply)) = book.run(&Sequential, alloc, caller, call) else {
                panic!(rt; "memory");
            };
            replies.push(reply).expect(rt, "memory");
        }
        Job::Many(calls) => {
            assert!(rt; 1 <= calls.len() && calls.len() <= BLOCK_LIMIT);
            let ran = book.run_block(&Sequential, alloc, &mut Meter::new(), caller, calls);
            let Ok((_, mut own)) = ran else {
                panic!(rt; "memory");
            };
            replies.append(&mut own).expect(rt, "memory");
        }
    }
}

/// Asserts that the report of a settled run ends so, and that the writer took this text of it.
fn expect_written(
    rt: &impl Abort,
    alloc: Global,
    settled: &Settled,
    mut writer: Short,
    text: &[u8],
    end: &Result<(), RunFault>,
) {
    let mut sink = WriteSink::new(&mut writer);
    let written = write_report(&Sequential, alloc, settled, &mut sink);
    assert!(rt; written == *end);
    assert!(rt; writer.taken.as_slice() == text);
}

/// Runs the jobs of a script, however it is cut by reads, caller after caller.
fn settled_script(rt: &impl Abort, alloc: Global, script: &[u8], step: usize) -> Settled {
    let script = script_of(alloc, whole(script, step)).expect(rt, "no script");
    settled(rt, alloc, 1000, script)
}

/// Asserts that a script that is read and then run caller after caller is reported by this text, however it is cut.
fn expect_report(rt: &impl Abort, alloc: Global, script: &[u8], text: &[u8]) {
    for step in [1, 3, 100_000] {
        let run = settled_script(rt, alloc, script, step);
        let taking = writer(alloc, step, usize::MAX, Full::Fails);
        expect_written(rt, alloc, &run, taking, text, &Ok(()));
    }
}

/// Asserts that a script, however it is cut by reads, is no script for this reason.
fn expect_stop(rt: &impl Abort, alloc: Global, script: &[u8], fault: &RunFault) {
    for step in [1, 2, 7, 100_000] {
        let read = script_of(alloc, whole(script, step));
        assert!(rt; read.err().as_ref() == Some(fault));
    }
}

#[test]
fn reports_a_run_without_calls(rt: HostRuntime) {
    let text = b"history 0\naudit ok\n";
    expect_report(&rt, rt.alloc(), b"", text);
    expect_report(&rt, rt.alloc(), b"\n# nothing\n   \n", text);
}

#[test]
fn reads_callers_in_mixed_order(rt: HostRuntime) {
    let script = b"3: c = z 3\n0: a = z 1\n# note\n\n3: get c\n1: get a\n0: get a";
    let text = b"0 ok\n0 z 1\n1 z 1\n3 ok\n3 z 3\na z 1\nc z 3\nhistory 5\naudit ok\n";
    expect_report(&rt, rt.alloc(), script, text);
}

#[test]
fn gives_a_list_to_each_caller(rt: HostRuntime) {
    let script = b"2: get a\n5: get a\n2: get b\n";
    let script = script_of(rt.alloc(), whole(script, 4)).expect(&rt, "no script");
    let mut counts = Vec::new(rt.alloc());
    for jobs in &script.workers {
        counts.push(jobs.len()).expect(&rt, "memory");
    }
    assert!(rt; counts.as_slice() == [0, 0, 2, 0, 0, 1].as_slice());
    let script = script_of(rt.alloc(), whole(b"# none\n\n", 4));
    assert!(rt; script.expect(&rt, "no script").workers.is_empty());
}

#[test]
fn reports_names_in_the_order_of_their_bytes(rt: HostRuntime) {
    let script =
        b"0: b = z\n0: ab = b T F\n0: a = z 2 0 3\n0: a_ = mke_fov a\n0: a1 = b\n0: abc = z -1\n0: b = z\n";
    let text =
        b"0 ok\n0 ok\n0 ok\n0 ok\n0 ok\n0 ok\n0 ok\na z 2 0 3\na1 b\na_ s 2 0 3\nab b T F\nabc z -1\nb z\nhistory 7\naudit ok\n";
    expect_report(&rt, rt.alloc(), script, text);
}

#[test]
fn reads_no_script_with_a_bad_line(rt: HostRuntime) {
    let alloc = rt.alloc();
    let (first, third) = (RunFault::BadLine(1), RunFault::BadLine(3));
    let script = b"0: a = z 1\n# note\n0: a = z 01\n0: get a\n";
    expect_stop(&rt, alloc, script, &third);
    expect_stop(&rt, alloc, b"0: a = z 1\n\n0: get", &third);
    expect_stop(&rt, alloc, b"64: get a\n0: oh", &first);
}

const SCRIPT: &[u8] = b"0: a = z 1 2\n# four lines\n1: a = add_wuz a a\n2: get a\n";

#[test]
fn fails_to_read_a_script_at_each_call(rt: HostRuntime) {
    for step in [1, 5, 1000] {
        for call in 0..SCRIPT.len().div_ceil(step) {
            let reader = Pieces {
                bytes: SCRIPT,
                step,
                fails: Some(call as u64),
            };
            let read = script_of(rt.alloc(), reader);
            assert!(rt; read.err() == Some(RunFault::Read));
        }
    }
}

/// A bad line that was read with its line feed wins over a later failed read, and else the failed read wins.
#[test]
fn reads_a_bad_line_before_a_failed_read(rt: HostRuntime) {
    for (step, fault) in [(6, RunFault::BadLine(1)), (5, RunFault::Read)] {
        let reader = Pieces {
            bytes: b"0: oh\n0: a = z 1",
            step,
            fails: Some(1),
        };
        let read = script_of(rt.alloc(), reader);
        assert!(rt; read.err() == Some(fault));
    }
}

const REPORT: &[u8] = b"0 ok\n1 ok\n2 z 2 4\na z 2 4\nhistory 3\naudit ok\n";

#[test]
fn fails_to_report_after_each_byte(rt: HostRuntime) {
    let alloc = rt.alloc();
    let run = settled_script(&rt, alloc, SCRIPT, 7);
    let taking = writer(alloc, 1000, usize::MAX, Full::Fails);
    expect_written(&rt, alloc, &run, taking, REPORT, &Ok(()));
    for full in [Full::Fails, Full::TakesNone] {
        for left in 0..REPORT.len() {
            let (part, taking) = (&REPORT[..left], writer(alloc, 3, left, full));
            expect_written(&rt, alloc, &run, taking, part, &Err(RunFault::Write));
        }
    }
}
