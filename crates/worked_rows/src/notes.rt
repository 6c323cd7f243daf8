//! What is said of a run besides its text: why it stopped, and why a line that was typed is left out.

use crate::program::{whole, writer};
use crate::streams::{Full, Pieces, Short};
use scan_kernels::Execution;
use script_lines::{GoodLines, Lines, Progress, Sink, Source, note_fault};
use script_main::{ReadSource, RunFault, WriteSink, run_program_with_notes, run_serial};
use std::alloc::{Alloc, Global};
use std::process::Abort;

/// A script, the read of it that fails and how many bytes its text may have; the exit status, the text and the note.
struct Row {
    mode: &'static str,
    script: &'static [u8],
    fails: Option<u64>,
    left: usize,
    status: u8,
    text: &'static [u8],
    note: &'static [u8],
}

static ROWS: [Row; 8] = [
    Row {
        mode: "serial",
        script: b"0: a = z 1\n0: oh\n",
        fails: None,
        left: 1000,
        status: 2,
        text: b"0 ok\nbad line 2\n",
        note: b"cvl: line 2: ",
    },
    Row {
        mode: "threads",
        script: b"oh",
        fails: None,
        left: 1000,
        status: 2,
        text: b"bad line 1\n",
        note: b"cvl: line 1: ",
    },
    Row {
        mode: "threads",
        script: b"cvl 2\n7: {\n\n",
        fails: None,
        left: 1000,
        status: 2,
        text: b"bad line 4\n",
        note: b"cvl: line 4: the input ends in a block of caller 7: its } is missing\n",
    },
    Row {
        mode: "serial",
        script: b"0: a = z 1\n0: get",
        fails: Some(1),
        left: 1000,
        status: 4,
        text: b"0 ok\n",
        note: b"cvl: a read of standard input failed behind line 1\n",
    },
    Row {
        mode: "threads",
        script: b"",
        fails: Some(0),
        left: 1000,
        status: 4,
        text: b"",
        note: b"cvl: a read of standard input failed\n",
    },
    Row {
        mode: "serial",
        script: b"0: a = z 1\n",
        fails: None,
        left: 3,
        status: 4,
        text: b"0 o",
        note: b"cvl: a write of standard output failed\n",
    },
    Row {
        mode: "",
        script: b"",
        fails: None,
        left: 3,
        status: 4,
        text: b"usa",
        note: b"cvl: a write of standard output failed\n",
    },
    Row {
        mode: "serial",
        script: b"0: a = z 1\n",
        fails: None,
        left: 1000,
        status: 0,
        text: b"0 ok\n",
        note: b"",
    },
];

/// A run tells why it stopped, and ends alike where its note cannot be written.
#[test]
fn notes_why_a_run_stopped(rt: HostRuntime) {
    for row in &ROWS {
        let mut words = Vec::new(rt.alloc());
        let mode = row.mode.to_string(rt.alloc()).expect(&rt, "memory");
        words.push(mode).expect(&rt, "memory");
        for room in [1000, 6, 0] {
            let mut source = ReadSource::new(Pieces {
                bytes: row.script,
                step: 1000,
                fails: row.fails,
            });
            let mut text = writer(rt.alloc(), 1000, row.left, Full::Fails);
            let mut note = writer(rt.alloc(), 1000, room, Full::Fails);
            let mut sink = WriteSink::new(&mut text);
            let mut notes = WriteSink::new(&mut note);
            let status = run_program_with_notes(
                &rt,
                rt.alloc(),
                &words,
                &mut source,
                &mut sink,
                &mut notes,
            );
            assert!(rt; status == row.status);
            assert!(rt; text.taken.as_slice() == row.text);
            assert!(rt; note.taken.starts_with(row.note) || row.note.starts_with(&note.taken));
        }
    }
}

/// Asserts that a fault at lines of which none is gone to has this note.
fn expect_note(rt: &impl Abort, alloc: Global, fault: &RunFault, note: &[u8]) {
    let lines = Lines::new(alloc).expect(rt, "memory");
    let mut notes = writer(alloc, 1000, 1000, Full::Fails);
    let mut sink = WriteSink::new(&mut notes);
    note_fault(alloc, &mut sink, fault, &lines, &Progress::AtStart);
    assert!(rt; notes.taken.as_slice() == note);
}

#[test]
fn notes_faults(rt: HostRuntime) {
    let alloc = rt.alloc();
    let memory = RunFault::OutOfMemory;
    expect_note(&rt, alloc, &memory, b"cvl: out of memory\n");
    let stopped = RunFault::Stopped(3);
    expect_note(&rt, alloc, &stopped, b"cvl: worker 3 was stopped\n");
    let unfinished = b"cvl: the machine of threads could not be closed\n";
    expect_note(&rt, alloc, &RunFault::Unfinished, unfinished);
    let long = b"cvl: line 1: the line has more than 1048576 bytes\n";
    expect_note(&rt, alloc, &RunFault::BadLine(1), long);
}

/// What is typed, the text of the run over its good lines, and how its notes begin and how many they are.
static TYPED: [(&[u8], &[u8], &[u8], usize); 4] = [
    (b"0: a = z 1\n0: get a", b"0 ok\n0 z 1\n", b"", 0),
    (
        b"0: a = z 1\noh\n\n0: get a\n0: }\n",
        b"0 ok\n0 z 1\n",
        b"cvl: line 2: ",
        2,
    ),
    (
        b"oh\ncvl 2\n3: {\n3: a = z 1\n4: get a\n3: get a\n3: }\n",
        b"3 ok\n3 z 1\n",
        b"cvl: line 1: ",
        2,
    ),
    (
        b"0: {\ncvl 2\n3: {\noh",
        b"bad line 3\n",
        b"cvl: line 1: ",
        2,
    ),
];

/// Runs the good lines of a source, whose bad ones are answered. The text of the run goes behind `text`.
fn run_typed<
    R: Source + Drop,
    N: Sink + Drop,
    E: Alloc<A = Global> + Abort + Execution<Shared = E>,
>(rt: &E, source: R, answers: N, text: &mut Short) -> Result<(), RunFault>
    requires readable { R.can_read source }
    requires writable { N.can_write answers }
{
    let mut typed = GoodLines::new(rt.alloc(), source, answers).expect(rt, "memory");
    run_serial(rt, rt.alloc(), 4, &mut typed, &mut WriteSink::new(text))
}

/// A bad line that is typed is left out, and the run goes on.
#[test]
fn leaves_out_bad_lines(rt: HostRuntime) {
    for (script, text, notes, count) in &TYPED {
        for step in [1, 4, 1000] {
            let mut written = writer(rt.alloc(), 1000, 1000, Full::Fails);
            let mut note = writer(rt.alloc(), 1000, 1000, Full::Fails);
            let source = ReadSource::new(whole(script, step));
            let _ = run_typed(&rt, source, WriteSink::new(&mut note), &mut written);
            assert!(rt; written.taken.as_slice() == *text);
            assert!(rt; note.taken.starts_with(notes));
            let lines = note.taken.iter().filter(|byte| **byte == b'\n').count();
            assert!(rt; lines == *count);
        }
    }
}

/// A line that is typed whole is answered before more is read, and one that is cut short is not judged.
#[test]
fn answers_before_a_failed_read(rt: HostRuntime) {
    let mut text = writer(rt.alloc(), 1000, 1000, Full::Fails);
    let mut note = writer(rt.alloc(), 1000, 1000, Full::Fails);
    let source = ReadSource::new(Pieces {
        bytes: b"0: a = z 1\n0: g",
        step: 15,
        fails: Some(1),
    });
    let end = run_typed(&rt, source, WriteSink::new(&mut note), &mut text);
    assert!(rt; end == Err(RunFault::Read));
    assert!(rt; text.taken.as_slice() == b"0 ok\n".as_slice());
    assert!(rt; note.taken.is_empty());
}
