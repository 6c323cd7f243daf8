//! Notes on why a run was stopped, a line each.

ghost use Rattle.std.specs.Prelude.{OnOk};

use crate::bad_line::{BadLine, append_why, bad_line};
use crate::fault::RunFault;
use crate::lines::Lines;
use crate::progress::Progress;
use crate::streams::{Failed, Sink, write_all};
use std::alloc::Global;

/// Writes a note: the name of the program, these pieces one behind the other, and a line feed.
pub fn write_note<N: Sink>(notes: &mut N, pieces: &[&[u8]]) -> Result<(), Failed>
    requires { N.can_write notes.old }
    ensures { OnOk result (N.can_write notes.new) }
{
    write_all(notes, b"cvl: ")?;
    for piece in pieces {
        write_all(notes, piece)?;
    }
    write_all(notes, b"\n")
}

/// Notes why the line of this number is bad, with a text behind it.
pub(crate) fn note_bad_line<N: Sink>(
    alloc: Global,
    notes: &mut N,
    number: u64,
    bad: BadLine<'_>,
    tail: &[u8],
) -> Result<(), Failed>
    requires { N.can_write notes.old }
    ensures { OnOk result (N.can_write notes.new) }
{
    let mut digits = itoa::Buffer::new();
    let mut why = Vec::new(alloc);
    if append_why(&mut why, bad).is_err() {
        why.clear();
    }
    write_note(
        notes,
        &[
            b"line ",
            digits.format(number).as_bytes(),
            b": ",
            &why,
            tail,
        ],
    )
}

/// Notes what happened behind the line of this number, or before the first line.
fn note_behind<N: Sink>(notes: &mut N, what: &[u8], number: u64) -> Result<(), Failed>
    requires { N.can_write notes.old }
{
    if number == 0 {
        return write_note(notes, &[what]);
    }
    let mut digits = itoa::Buffer::new();
    write_note(
        notes,
        &[what, b" behind line ", digits.format(number).as_bytes()],
    )
}

/// Behind how many lines memory was refused: 0 where the lines do not tell.
fn refused_behind(lines: &Lines) -> u64 {
    if lines.ended() {
        return 0;
    }
    lines.number().saturating_sub(1)
}

/// Notes why a run stopped at these lines of its input. A note that cannot be written is dropped.
pub fn note_fault<N: Sink>(
    alloc: Global,
    notes: &mut N,
    fault: &RunFault,
    lines: &Lines,
    progress: &Progress,
)
    requires { N.can_write notes.old }
{
    let mut digits = itoa::Buffer::new();
    let _ = match fault {
        RunFault::BadLine(number) => {
            note_bad_line(
                alloc,
                notes,
                *number,
                bad_line(*number, lines, progress),
                b"",
            )
        }
        RunFault::OutOfMemory => note_behind(notes, b"out of memory", refused_behind(lines)),
        RunFault::Read => { note_behind(notes, b"a read of standard input failed", lines.number()) }
        RunFault::Write => write_note(notes, &[b"a write of standard output failed"]),
        RunFault::Stopped(worker) => write_note(
            notes,
            &[
                b"worker ",
                digits.format(*worker).as_bytes(),
                b" was stopped",
            ],
        ),
        RunFault::Unfinished => {
            write_note(notes, &[b"the machine of threads could not be closed"])
        }
    };
}
