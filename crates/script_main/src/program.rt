//! The program, but for its streams and its arguments.

ghost use Rattle.std.specs.Prelude.{◌≡◌, ℕ, map, string_bytes, IfSome, MatchOption};
ghost use Rattle.std.specs.Fmt.{decimal};
ghost use Rattle.vector_memory.specs.States.{IsLawfulRoom};
ghost use Rattle.script_main.specs.declared.mode.Mode.{Mode};
ghost use Rattle.script_lines.specs.Scripts.{AtStart};
ghost use Rattle.script_lines.specs.Stages.{stage_of};
ghost use Rattle.script_lines.specs.Walks.{unwalked};
ghost use Rattle.script_lines.specs.Runs.{IsCounted};
ghost use Rattle.script_main.specs.Programs.{mode_word, AsksRoom, AsksRun, AsksNothing, RunsAs, HasRun, IsUsage, status_of};

use crate::mode::Mode;
use crate::no_notes::NoNotes;
use crate::shared::run_shared;
use scan_kernels::Execution;
use script_lines::{
    Lines, Progress, Run, RunFault, Sink, Source, note_fault, run_script, write_all, write_note,
};
use std::alloc::Global;
use std::mem;
use std::sync::Wait;
use std::thread::Threads;
use vector_memory::{ROOM_LIMIT, is_lawful_room};

/// What is written where the words ask for nothing that the program does.
const USAGE: &[u8] = b"usage: cvl serial|threads [room]\n";

/// The room that a word writes: a decimal number without needless zeros, 1 to 67,108,864.
fn room_of(word: &str) -> Option<u64>
    ensures { MatchOption result ((room : ℕ) → IsLawfulRoom room → word.now ≡ decimal room → ⊥)
        (λ room. IsLawfulRoom room × (word.now ≡ decimal room)) }
{
    let Ok(room) = word.parse::<u64>() else {
        return None;
    };
    let mut digits = itoa::Buffer::new();
    if digits.format(room) != word {
        return None;
    }
    if is_lawful_room(room) {
        Some(room)
    } else {
        None
    }
}

/// The mode that a word asks for.
fn mode_of(word: &str) -> Option<Mode>
    ensures { MatchOption result ((mode : Mode) → word.now ≡ mode_word mode → ⊥) (λ mode. word.now ≡ mode_word mode) }
{
    if word == "serial" {
        return Some(Mode::Serial);
    }
    if word == "threads" {
        return Some(Mode::Threads);
    }
    None
}

/// The room that the words behind the mode ask for.
fn asked_room(words: &[String]) -> Option<u64>
    ensures { MatchOption result ((room : ℕ) → AsksRoom (map string_bytes words.now) room → ⊥)
        (AsksRoom (map string_bytes words.now)) }
{
    let Some((room, more)) = words.split_first() else {
        return Some(ROOM_LIMIT);
    };
    if !more.is_empty() {
        return None;
    }
    room_of(room.as_str())
}

/// The mode and the room that the words ask for.
fn asked(words: &[String]) -> Option<(Mode, u64)>
    ensures { MatchOption result (AsksNothing (map string_bytes words.now))
        (λ asked. AsksRun asked.0 (map string_bytes words.now) asked.1) }
{
    let Some((mode, rest)) = words.split_first() else {
        return None;
    };
    let Some(mode) = mode_of(mode.as_str()) else {
        return None;
    };
    let Some(room) = asked_room(rest) else {
        return None;
    };
    Some((mode, room))
}

/// The exit status of a run.
fn status_of(ran: &Result<(), RunFault>) -> u8
    ensures { result ≡ status_of ran.now }
{
    match ran {
        Ok(()) => 0,
        Err(RunFault::BadLine(_)) => 2,
        Err(RunFault::OutOfMemory) => 3,
        Err(RunFault::Read) => 4,
        Err(RunFault::Write) => 4,
        Err(RunFault::Stopped(_)) => 5,
        Err(RunFault::Unfinished) => 5,
    }
}

/// Runs a script in this mode, by lines of which none is gone to. They and the progress stay where a fault stopped the run.
fn run_as<R: Source, W: Sink, T: Threads + Wait + Execution<Shared = T> + Sync>(
    rt: &T,
    alloc: Global,
    mode: Mode,
    room: u64,
    lines: &mut Lines,
    progress: &mut Progress,
    reader: &mut R,
    writer: &mut W,
) -> Result<(), RunFault>
    requires room { IsLawfulRoom room }
    requires start { stage_of progress.old ≡ AtStart }
    requires unwalked { lines.old.walk ≡ unwalked }
    requires readable { R.can_read reader.old }
    requires writable { W.can_write writer.old }
    ensures runs { IfSome (R.rest reader.old) (λ input. RunsAs mode result room input
        (R.rest reader.new) (W.written writer.old) (W.written writer.new)) }
    ensures counted { IsCounted result (R.failures reader.old) (R.failures reader.new)
        (W.failures writer.old) (W.failures writer.new) }
{
    match mode {
        Mode::Serial => {
            let Ok(mut run) = Run::new(alloc, room) else {
                return Err(RunFault::OutOfMemory);
            };
            let ran = run_script(rt, alloc, &mut run, lines, reader, writer);
            mem::swap(progress, &mut run.progress);
            // The program ends: the system takes the book back at once, and not entry by entry.
            mem::forget(run);
            ran
        }
        Mode::Threads => run_shared(rt, alloc, room, lines, progress, reader, writer),
    }
}

/// Runs a script in this mode, and notes why it stopped, if a fault stopped it.
fn run_noted<R: Source, W: Sink, N: Sink, T: Threads + Wait + Execution<Shared = T> + Sync>(
    rt: &T,
    alloc: Global,
    mode: Mode,
    room: u64,
    reader: &mut R,
    writer: &mut W,
    notes: &mut N,
) -> Result<(), RunFault>
    requires room { IsLawfulRoom room }
    requires readable { R.can_read reader.old }
    requires writable { W.can_write writer.old }
    requires notable { N.can_write notes.old }
    ensures runs { IfSome (R.rest reader.old) (λ input. RunsAs mode result room input
        (R.rest reader.new) (W.written writer.old) (W.written writer.new)) }
    ensures counted { IsCounted result (R.failures reader.old) (R.failures reader.new)
        (W.failures writer.old) (W.failures writer.new) }
{
    let Ok(mut lines) = Lines::new(alloc) else {
        let _ = write_note(notes, &[b"out of memory"]);
        return Err(RunFault::OutOfMemory);
    };
    let mut progress = Progress::AtStart;
    let ran = run_as(
        rt,
        alloc,
        mode,
        room,
        &mut lines,
        &mut progress,
        reader,
        writer,
    );
    if let Err(fault) = &ran {
        note_fault(alloc, notes, fault, &lines, &progress);
    }
    ran
}

/// Writes the usage line, and answers the exit status.
fn write_usage<W: Sink, N: Sink>(writer: &mut W, notes: &mut N) -> u8
    requires writable { W.can_write writer.old }
    requires notable { N.can_write notes.old }
    ensures { IsUsage result (W.written writer.old) (W.written writer.new) (W.failures writer.old) (W.failures writer.new) }
{
    if write_all(writer, USAGE).is_ok() {
        return 2;
    }
    let _ = write_note(notes, &[b"a write of standard output failed"]);
    4
}

/// Runs the program: `words` are its arguments, behind its name. The answer is the exit status.
///
/// The arguments are judged before any input is read. 0: all was run and written; 2: a bad line, or bad arguments, for
/// which the usage line is written; 3: want of memory; 4: a read or a write failed; 5: worker threads were not run to their
/// end.
///
/// It is a program's last act: what the book of a serial run holds is left to the system, and not given back.
pub fn run_program<R: Source, W: Sink, T: Threads + Wait + Execution<Shared = T> + Sync>(
    rt: &T,
    alloc: Global,
    words: &[String],
    reader: &mut R,
    writer: &mut W,
) -> u8
    requires readable { R.can_read reader.old }
    requires writable { W.can_write writer.old }
    ensures run { (mode : Mode) (room : ℕ) → AsksRun mode (map string_bytes words.now) room → HasRun mode result room
        (R.rest reader.old) (R.rest reader.new) (W.written writer.old) (W.written writer.new)
        (R.failures reader.old) (R.failures reader.new) (W.failures writer.old) (W.failures writer.new) }
    ensures usage { AsksNothing (map string_bytes words.now) → IsUsage result
        (W.written writer.old) (W.written writer.new) (W.failures writer.old) (W.failures writer.new) }
    ensures unread { AsksNothing (map string_bytes words.now) → R.rest reader.new ≡ R.rest reader.old }
{
    run_program_with_notes(rt, alloc, words, reader, writer, &mut NoNotes)
}

/// Runs the program as `run_program` does, and notes why it ended where a bad line, want of memory, a failed read or write, or
/// worker threads ended it: one line, which is dropped if it cannot be written.
pub fn run_program_with_notes<
    R: Source,
    W: Sink,
    N: Sink,
    T: Threads + Wait + Execution<Shared = T> + Sync,
>(rt: &T, alloc: Global, words: &[String], reader: &mut R, writer: &mut W, notes: &mut N) -> u8
    requires readable { R.can_read reader.old }
    requires writable { W.can_write writer.old }
    requires notable { N.can_write notes.old }
    ensures run { (mode : Mode) (room : ℕ) → AsksRun mode (map string_bytes words.now) room → HasRun mode result room
        (R.rest reader.old) (R.rest reader.new) (W.written writer.old) (W.written writer.new)
        (R.failures reader.old) (R.failures reader.new) (W.failures writer.old) (W.failures writer.new) }
    ensures usage { AsksNothing (map string_bytes words.now) → IsUsage result
        (W.written writer.old) (W.written writer.new) (W.failures writer.old) (W.failures writer.new) }
    ensures unread { AsksNothing (map string_bytes words.now) → R.rest reader.new ≡ R.rest reader.old }
{
    let Some((mode, room)) = asked(words) else {
        return write_usage(writer, notes);
    };
    let ran = run_noted(rt, alloc, mode, room, reader, writer, notes);
    status_of(&ran)
}
