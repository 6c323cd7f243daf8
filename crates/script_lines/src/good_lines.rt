//! The good lines of what is typed.

ghost use Rattle.std.specs.Prelude.{◌≡◌, ◌<◌, ◌≤◌, ◌^◌, ◌++◌, ◌⊎◌, Ok, Some, None, true, false, length, take, IfOk, OnOk, IfSome, IsTrue};
ghost use Rattle.script_lines.specs.Scripts.{IsOneLine, Bad, line_of, is_good, stage_after_line};
ghost use Rattle.script_lines.specs.Stages.{stage_of};
ghost use Rattle.script_lines.specs.Streams.{failure_limit};
ghost use Rattle.script_lines.specs.Walks.{GoesOn, IsCountable};
ghost use Rattle.script_lines.specs.Handed.{to_give, IsJudged, IsFound};

use crate::bad_line::{BadLine, current_line};
use crate::fault::InputFault;
use crate::judge::judge;
use crate::line::LineFault;
use crate::lines::Lines;
use crate::notes::note_bad_line;
use crate::progress::Progress;
use crate::streams::{Failed, Sink, Source};
use segment_desc::OutOfMemory;
use std::alloc::Global;

/// What stands behind the reason of a bad line that is left out.
const LEFT_OUT: &[u8] = b" (the line is left out)";

/// Gives the good lines of what a source gives, each as soon as it is read whole. A bad one is left out, and noted.
///
/// Behind a note that cannot be written there are no more.
#[derive(Drop)]
pub struct GoodLines<R, N> {
    alloc: Global,
    reader: R,
    notes: Option<N>,
    lines: Lines,
    /// Where the script of the lines that were given stands.
    progress: Progress,
    /// How many bytes were given of the line, if it is not given whole.
    given: Option<usize>,
    /// Whether there are no more lines.
    ended: bool,
    left: u64,
    failures: u64,
    ghost limited: { left < 2 ^ 63 },
}

/// Notes why a line is bad, with a text behind it, if notes can still be written.
fn note<N: Sink + Drop>(
    alloc: Global,
    notes: &mut Option<N>,
    number: u64,
    bad: BadLine<'_>,
    tail: &[u8],
)
    requires { IfSome notes.old N.can_write }
    ensures { IfSome notes.new N.can_write }
{
    let Some(mut sink) = notes.take() else {
        return;
    };
    if note_bad_line(alloc, &mut sink, number, bad, tail).is_ok() {
        *notes = Some(sink);
    }
}

/// Whether the line that was come to is good. A bad one is noted.
fn judge_line<N: Sink + Drop>(
    alloc: Global,
    progress: &mut Progress,
    lines: &Lines,
    notes: &mut Option<N>,
) -> Result<bool, Failed>
    requires { IfSome notes.old N.can_write }
    ensures good { result ≡ Ok true → IsTrue (is_good (line_of (stage_of progress.old) lines.now.line)) }
    ensures bad { result ≡ Ok false → line_of (stage_of progress.old) lines.now.line ≡ Bad }
    ensures stage { result ≡ Ok true → stage_of progress.new
        ≡ stage_after_line (stage_of progress.old) (line_of (stage_of progress.old) lines.now.line) }
    ensures kept { result ≡ Ok false → stage_of progress.new ≡ stage_of progress.old }
    ensures writable { IfSome notes.new N.can_write }
{
    match judge(alloc, progress, lines.current()) {
        Ok(()) => Ok(true),
        Err(LineFault::Bad) => {
            let bad = current_line(lines, progress);
            note(alloc, notes, lines.number(), bad, LEFT_OUT);
            Ok(false)
        }
        Err(LineFault::OutOfMemory) => Err(Failed),
    }
}

/// Reads more, where no whole line is left of what was read: false at the end.
fn read_typed<R: Source, N: Sink + Drop>(
    alloc: Global,
    lines: &mut Lines,
    reader: &mut R,
    notes: &mut Option<N>,
) -> Result<bool, Failed>
    requires countable { IsCountable lines.old.walk (R.limit reader.old) }
    requires one_line { IsOneLine lines.old.walk.unread }
    requires readable { R.can_read reader.old }
    requires writable { IfSome notes.old N.can_write }
    ensures goes_on { result ≡ Ok true → GoesOn lines.old.walk (R.limit reader.old) lines.new.walk (R.limit reader.new) }
    ensures number { lines.new.walk.number ≡ lines.old.walk.number }
    ensures readable { OnOk result (R.can_read reader.new) }
    ensures writable { IfSome notes.new N.can_write }
{
    match lines.fill(reader) {
        Ok(more) => Ok(more),
        Err(InputFault::BadLine(number)) => {
            note(alloc, notes, number, BadLine::TooLong, b"");
            Err(Failed)
        }
        Err(_) => Err(Failed),
    }
}

/// Gives what is not given of a line and the line feed behind it, as much as there is room for.
fn give(line: &[u8], given: &mut Option<usize>, buffer: &mut [u8]) -> usize
    requires { IfSome given.old (λ n. n ≤ length line.now) }
    ensures count { result ≤ length buffer.old }
    ensures len { length buffer.new ≡ length buffer.old }
    ensures gives { to_give given.old line.now ≡ take result buffer.new ++ to_give given.new line.now }
    ensures within { IfSome given.new (λ n. n ≤ length line.now) }
{
    let Some(start) = *given else {
        return 0;
    };
    let rest = &line[start..];
    let count = rest.len().min(buffer.len());
    buffer[..count].copy_from_slice(&rest[..count]);
    if count == buffer.len() {
        *given = Some(start + count);
        return count;
    }
    buffer[count] = b'\n';
    *given = None;
    count + 1
}

impl<R: Source + Drop, N: Sink + Drop> GoodLines<R, N> {
    /// The good lines of a source of which nothing is read.
    pub fn new(alloc: Global, reader: R, notes: N) -> Result<Self, OutOfMemory>
        requires readable { R.can_read reader }
        requires writable { N.can_write notes }
        ensures ready { IfOk result ⟦<GoodLines<R, N> as Source>⟧.can_read }
    {
        Ok(GoodLines {
            alloc,
            reader,
            notes: Some(notes),
            lines: Lines::new(alloc)?,
            progress: Progress::AtStart,
            given: None,
            ended: false,
            left: i64::MAX as u64,
            failures: 0,
        })
    }

    /// Goes to the next line, which is to be given if it is good, or reads more where no whole line is left: false at the end.
    fn seek_once(&mut self) -> Result<bool, Failed>
        requires countable { IsCountable self.old.lines.walk (R.limit self.old.reader) }
        requires readable { R.can_read self.old.reader }
        requires writable { IfSome self.old.notes N.can_write }
        ensures goes_on { result ≡ Ok true → GoesOn self.old.lines.walk (R.limit self.old.reader) self.new.lines.walk (R.limit self.new.reader) }
        ensures readable { OnOk result (R.can_read self.new.reader) }
        ensures writable { IfSome self.new.notes N.can_write }
        ensures counts { (self.new.left ≡ self.old.left) × (self.new.failures ≡ self.old.failures) }
        ensures ended { self.new.ended ≡ self.old.ended }
        ensures judged { result ≡ Ok true → self.old.given ≡ None → IsJudged self.new.given (stage_of self.old.progress) (stage_of self.new.progress)
            self.old.lines.walk.number self.new.lines.walk.number self.new.lines.line }
        ensures stays { OnOk result (self.new.given ≡ self.old.given ⊎ self.new.given ≡ Some 0) }
    {
        match self.lines.advance() {
            Ok(true) => {
                if judge_line(self.alloc, &mut self.progress, &self.lines, &mut self.notes)? {
                    self.given = Some(0);
                }
                Ok(true)
            }
            Ok(false) => read_typed(
                self.alloc,
                &mut self.lines,
                &mut self.reader,
                &mut self.notes,
            ),
            Err(OutOfMemory) => Err(Failed),
        }
    }

    /// Goes to the next good line, if none is being given: false at the end.
    fn seek(&mut self) -> Result<bool, Failed>
        requires within { IfSome self.old.given (λ n. n ≤ length self.old.lines.line) }
        requires countable { self.old.ended ≡ false → IsCountable self.old.lines.walk (R.limit self.old.reader) }
        requires readable { R.can_read self.old.reader }
        requires writable { IfSome self.old.notes N.can_write }
        ensures countable { OnOk result (self.new.ended ≡ false → IsCountable self.new.lines.walk (R.limit self.new.reader)) }
        ensures readable { OnOk result (R.can_read self.new.reader) }
        ensures writable { IfSome self.new.notes N.can_write }
        ensures counts { (self.new.left ≡ self.old.left) × (self.new.failures ≡ self.old.failures) }
        ensures within { OnOk result (IfSome self.new.given (λ n. n ≤ length self.new.lines.line)) }
        ensures found { result ≡ Ok true → self.old.given ≡ None → IsFound self.new.given (stage_of self.old.progress) (stage_of self.new.progress) self.new.lines.line }
    {
        while self.given.is_none() {
            if self.ended {
                return Ok(false);
            }
            if !self.seek_once()? {
                self.ended = true;
                return Ok(false);
            }
        }
        Ok(true)
    }
}

impl<R: Source + Drop, N: Sink + Drop> Source for GoodLines<R, N> {
    ghost rest = { λ _. None };

    ghost limit = { λ s. s.left };

    ghost failures = { λ s. s.failures };

    ghost can_read = { λ s. (s.failures < failure_limit) × R.can_read s.reader × IfSome s.notes N.can_write
        × IfSome s.given (λ n. n ≤ length s.lines.line) × (s.ended ≡ false → IsCountable s.lines.walk (R.limit s.reader)) };

    ghost limited = { λ s. s.limited };

    fn read(&mut self, buffer: &mut [u8]) -> Result<usize, Failed> {
        if self.left < buffer.len() as u64 {
            self.failures += 1;
            return Err(Failed);
        }
        match self.seek() {
            Ok(true) => {
                let count = give(self.lines.current(), &mut self.given, buffer);
                self.left -= count as u64;
                Ok(count)
            }
            Ok(false) => Ok(0),
            Err(failed) => {
                self.failures += 1;
                Err(failed)
            }
        }
    }
}
