//! A script under way: the book of the lines that are served, and the replies that are not written yet.

ghost use Rattle.std.specs.Prelude.{[], true, ◌≡◌, ◌<◌, ◌≤◌, ◌^◌, ℕ, List, Option, Ok, Err, OnOk, OnErr, IfOk};
ghost use Rattle.vector_memory.specs.States.{State, IsLawfulRoom, bounds_in, empty};
ghost use Rattle.call_history.specs.Books.{memory_of};
ghost use Rattle.script_lines.specs.Scripts.{AtStart, IsOneLine, bad_text};
ghost use Rattle.script_lines.specs.Stages.{stage_of};
ghost use Rattle.script_lines.specs.Streams.{Awaits, HasBegun};
ghost use Rattle.script_lines.specs.Walks.{GoesOn, IsCountable};
ghost use Rattle.script_lines.specs.Runs.{ServesOn, StandsAt, HasEnded, Steps, CountsFailures, UnlessWrite, Runs, IsCounted};

use crate::ending::read_more;
use crate::fault::{InputFault, RunFault, ServeFault};
use crate::gather::{GATHERED, flush};
use crate::lines::Lines;
use crate::progress::Progress;
use crate::serve::serve_line;
use crate::streams::{Failed, Sink, Source, write_all};
use call_history::Book;
use scan_kernels::Execution;
use segment_desc::OutOfMemory;
use std::alloc::Global;
use vector_memory::Edition;

/// A script under way on one book.
#[derive(Drop)]
pub struct Run {
    pub book: Book,
    pub progress: Progress,
    /// The replies that are not written yet.
    pub waiting: Vec<u8>,
}

/// Writes the words on a bad line.
pub fn write_bad_line<W: Sink>(writer: &mut W, number: u64) -> Result<(), Failed>
    requires { W.can_write writer.old }
    ensures written { OnOk result (Awaits (W.written writer.old) (W.written writer.new) [] (bad_text number)) }
    ensures begun { OnErr result (HasBegun (W.written writer.old) (W.written writer.new) (bad_text number)) }
    ensures failed { OnErr result (W.failures writer.old < W.failures writer.new) }
{
    let mut digits = itoa::Buffer::new();
    write_all(writer, b"bad line ")?;
    write_all(writer, digits.format(number).as_bytes())?;
    write_all(writer, b"\n")
}

impl Run {
    /// A run that has served nothing.
    pub fn new(alloc: Global, room: u64) -> Result<Run, OutOfMemory>
        requires { IsLawfulRoom room }
        ensures memory { IfOk result (λ run. memory_of run.book ≡ empty (bounds_in Edition.One room)) }
        ensures start { IfOk result (λ run. stage_of run.progress ≡ AtStart) }
        ensures waiting { IfOk result (λ run. run.waiting.items ≡ []) }
    {
        Ok(Run {
            book: Book::new(alloc, room)?,
            progress: Progress::AtStart,
            waiting: Vec::new(alloc),
        })
    }

    /// Serves a line, and writes the replies that wait where they are many.
    fn serve_line<W: Sink>(
        &mut self,
        execution: &impl Execution,
        alloc: Global,
        lines: &Lines,
        writer: &mut W,
    ) -> Result<bool, ServeFault>
        requires { W.can_write writer.old }
        ensures steps { (m : State) (input : List ℕ) (left old : Option (List ℕ))
            → StandsAt m input left old (W.written writer.old) lines.now (memory_of self.old.book) (stage_of self.old.progress) self.old.waiting.items
            → Steps result m input left old (W.written writer.new) lines.now.walk (memory_of self.new.book) (stage_of self.new.progress) self.new.waiting.items }
        ensures counted { (reads : ℕ) → CountsFailures result reads reads (W.failures writer.old) (W.failures writer.new) }
        ensures writable { UnlessWrite result (W.can_write writer.new) }
    {
        let served = serve_line(
            execution,
            alloc,
            &mut self.book,
            &mut self.progress,
            &mut self.waiting,
            lines.current(),
        );
        if let Err(fault) = served {
            return Err(ServeFault::Input(lines.halt(fault)));
        }
        if self.waiting.len() < GATHERED {
            return Ok(true);
        }
        match flush(&mut self.waiting, writer) {
            Ok(()) => Ok(true),
            Err(_) => Err(ServeFault::Write),
        }
    }

    /// Writes the replies that wait, and reads more.
    fn read_on<R: Source, W: Sink>(
        &mut self,
        lines: &mut Lines,
        reader: &mut R,
        writer: &mut W,
    ) -> Result<bool, ServeFault>
        requires one_line { IsOneLine lines.old.walk.unread }
        requires number { lines.old.walk.number ≤ 2 ^ 63 }
        requires readable { R.can_read reader.old }
        requires writable { W.can_write writer.old }
        ensures steps { (m : State) (input : List ℕ) (old : Option (List ℕ))
            → ServesOn m input (R.rest reader.old) old (W.written writer.old) lines.old.walk (memory_of self.old.book) (stage_of self.old.progress) self.old.waiting.items
            → Steps result m input (R.rest reader.new) old (W.written writer.new) lines.new.walk (memory_of self.new.book) (stage_of self.new.progress) self.new.waiting.items }
        ensures goes_on { result ≡ Ok true → GoesOn lines.old.walk (R.limit reader.old) lines.new.walk (R.limit reader.new) }
        ensures counted { CountsFailures result (R.failures reader.old) (R.failures reader.new) (W.failures writer.old) (W.failures writer.new) }
        ensures readable { OnOk result (R.can_read reader.new) }
        ensures writable { UnlessWrite result (W.can_write writer.new) }
        ensures none { OnOk result (self.new.waiting.items ≡ []) }
    {
        let Ok(()) = flush(&mut self.waiting, writer) else {
            return Err(ServeFault::Write);
        };
        match read_more(&self.progress, lines, reader) {
            Ok(more) => Ok(more),
            Err(halt) => Err(ServeFault::Input(halt)),
        }
    }

    /// Serves the next line, or reads more where no whole line is left of what was read: false at the end.
    pub(crate) fn serve_next<R: Source, W: Sink>(
        &mut self,
        execution: &impl Execution,
        alloc: Global,
        lines: &mut Lines,
        reader: &mut R,
        writer: &mut W,
    ) -> Result<bool, ServeFault>
        requires countable { IsCountable lines.old.walk (R.limit reader.old) }
        requires readable { R.can_read reader.old }
        requires writable { W.can_write writer.old }
        ensures steps { (m : State) (input : List ℕ) (old : Option (List ℕ))
            → ServesOn m input (R.rest reader.old) old (W.written writer.old) lines.old.walk (memory_of self.old.book) (stage_of self.old.progress) self.old.waiting.items
            → Steps result m input (R.rest reader.new) old (W.written writer.new) lines.new.walk (memory_of self.new.book) (stage_of self.new.progress) self.new.waiting.items }
        ensures goes_on { result ≡ Ok true → GoesOn lines.old.walk (R.limit reader.old) lines.new.walk (R.limit reader.new) }
        ensures counted { CountsFailures result (R.failures reader.old) (R.failures reader.new) (W.failures writer.old) (W.failures writer.new) }
        ensures readable { OnOk result (R.can_read reader.new) }
        ensures writable { UnlessWrite result (W.can_write writer.new) }
    {
        match lines.advance() {
            Ok(true) => self.serve_line(execution, alloc, lines, writer),
            Ok(false) => self.read_on(lines, reader, writer),
            Err(OutOfMemory) => Err(ServeFault::Input(InputFault::OutOfMemory)),
        }
    }

    /// Ends a run where the input was not gone through: writes the replies that wait, and the words on a bad line.
    fn stop<W: Sink>(&mut self, halt: InputFault, writer: &mut W) -> RunFault
        requires { W.can_write writer.old }
        ensures runs { (m : State) (input : List ℕ) (left old : Option (List ℕ))
            → HasEnded (Err (ServeFault.Input halt)) m input left old (W.written writer.old) self.old.waiting.items
            → Runs (Err result) m input left old (W.written writer.new) }
        ensures counted { (reads reads' writes : ℕ) → CountsFailures {T = Unit {0}} (Err (ServeFault.Input halt)) reads reads' writes (W.failures writer.old)
            → IsCounted (Err result) reads reads' writes (W.failures writer.new) }
    {
        let Ok(()) = flush(&mut self.waiting, writer) else {
            return RunFault::Write;
        };
        match halt {
            InputFault::BadLine(number) => match write_bad_line(writer, number) {
                Ok(()) => RunFault::BadLine(number),
                Err(_) => RunFault::Write,
            },
            InputFault::OutOfMemory => RunFault::OutOfMemory,
            InputFault::Read => RunFault::Read,
        }
    }

    /// Ends a run: writes the replies that wait, and what stopped it.
    pub(crate) fn finish<W: Sink>(
        &mut self,
        ended: Result<(), ServeFault>,
        writer: &mut W,
    ) -> Result<(), RunFault>
        requires { UnlessWrite ended (W.can_write writer.old) }
        ensures runs { (m : State) (input : List ℕ) (left old : Option (List ℕ))
            → HasEnded ended m input left old (W.written writer.old) self.old.waiting.items
            → Runs result m input left old (W.written writer.new) }
        ensures counted { (reads reads' writes : ℕ) → CountsFailures ended reads reads' writes (W.failures writer.old)
            → IsCounted result reads reads' writes (W.failures writer.new) }
    {
        match ended {
            Ok(()) => match flush(&mut self.waiting, writer) {
                Ok(()) => Ok(()),
                Err(_) => Err(RunFault::Write),
            },
            Err(ServeFault::Input(halt)) => Err(self.stop(halt, writer)),
            Err(ServeFault::Write) => Err(RunFault::Write),
        }
    }
}
