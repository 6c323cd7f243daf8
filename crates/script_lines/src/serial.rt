//! A script on one book.

ghost use Rattle.std.specs.Prelude.{[], ◌≡◌, IfSome};
ghost use Rattle.vector_memory.specs.States.{IsLawfulRoom, bounds_in, empty};
ghost use Rattle.call_history.specs.Books.{memory_of};
ghost use Rattle.script_lines.specs.Scripts.{AtStart};
ghost use Rattle.script_lines.specs.Stages.{stage_of};
ghost use Rattle.script_lines.specs.Walks.{unwalked};
ghost use Rattle.script_lines.specs.Runs.{HasEnded, CountsFailures, UnlessWrite, Runs, IsCounted};

use crate::fault::{RunFault, ServeFault};
use crate::lines::Lines;
use crate::run::Run;
use crate::streams::{Sink, Source};
use scan_kernels::Execution;
use std::alloc::Global;
use vector_memory::Edition;

/// Serves each line of an input, and writes the replies to what was read before more is read.
fn serve_input<R: Source, W: Sink>(
    execution: &impl Execution,
    alloc: Global,
    run: &mut Run,
    lines: &mut Lines,
    reader: &mut R,
    writer: &mut W,
) -> Result<(), ServeFault>
    requires start { stage_of run.old.progress ≡ AtStart }
    requires waiting { run.old.waiting.items ≡ [] }
    requires unwalked { lines.old.walk ≡ unwalked }
    requires readable { R.can_read reader.old }
    requires writable { W.can_write writer.old }
    ensures ended { IfSome (R.rest reader.old) (λ input. HasEnded result (memory_of run.old.book) input
        (R.rest reader.new) (W.written writer.old) (W.written writer.new) run.new.waiting.items) }
    ensures counted { CountsFailures result (R.failures reader.old) (R.failures reader.new) (W.failures writer.old) (W.failures writer.new) }
    ensures writable { UnlessWrite result (W.can_write writer.new) }
{
    while run.serve_next(execution, alloc, lines, reader, writer)? {}
    Ok(())
}

/// Runs a script on a run that has served nothing, by lines of which none is gone to. They stay where a fault stopped the run.
pub fn run_script<R: Source, W: Sink>(
    execution: &impl Execution,
    alloc: Global,
    run: &mut Run,
    lines: &mut Lines,
    reader: &mut R,
    writer: &mut W,
) -> Result<(), RunFault>
    requires start { stage_of run.old.progress ≡ AtStart }
    requires waiting { run.old.waiting.items ≡ [] }
    requires unwalked { lines.old.walk ≡ unwalked }
    requires readable { R.can_read reader.old }
    requires writable { W.can_write writer.old }
    ensures runs { IfSome (R.rest reader.old) (λ input. Runs result (memory_of run.old.book) input
        (R.rest reader.new) (W.written writer.old) (W.written writer.new)) }
    ensures counted { IsCounted result (R.failures reader.old) (R.failures reader.new)
        (W.failures writer.old) (W.failures writer.new) }
{
    let ended = serve_input(execution, alloc, run, lines, reader, writer);
    run.finish(ended, writer)
}

/// Runs a script on one book, whose memory has this room and the edition that the script is of, and writes the reply to each
/// call. A block runs at the line that closes it.
///
/// The replies to all lines that were read are written before more is read. It ends at the first bad line, for want of
/// memory, and where a read or a write fails; `Runs` says what is written then.
pub fn run_serial<R: Source, W: Sink>(
    execution: &impl Execution,
    alloc: Global,
    room: u64,
    reader: &mut R,
    writer: &mut W,
) -> Result<(), RunFault>
    requires room { IsLawfulRoom room }
    requires readable { R.can_read reader.old }
    requires writable { W.can_write writer.old }
    ensures runs { IfSome (R.rest reader.old) (λ input. Runs result (empty (bounds_in Edition.One room)) input
        (R.rest reader.new) (W.written writer.old) (W.written writer.new)) }
    ensures counted { IsCounted result (R.failures reader.old) (R.failures reader.new)
        (W.failures writer.old) (W.failures writer.new) }
{
    let Ok(mut run) = Run::new(alloc, room) else {
        return Err(RunFault::OutOfMemory);
    };
    let Ok(mut lines) = Lines::new(alloc) else {
        return Err(RunFault::OutOfMemory);
    };
    run_script(execution, alloc, &mut run, &mut lines, reader, writer)
}
