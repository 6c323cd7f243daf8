//! A script whose callers run in threads of their own.

ghost use Rattle.std.specs.Prelude.{◌≡◌, ◌<◌, ◌≤◌, ℕ, Err, OnOk, IfOk, IfSome, vec_len};
ghost use Rattle.vector_memory.specs.States.{IsLawfulRoom};
ghost use Rattle.call_history.specs.Callers.{caller_limit};
ghost use Rattle.script_lines.specs.Scripts.{AtStart};
ghost use Rattle.script_lines.specs.Stages.{stage_of};
ghost use Rattle.script_lines.specs.Walks.{unwalked};
ghost use Rattle.script_lines.specs.Readings.{AreLawful, lists_of};
ghost use Rattle.script_lines.specs.Runs.{IsCounted};
ghost use Rattle.script_main.specs.SharedRuns.{IsReadWhole, RunsShared};

use crate::gate::Open;
use crate::report::write_report;
use crate::threads::run_threads;
use scan_kernels::Execution;
use script_lines::{
    Lines, Progress, RunFault, Script, Sink, Source, read_script_with, write_bad_line,
};
use std::alloc::Global;
use std::sync::Wait;
use std::thread::Threads;

/// Reads a script. At a bad line the words on it are written.
fn read_whole<R: Source, W: Sink>(
    alloc: Global,
    lines: &mut Lines,
    progress: &mut Progress,
    reader: &mut R,
    writer: &mut W,
) -> Result<Script, RunFault>
    requires start { stage_of progress.old ≡ AtStart }
    requires unwalked { lines.old.walk ≡ unwalked }
    requires readable { R.can_read reader.old }
    requires writable { W.can_write writer.old }
    ensures read { IfSome (R.rest reader.old) (λ input. IsReadWhole result input
        (R.rest reader.new) (W.written writer.old) (W.written writer.new)) }
    ensures few { IfOk result (λ script. vec_len script.workers ≤ caller_limit) }
    ensures lawful { IfOk result (λ script. AreLawful (lists_of script.workers)) }
    ensures ready { OnOk result (W.can_write writer.new) }
    ensures counted { OnOk result (W.failures writer.new ≡ W.failures writer.old) }
    ensures cut { result ≡ Err RunFault.Read → R.failures reader.old < R.failures reader.new }
    ensures failed { result ≡ Err RunFault.Write → W.failures writer.old < W.failures writer.new }
    ensures unstopped { (worker : ℕ) → result ≡ Err (RunFault.Stopped worker) → ⊥ }
{
    match read_script_with(alloc, lines, progress, reader) {
        Ok(script) => Ok(script),
        Err(RunFault::BadLine(number)) => match write_bad_line(writer, number) {
            Ok(()) => Err(RunFault::BadLine(number)),
            Err(_) => Err(RunFault::Write),
        },
        Err(fault) => Err(fault),
    }
}

/// Reads a script, by lines of which none is gone to, runs it with a thread for each of its callers on a machine whose memory has this room and the script's edition, and writes the
/// report.
///
/// It ends at the first bad line, of which nothing is run, for want of memory, where a read or a write fails, and where the
/// workers are not run to their end; `RunsShared` says what is written then.
pub(crate) fn run_shared<R: Source, W: Sink, T: Threads + Wait + Execution<Shared = T> + Sync>(
    rt: &T,
    alloc: Global,
    room: u64,
    lines: &mut Lines,
    progress: &mut Progress,
    reader: &mut R,
    writer: &mut W,
) -> Result<(), RunFault>
    requires room { IsLawfulRoom room }
    requires start { stage_of progress.old ≡ AtStart }
    requires unwalked { lines.old.walk ≡ unwalked }
    requires readable { R.can_read reader.old }
    requires writable { W.can_write writer.old }
    ensures runs { IfSome (R.rest reader.old) (λ input. RunsShared result room input
        (R.rest reader.new) (W.written writer.old) (W.written writer.new)) }
    ensures counted { IsCounted result (R.failures reader.old) (R.failures reader.new)
        (W.failures writer.old) (W.failures writer.new) }
{
    let script = read_whole(alloc, lines, progress, reader, writer)?;
    let settled = run_threads(rt, alloc, script, room, &Open)?;
    write_report(rt, alloc, &settled, writer)
}
