//! A script as the jobs of its callers.

ghost use Rattle.std.specs.Prelude.{◌≡◌, ◌<◌, ◌≤◌, ℕ, Err, IfOk, IfSome, vec_len};
ghost use Rattle.call_history.specs.Callers.{caller_limit};
ghost use Rattle.script_lines.specs.Scripts.{AtStart};
ghost use Rattle.script_lines.specs.Stages.{stage_of};
ghost use Rattle.script_lines.specs.Walks.{unwalked};
ghost use Rattle.script_lines.specs.Readings.{lists_of, AreLawful, IsRead};

use crate::fault::RunFault;
use crate::lines::Lines;
use crate::progress::Progress;
use crate::reading::read_input;
use crate::step::edition_at;
use crate::streams::Source;
use call_history::Job;
use std::alloc::Global;
use vector_memory::Edition;

/// A script that was read.
#[derive(Debug, Drop)]
pub struct Script {
    pub edition: Edition,
    /// The jobs of each caller, from 0 up to the greatest that occurs, in the order of the script.
    pub workers: Vec<Vec<Job>>,
}

/// Reads a script as `read_script` does, by lines of which none is gone to. They and the progress stay where a fault stopped it.
pub fn read_script_with<R: Source>(
    alloc: Global,
    lines: &mut Lines,
    progress: &mut Progress,
    reader: &mut R,
) -> Result<Script, RunFault>
    requires start { stage_of progress.old ≡ AtStart }
    requires unwalked { lines.old.walk ≡ unwalked }
    requires readable { R.can_read reader.old }
    ensures read { IfSome (R.rest reader.old) (λ input. IsRead result input (R.rest reader.new)) }
    ensures lawful { IfOk result (λ script. AreLawful (lists_of script.workers)) }
    ensures few { IfOk result (λ script. vec_len script.workers ≤ caller_limit) }
    ensures failed { result ≡ Err RunFault.Read → R.failures reader.old < R.failures reader.new }
    ensures unwritten { result ≡ Err RunFault.Write → ⊥ }
    ensures unstopped { (worker : ℕ) → result ≡ Err (RunFault.Stopped worker) → ⊥ }
{
    let mut workers = Vec::new(alloc);
    match read_input(alloc, &mut workers, progress, lines, reader) {
        Ok(()) => Ok(Script {
            edition: edition_at(progress),
            workers,
        }),
        Err(fault) => Err(RunFault::from(fault)),
    }
}

/// Reads a script: its edition, and for each caller from 0 up to the greatest that occurs its jobs, in the order of the script.
///
/// It ends at the first bad line, for want of memory, and where a read fails; `IsRead` says what was read then.
pub fn read_script<R: Source>(alloc: Global, reader: &mut R) -> Result<Script, RunFault>
    requires { R.can_read reader.old }
    ensures read { IfSome (R.rest reader.old) (λ input. IsRead result input (R.rest reader.new)) }
    ensures lawful { IfOk result (λ script. AreLawful (lists_of script.workers)) }
    ensures few { IfOk result (λ script. vec_len script.workers ≤ caller_limit) }
    ensures failed { result ≡ Err RunFault.Read → R.failures reader.old < R.failures reader.new }
    ensures unwritten { result ≡ Err RunFault.Write → ⊥ }
    ensures unstopped { (worker : ℕ) → result ≡ Err (RunFault.Stopped worker) → ⊥ }
{
    let Ok(mut lines) = Lines::new(alloc) else {
        return Err(RunFault::OutOfMemory);
    };
    read_script_with(alloc, &mut lines, &mut Progress::AtStart, reader)
}
