//! A script that is read: the jobs of its lines.

ghost use Rattle.std.specs.Prelude.{[], true, ◌≡◌, ◌<◌, ◌≤◌, ℕ, List, Ok, Err, OnOk, IfSome, length, vec_len};
ghost use Rattle.call_history.specs.Callers.{caller_limit};
ghost use Rattle.script_lines.specs.Scripts.{AtStart};
ghost use Rattle.script_lines.specs.Stages.{stage_of};
ghost use Rattle.script_lines.specs.Walks.{unwalked, GoesOn, IsCountable, CountsReads};
ghost use Rattle.script_lines.specs.Readings.{lists_of, AreLawful, HasRead, ReadsOn, EndsReading};

use crate::ending::read_more;
use crate::fault::InputFault;
use crate::jobs::read_line;
use crate::lines::Lines;
use crate::progress::Progress;
use crate::streams::Source;
use call_history::Job;
use segment_desc::OutOfMemory;
use std::alloc::Global;

/// Adds what the next line asks for, or reads more where no whole line is left of what was read: false at the end.
fn read_next<R: Source>(
    alloc: Global,
    jobs: &mut Vec<Vec<Job>>,
    progress: &mut Progress,
    lines: &mut Lines,
    reader: &mut R,
) -> Result<bool, InputFault>
    requires countable { IsCountable lines.old.walk (R.limit reader.old) }
    requires readable { R.can_read reader.old }
    ensures reads { (input : List ℕ) → HasRead input (R.rest reader.old) lines.old.walk (stage_of progress.old) (lists_of jobs.old)
        → ReadsOn result (stage_of progress.new) (lists_of jobs.new) input (R.rest reader.new) lines.new.walk }
    ensures lawful { OnOk result (AreLawful (lists_of jobs.old) → AreLawful (lists_of jobs.new)) }
    ensures few { OnOk result (vec_len jobs.old ≤ caller_limit → vec_len jobs.new ≤ caller_limit) }
    ensures goes_on { result ≡ Ok true → GoesOn lines.old.walk (R.limit reader.old) lines.new.walk (R.limit reader.new) }
    ensures counted { CountsReads result (R.failures reader.old) (R.failures reader.new) }
    ensures readable { OnOk result (R.can_read reader.new) }
{
    match lines.advance() {
        Ok(true) => match read_line(alloc, jobs, progress, lines.current()) {
            Ok(()) => Ok(true),
            Err(fault) => Err(lines.halt(fault)),
        },
        Ok(false) => read_more(progress, lines, reader),
        Err(OutOfMemory) => Err(InputFault::OutOfMemory),
    }
}

/// Reads an input to the end.
pub(crate) fn read_input<R: Source>(
    alloc: Global,
    jobs: &mut Vec<Vec<Job>>,
    progress: &mut Progress,
    lines: &mut Lines,
    reader: &mut R,
) -> Result<(), InputFault>
    requires none { jobs.old.items ≡ [] }
    requires unwalked { lines.old.walk ≡ unwalked }
    requires start { stage_of progress.old ≡ AtStart }
    requires readable { R.can_read reader.old }
    ensures read { IfSome (R.rest reader.old) (λ input. EndsReading result (stage_of progress.new) (lists_of jobs.new) input (R.rest reader.new)) }
    ensures lawful { OnOk result (AreLawful (lists_of jobs.new)) }
    ensures few { OnOk result (vec_len jobs.new ≤ caller_limit) }
    ensures failed { result ≡ Err InputFault.Read → R.failures reader.old < R.failures reader.new }
{
    while read_next(alloc, jobs, progress, lines, reader)? {}
    Ok(())
}
