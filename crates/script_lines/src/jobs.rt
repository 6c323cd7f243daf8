//! The jobs of a script, for each caller its own.

ghost use Rattle.std.specs.Prelude.{◌≡◌, ◌<◌, ◌≤◌, ◌^◌, ℕ, ◌+◌, max, OnOk, IsTrue, IsErrOf, IsOkUnless, vec_len};
ghost use Rattle.cvl_text.specs.Lines.{task_in};
ghost use Rattle.cvl_text.specs.Words.{words_of};
ghost use Rattle.call_history.specs.Callers.{caller_limit};
ghost use Rattle.call_history.specs.Fits.{IsLawfulJob};
ghost use Rattle.script_lines.specs.Asks.{job_line};
ghost use Rattle.script_lines.specs.Scripts.{Bad, asked, line_of, is_good, stage_after_line};
ghost use Rattle.script_lines.specs.Readings.{lists_of, jobs_at, AddsJob, AddsLine, AreLawful};
ghost use Rattle.script_lines.specs.Stages.{stage_of};

use crate::deed::Deed;
use crate::line::{LineFault, read_call};
use crate::progress::Progress;
use crate::step::step;
use call_history::{CALLER_LIMIT, Job};
use segment_desc::OutOfMemory;
use std::alloc::Global;
use vector_memory::Edition;

/// Makes lists without jobs until there are `count`.
fn make_lists(alloc: Global, jobs: &mut Vec<Vec<Job>>, count: usize) -> Result<(), OutOfMemory>
    ensures count { OnOk result (vec_len jobs.new ≡ max (vec_len jobs.old) count) }
    ensures lists { OnOk result ((k : ℕ) → jobs_at k (lists_of jobs.new) ≡ jobs_at k (lists_of jobs.old)) }
{
    while jobs.len() < count {
        let Ok(()) = jobs.push(Vec::new(alloc)) else {
            return Err(OutOfMemory);
        };
    }
    Ok(())
}

/// Adds a job behind those of its caller.
fn add_job(
    alloc: Global,
    jobs: &mut Vec<Vec<Job>>,
    caller: usize,
    job: Job,
) -> Result<(), OutOfMemory>
    requires { caller + 1 < 2 ^ 64 }
    ensures { OnOk result (AddsJob (lists_of jobs.old) (lists_of jobs.new) caller job) }
{
    make_lists(alloc, jobs, caller + 1)?;
    jobs[caller].push(job)?;
    Ok(())
}

/// Adds a job of a caller, as a line asks for it.
fn put_job(alloc: Global, jobs: &mut Vec<Vec<Job>>, caller: u64, job: Job) -> Result<(), LineFault>
    requires caller { caller < CALLER_LIMIT }
    requires lawful { IsLawfulJob job }
    ensures adds { OnOk result (AddsLine (lists_of jobs.old) (lists_of jobs.new) (job_line caller job)) }
    ensures few { OnOk result (vec_len jobs.old ≤ caller_limit → vec_len jobs.new ≤ caller_limit) }
    ensures fault { IsOkUnless result LineFault.OutOfMemory }
{
    match add_job(alloc, jobs, caller as usize, job) {
        Ok(()) => Ok(()),
        Err(OutOfMemory) => Err(LineFault::OutOfMemory),
    }
}

/// Adds the call that a text says in an edition.
fn read_text(
    alloc: Global,
    jobs: &mut Vec<Vec<Job>>,
    edition: Edition,
    caller: u64,
    said: &[u8],
) -> Result<(), LineFault>
    requires { caller < CALLER_LIMIT }
    ensures good { OnOk result (IsTrue (is_good (asked caller (task_in edition (words_of said.now))))) }
    ensures adds { OnOk result (AddsLine (lists_of jobs.old) (lists_of jobs.new) (asked caller (task_in edition (words_of said.now)))) }
    ensures bad { IsErrOf result LineFault.Bad → asked caller (task_in edition (words_of said.now)) ≡ Bad }
    ensures few { OnOk result (vec_len jobs.old ≤ caller_limit → vec_len jobs.new ≤ caller_limit) }
{
    let call = read_call(alloc, edition, said)?;
    put_job(alloc, jobs, caller, Job::One(call))
}

/// Adds what a line asks for.
pub(crate) fn read_line(
    alloc: Global,
    jobs: &mut Vec<Vec<Job>>,
    progress: &mut Progress,
    line: &[u8],
) -> Result<(), LineFault>
    ensures good { OnOk result (IsTrue (is_good (line_of (stage_of progress.old) line.now))) }
    ensures adds { OnOk result (AddsLine (lists_of jobs.old) (lists_of jobs.new) (line_of (stage_of progress.old) line.now)) }
    ensures stage { OnOk result (stage_of progress.new
        ≡ stage_after_line (stage_of progress.old) (line_of (stage_of progress.old) line.now)) }
    ensures bad { IsErrOf result LineFault.Bad → line_of (stage_of progress.old) line.now ≡ Bad }
    ensures lawful { OnOk result (AreLawful (lists_of jobs.old) → AreLawful (lists_of jobs.new)) }
    ensures few { OnOk result (vec_len jobs.old ≤ caller_limit → vec_len jobs.new ≤ caller_limit) }
{
    match step(alloc, progress, line)? {
        Deed::Nothing => Ok(()),
        Deed::Renews => Ok(()),
        Deed::Asks(edition, caller, said) => read_text(alloc, jobs, edition, caller, said),
        Deed::Closes(caller, calls) => put_job(alloc, jobs, caller, Job::Many(calls)),
    }
}
