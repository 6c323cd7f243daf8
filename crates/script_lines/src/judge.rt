//! Whether a line is good, told without serving it.

ghost use Rattle.std.specs.Prelude.{◌≡◌, ℕ, false, OnOk, OnErr, IsTrue, IsErrOf};
ghost use Rattle.cvl_text.specs.Lines.{task_in};
ghost use Rattle.cvl_text.specs.Words.{words_of};
ghost use Rattle.script_lines.specs.Scripts.{Bad, asked, line_of, is_good, stage_after_line};
ghost use Rattle.script_lines.specs.Stages.{is_start, stage_of};

use crate::deed::Deed;
use crate::line::{LineFault, read_call};
use crate::progress::Progress;
use crate::step::step;
use std::alloc::Global;
use vector_memory::Edition;

/// Whether a text says a call in an edition.
fn judge_call(alloc: Global, edition: Edition, said: &[u8]) -> Result<(), LineFault>
    ensures good { OnOk result ((caller : ℕ) → IsTrue (is_good (asked caller (task_in edition (words_of said.now))))) }
    ensures bad { IsErrOf result LineFault.Bad → (caller : ℕ) → asked caller (task_in edition (words_of said.now)) ≡ Bad }
{
    match read_call(alloc, edition, said) {
        Ok(_) => Ok(()),
        Err(fault) => Err(fault),
    }
}

/// Goes on by a line if it is good. Behind a bad first line the script may have begun.
fn go_on(alloc: Global, progress: &mut Progress, line: &[u8]) -> Result<(), LineFault>
    ensures good { OnOk result (IsTrue (is_good (line_of (stage_of progress.old) line.now))) }
    ensures stage { OnOk result (stage_of progress.new
        ≡ stage_after_line (stage_of progress.old) (line_of (stage_of progress.old) line.now)) }
    ensures bad { IsErrOf result LineFault.Bad → line_of (stage_of progress.old) line.now ≡ Bad }
    ensures kept { is_start (stage_of progress.old) ≡ false → OnErr result (stage_of progress.new ≡ stage_of progress.old) }
{
    match step(alloc, progress, line)? {
        Deed::Nothing => Ok(()),
        Deed::Renews => Ok(()),
        Deed::Asks(edition, _, said) => judge_call(alloc, edition, said),
        Deed::Closes(_, _) => Ok(()),
    }
}

/// Whether no line was gone through.
fn is_at_start(progress: &Progress) -> bool
    ensures { result ≡ is_start (stage_of progress.now) }
{
    match progress {
        Progress::AtStart => true,
        Progress::Outside(_) => false,
        Progress::Inside(_) => false,
    }
}

/// Goes on by a line if it is good. At a bad one the script stands where it stood.
pub(crate) fn judge(alloc: Global, progress: &mut Progress, line: &[u8]) -> Result<(), LineFault>
    ensures good { OnOk result (IsTrue (is_good (line_of (stage_of progress.old) line.now))) }
    ensures stage { OnOk result (stage_of progress.new
        ≡ stage_after_line (stage_of progress.old) (line_of (stage_of progress.old) line.now)) }
    ensures bad { IsErrOf result LineFault.Bad → line_of (stage_of progress.old) line.now ≡ Bad }
    ensures kept { OnErr result (stage_of progress.new ≡ stage_of progress.old) }
{
    let first = is_at_start(progress);
    let judged = go_on(alloc, progress, line);
    if first && judged.is_err() {
        *progress = Progress::AtStart;
    }
    judged
}
