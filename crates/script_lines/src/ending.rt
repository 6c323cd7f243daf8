//! What comes behind the lines that were read: more of them, or the end of the script, where no block may be open.

ghost use Rattle.std.specs.Prelude.{◌≡◌, ◌<◌, ◌≤◌, ◌-◌, ◌^◌, ℕ, List, Ok, true, OnOk};
ghost use Rattle.script_lines.specs.Scripts.{IsOneLine, AtStart, stage_after};
ghost use Rattle.script_lines.specs.Stages.{stage_of, end_at};
ghost use Rattle.script_lines.specs.Walks.{HasWalked, FillsOrEnds, CountsReads, GoesOn};

use crate::fault::InputFault;
use crate::lines::Lines;
use crate::progress::Progress;
use crate::streams::Source;

/// What the end of a script behind so many lines comes to: no more, or a bad line behind the last, if a block is open.
fn end_at(progress: &Progress, lines: u64) -> Result<bool, InputFault>
    requires { lines < 2 ^ 64 - 1 }
    ensures { result ≡ end_at (stage_of progress.now) lines }
{
    match progress {
        Progress::AtStart => Ok(false),
        Progress::Outside(_) => Ok(false),
        Progress::Inside(_) => Err(InputFault::BadLine(lines + 1)),
    }
}

/// Reads more, where no whole line is left of what was read: false at the end.
pub(crate) fn read_more<R: Source>(
    progress: &Progress,
    lines: &mut Lines,
    reader: &mut R,
) -> Result<bool, InputFault>
    requires one_line { IsOneLine lines.old.walk.unread }
    requires number { lines.old.walk.number ≤ 2 ^ 63 }
    requires readable { R.can_read reader.old }
    ensures fills { (input : List ℕ) (first : List (List ℕ)) → HasWalked input (R.rest reader.old) first lines.old.walk
        → stage_of progress.now ≡ stage_after AtStart first → FillsOrEnds result input first (R.rest reader.new) lines.new.walk }
    ensures goes_on { result ≡ Ok true → GoesOn lines.old.walk (R.limit reader.old) lines.new.walk (R.limit reader.new) }
    ensures counted { CountsReads result (R.failures reader.old) (R.failures reader.new) }
    ensures readable { OnOk result (R.can_read reader.new) }
{
    if lines.fill(reader)? {
        return Ok(true);
    }
    end_at(progress, lines.number())
}
