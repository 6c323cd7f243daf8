//! What is known of a bad line.

ghost use Rattle.std.specs.Prelude.{◌≡◌, ◌≢◌};
ghost use Rattle.script_lines.specs.Stages.{stage_of};
ghost use Rattle.script_lines.specs.Known.{place_at, IsText, IsBehind};

use crate::line::LINE_LIMIT;
use crate::lines::Lines;
use crate::progress::Progress;
use bad_lines::{Place, append_reason, why_bad};
use segment_desc::OutOfMemory;

/// A bad line.
#[derive(Drop)]
pub(crate) enum BadLine<'a> {
    /// It has this text, and stands at this place.
    Text(&'a [u8], Place),
    /// It has more bytes than a line may have.
    TooLong,
    /// It is the end of an input, where a block of this caller is open.
    OpenAtEnd(u64),
}

/// The place of a line that comes next.
fn place_of(progress: &Progress) -> Place
    ensures { result ≡ place_at (stage_of progress.now) }
{
    match progress {
        Progress::AtStart => Place::First,
        Progress::Outside(edition) => Place::Outside(*edition),
        Progress::Inside(block) => Place::Inside {
            caller: block.caller,
            calls: block.calls.len(),
        },
    }
}

/// What is known of a bad line by its text.
fn by_text(line: &[u8], place: Place) -> BadLine<'_>
    ensures { IsText result line.now place }
{
    if line.len() > LINE_LIMIT {
        return BadLine::TooLong;
    }
    BadLine::Text(line, place)
}

/// The line that was come to, where the script stands so before it.
pub(crate) fn current_line<'a>(lines: &'a Lines, progress: &Progress) -> BadLine<'a>
    ensures { IsText result lines.now.line (place_at (stage_of progress.now)) }
{
    by_text(lines.current(), place_of(progress))
}

/// The bad line of this number, at which the lines of an input were left.
pub(crate) fn bad_line<'a>(number: u64, lines: &'a Lines, progress: &Progress) -> BadLine<'a>
    ensures first { number ≡ lines.now.walk.number → number ≡ 1 → IsText result lines.now.line Place.First }
    ensures later { number ≡ lines.now.walk.number → number ≢ 1 → IsText result lines.now.line (place_at (stage_of progress.now)) }
    ensures behind { number ≢ lines.now.walk.number → IsBehind result lines.now.walk.ended (stage_of progress.now) }
{
    if number == lines.number() {
        if number == 1 {
            return by_text(lines.current(), Place::First);
        }
        return current_line(lines, progress);
    }
    match progress {
        Progress::Inside(block) if lines.ended() => BadLine::OpenAtEnd(block.caller),
        _ => BadLine::TooLong,
    }
}

/// Puts why a line is bad behind what is there. On an error a part of it may stand there.
pub(crate) fn append_why(out: &mut Vec<u8>, bad: BadLine<'_>) -> Result<(), OutOfMemory> {
    match bad {
        BadLine::Text(line, place) => match why_bad(line, place) {
            Some(reason) => append_reason(out, &reason)?,
            None => out.extend_from_slice(b"it is not in the grammar")?,
        },
        BadLine::TooLong => out.extend_from_slice(b"the line has more than 1048576 bytes")?,
        BadLine::OpenAtEnd(caller) => {
            let mut digits = itoa::Buffer::new();
            out.extend_from_slice(b"the input ends in a block of caller ")?;
            out.extend_from_slice(digits.format(caller).as_bytes())?;
            out.extend_from_slice(b": its } is missing")?;
        }
    }
    Ok(())
}
