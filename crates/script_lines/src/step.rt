//! A line of a script at the stage that the script is at: what is to be done, and the stage behind it.

ghost use Rattle.std.specs.Prelude.{◌≡◌, IfOk, OnOk, OnErr};
ghost use Rattle.script_lines.specs.Scripts.{Outside, AtStart, is_head, line_of, plain_line, stage_after_line, edition_at};
ghost use Rattle.script_lines.specs.Asks.{IsDeed, IsLawfulDeed};
ghost use Rattle.script_lines.specs.Stages.{stage_of};

use crate::deed::Deed;
use crate::line::{LineFault, ask_in, is_alone};
use crate::open_block::OpenBlock;
use crate::progress::Progress;
use std::alloc::Global;
use vector_memory::Edition;

/// Whether a line is the head of a script of edition 2.
fn is_head(line: &[u8]) -> bool
    ensures { result ≡ is_head line.now }
{
    line == b"cvl 2".as_slice()
}

/// What is to be done at a line of edition 1.
#[inline(always)]
fn first_edition(line: &[u8]) -> Result<Deed<'_>, LineFault>
    ensures deed { IsDeed result (plain_line (Outside Edition.One) line.now) }
    ensures lawful { IfOk result IsLawfulDeed }
{
    match ask_in(line)? {
        Some((caller, text)) => Ok(Deed::Asks(Edition::One, u64::from(caller), text)),
        None => Ok(Deed::Nothing),
    }
}

/// What is to be done at a line of edition 2 outside a block.
fn second_edition<'a>(
    alloc: Global,
    progress: &mut Progress,
    line: &'a [u8],
) -> Result<Deed<'a>, LineFault>
    requires { stage_of progress.old ≡ Outside Edition.Two }
    ensures deed { IsDeed result (plain_line (Outside Edition.Two) line.now) }
    ensures stage { OnOk result (stage_of progress.new
        ≡ stage_after_line (Outside Edition.Two) (plain_line (Outside Edition.Two) line.now)) }
    ensures kept { OnErr result (stage_of progress.new ≡ stage_of progress.old) }
    ensures lawful { IfOk result IsLawfulDeed }
{
    let Some((caller, text)) = ask_in(line)? else {
        return Ok(Deed::Nothing);
    };
    if is_alone(text, b"{") {
        *progress = Progress::Inside(OpenBlock::new(alloc, u64::from(caller)));
        return Ok(Deed::Nothing);
    }
    Ok(Deed::Asks(Edition::Two, u64::from(caller), text))
}

/// What is to be done at the first line.
#[tactic(auto, using(crate::proofs::StageLemmas::one_line), unfolding(crate::specs::Scripts::line_of))]
fn begin<'a>(progress: &mut Progress, line: &'a [u8]) -> Result<Deed<'a>, LineFault>
    ensures deed { IsDeed result (line_of AtStart line.now) }
    ensures stage { OnOk result (stage_of progress.new ≡ stage_after_line AtStart (line_of AtStart line.now)) }
    ensures kept { OnErr result (stage_of progress.new ≡ stage_of progress.old) }
    ensures lawful { IfOk result IsLawfulDeed }
{
    if is_head(line) {
        *progress = Progress::Outside(Edition::Two);
        return Ok(Deed::Renews);
    }
    let deed = first_edition(line)?;
    *progress = Progress::Outside(Edition::One);
    Ok(deed)
}

/// Goes on by a line, and answers what is to be done at it.
#[tactic(auto, using(crate::proofs::StageLemmas::one_line), unfolding(crate::specs::Scripts::line_of))]
#[inline(always)]
pub(crate) fn step<'a>(
    alloc: Global,
    progress: &mut Progress,
    line: &'a [u8],
) -> Result<Deed<'a>, LineFault>
    ensures deed { IsDeed result (line_of (stage_of progress.old) line.now) }
    ensures stage { OnOk result (stage_of progress.new
        ≡ stage_after_line (stage_of progress.old) (line_of (stage_of progress.old) line.now)) }
    ensures kept { OnErr result (stage_of progress.new ≡ stage_of progress.old) }
    ensures lawful { IfOk result IsLawfulDeed }
{
    match progress {
        Progress::AtStart => begin(progress, line),
        Progress::Outside(Edition::One) => first_edition(line),
        Progress::Outside(Edition::Two) => second_edition(alloc, progress, line),
        Progress::Inside(block) => {
            let caller = block.caller;
            match block.take(alloc, line)? {
                Some(calls) => {
                    *progress = Progress::Outside(Edition::Two);
                    Ok(Deed::Closes(caller, calls))
                }
                None => Ok(Deed::Nothing),
            }
        }
    }
}

/// The edition of a script that has come so far.
pub(crate) fn edition_at(progress: &Progress) -> Edition
    ensures { result ≡ edition_at (stage_of progress.now) }
{
    match progress {
        Progress::AtStart => Edition::One,
        Progress::Outside(edition) => *edition,
        Progress::Inside(_) => Edition::Two,
    }
}
