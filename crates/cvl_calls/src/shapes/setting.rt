//! The two forms of set.

ghost use Rattle.cvl_text.specs.declared.word.Word.TheVariants as words;
ghost use Rattle.cvl_calls.specs.Judging.{Judges};
ghost use Rattle.cvl_calls.specs.Operands.{integers, truths};
ghost use Rattle.cvl_calls.specs.Outcomes.{NumbersGiven, TruthsGiven};
ghost use Rattle.cvl_calls.specs.Work.{set};

use crate::judged::Judged;
use crate::operands::check_length;
use crate::stop::Stop;

#[tactic(auto, unfolding(crate::specs::Work::set))]
#[inline(always)]
pub(crate) fn set_ints<'a>(limit: usize, items: &'a [i64]) -> Result<Judged<'a>, Stop>
    ensures { Judges words.SetInts (set limit integers (NumbersGiven items.now)) result }
{
    check_length(limit, items.len())?;
    Ok(Judged::SetInts(items))
}

#[tactic(auto, unfolding(crate::specs::Work::set))]
#[inline(always)]
pub(crate) fn set_bools<'a>(limit: usize, items: &'a [bool]) -> Result<Judged<'a>, Stop>
    ensures { Judges words.SetBools (set limit truths (TruthsGiven items.now)) result }
{
    check_length(limit, items.len())?;
    Ok(Judged::SetBools(items))
}
