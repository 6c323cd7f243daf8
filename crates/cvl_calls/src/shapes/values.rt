//! Whole values: replied, copied, freed, made and measured. None of these runs a kernel.

ghost use Rattle.vector_memory.specs.States.{value_at};
ghost use Rattle.cvl_text.specs.declared.word.AskWord.TheVariants as asks;
ghost use Rattle.cvl_text.specs.declared.word.OneWord.TheVariants as ones;
ghost use Rattle.cvl_text.specs.declared.word.Word.TheVariants as words;
ghost use Rattle.cvl_calls.specs.Judging.{Judges};
ghost use Rattle.cvl_calls.specs.Outcomes.{Held, NumberGiven};
ghost use Rattle.cvl_calls.specs.Work.{alo, free, get, len, len_segs, make_segs, mov};

use crate::judged::Judged;
use crate::operands::{any_value, count, ints, segs};
use crate::stop::Stop;
use cvl_text::Fault;
use segment_desc::{SegFault, Segd};
use vector_memory::laws::memories_are_lawful;
use vector_memory::{Memory, Name};

#[tactic(auto, unfolding(crate::specs::Work::get))]
#[inline(always)]
pub(crate) fn get<'a>(memory: &'a Memory, a: &Name) -> Result<Judged<'a>, Stop>
    ensures { Judges (words.Ask asks.Get) (get (Held (value_at memory.now a.now))) result }
{
    Ok(Judged::Get(any_value(memory, a)?))
}

#[tactic(auto, unfolding(crate::specs::Work::mov))]
#[inline(always)]
pub(crate) fn mov<'a>(memory: &'a Memory, a: &Name) -> Result<Judged<'a>, Stop>
    ensures { Judges (words.One ones.Mov) (mov (Held (value_at memory.now a.now))) result }
{
    Ok(Judged::Mov(any_value(memory, a)?))
}

#[tactic(auto, unfolding(crate::specs::Work::free))]
#[inline(always)]
pub(crate) fn free<'a>(memory: &'a Memory, a: &Name) -> Result<Judged<'a>, Stop>
    ensures { Judges (words.Ask asks.Free) (free (Held (value_at memory.now a.now))) result }
{
    any_value(memory, a)?;
    Ok(Judged::Free)
}

#[tactic(auto, unfolding(crate::specs::Work::alo))]
#[inline(always)]
pub(crate) fn alo<'a>(limit: usize, n: i64) -> Result<Judged<'a>, Stop>
    ensures { Judges words.Alo (alo limit (NumberGiven n)) result }
{
    Ok(Judged::Alo(count(limit, n)?))
}

#[tactic(auto, unfolding(crate::specs::Work::len))]
#[inline(always)]
pub(crate) fn len<'a>(memory: &'a Memory, a: &Name) -> Result<Judged<'a>, Stop>
    ensures { Judges (words.Ask asks.Len) (len (Held (value_at memory.now a.now))) result }
{
    memories_are_lawful(memory);
    let value = any_value(memory, a)?;
    Ok(Judged::Len(value.size() as i64))
}

#[tactic(auto, unfolding(crate::specs::Work::make_segs))]
#[inline(always)]
pub(crate) fn make_segs<'a>(memory: &'a Memory, a: &Name) -> Result<Judged<'a>, Stop>
    ensures { Judges (words.One ones.MakeSegs) (make_segs memory.now.limit (Held (value_at memory.now a.now))) result }
{
    memories_are_lawful(memory);
    let lengths = ints(memory, a)?;
    match Segd::judge_lengths(lengths, memory.limit()) {
        Ok(total) => Ok(Judged::MakeSegs(lengths, total)),
        Err(SegFault::Negative) => Err(Stop::Fault(Fault::BadSegments)),
        Err(_) => Err(Stop::Fault(Fault::TooLong)),
    }
}

#[tactic(auto, unfolding(crate::specs::Work::len_segs))]
#[inline(always)]
pub(crate) fn len_segs<'a>(memory: &'a Memory, s: &Name) -> Result<Judged<'a>, Stop>
    ensures { Judges (words.One ones.LenSegs) (len_segs (Held (value_at memory.now s.now))) result }
{
    Ok(Judged::LenSegs(segs(memory, s)?))
}
