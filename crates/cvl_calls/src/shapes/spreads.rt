//! One value many times over, and numbers that rise by a stride.

ghost use Rattle.std.specs.Prelude.{◌≤◌};
ghost use Rattle.segment_desc.specs.Lengths.{most};
ghost use Rattle.vector_memory.specs.States.{value_at};
ghost use Rattle.cvl_text.specs.declared.word.ThreeWord.TheVariants as threes;
ghost use Rattle.cvl_text.specs.declared.word.TwoWord.TheVariants as twos;
ghost use Rattle.cvl_text.specs.declared.word.Word.TheVariants as words;
ghost use Rattle.cvl_calls.specs.Judging.{Judges};
ghost use Rattle.cvl_calls.specs.Operands.{integers, truths};
ghost use Rattle.cvl_calls.specs.Outcomes.{Held, NumberGiven, TruthGiven};
ghost use Rattle.cvl_calls.specs.Work.{distribute, index, index_segments, repeat};

use crate::conditions::{has_each, same_length};
use crate::judged::Judged;
use crate::operands::{count, ints, items, segs};
use crate::stop::Stop;
use cvl_text::Kind;
use vector_memory::{Memory, Name};

#[tactic(auto, unfolding(crate::specs::Work::repeat))]
#[inline(always)]
pub(crate) fn repeat_int<'a>(limit: usize, x: i64, n: i64) -> Result<Judged<'a>, Stop>
    ensures { Judges words.DisZ (repeat limit integers (NumberGiven x) (NumberGiven n)) result }
{
    Ok(Judged::RepeatInt(x, count(limit, n)?))
}

#[tactic(auto, unfolding(crate::specs::Work::repeat))]
#[inline(always)]
pub(crate) fn repeat_bool<'a>(limit: usize, x: bool, n: i64) -> Result<Judged<'a>, Stop>
    ensures { Judges words.DisB (repeat limit truths (TruthGiven x) (NumberGiven n)) result }
{
    Ok(Judged::RepeatBool(x, count(limit, n)?))
}

#[tactic(auto, unfolding(crate::specs::Work::distribute))]
#[inline(always)]
pub(crate) fn distribute<'a>(
    memory: &'a Memory,
    kind: Kind,
    a: &Name,
    s: &Name,
) -> Result<Judged<'a>, Stop>
    ensures { Judges (words.Two (twos.DisSeg kind)) (distribute kind (Held (value_at memory.now a.now)) (Held (value_at memory.now s.now))) result }
{
    let xs = items(memory, kind, a)?;
    let segments = segs(memory, s)?;
    has_each(segments, xs.len())?;
    Ok(Judged::Distribute(xs, segments))
}

#[tactic(auto, unfolding(crate::specs::Work::index))]
#[inline(always)]
pub(crate) fn index<'a>(limit: usize, u: i64, v: i64, n: i64) -> Result<Judged<'a>, Stop>
    requires { limit ≤ most }
    ensures { Judges words.Ind (index limit (NumberGiven u) (NumberGiven v) (NumberGiven n)) result }
{
    Ok(Judged::Index(u, v, count(limit, n)?))
}

#[tactic(auto, unfolding(crate::specs::Work::index_segments))]
#[inline(always)]
pub(crate) fn index_segments<'a>(
    memory: &'a Memory,
    a: &Name,
    b: &Name,
    s: &Name,
) -> Result<Judged<'a>, Stop>
    ensures { Judges (words.Three threes.IndSeg) (index_segments (Held (value_at memory.now a.now)) (Held (value_at memory.now b.now)) (Held (value_at memory.now s.now))) result }
{
    let starts = ints(memory, a)?;
    let strides = ints(memory, b)?;
    let segments = segs(memory, s)?;
    same_length(starts.len(), strides.len())?;
    has_each(segments, starts.len())?;
    Ok(Judged::IndexSegments(starts, strides, segments))
}
