//! Items moved to the places of an index, or read from them.

ghost use Rattle.std.specs.Prelude.{true};
ghost use Rattle.vector_memory.specs.States.{value_at};
ghost use Rattle.cvl_text.specs.declared.word.ThreeWord.TheVariants as threes;
ghost use Rattle.cvl_text.specs.declared.word.TwoWord.TheVariants as twos;
ghost use Rattle.cvl_text.specs.declared.word.Word.TheVariants as words;
ghost use Rattle.cvl_calls.specs.Judging.{Judges, JudgesBy};
ghost use Rattle.cvl_calls.specs.Outcomes.{Held};
ghost use Rattle.cvl_calls.specs.Work.{gather, gather_segments, permute, permute_segments};

use crate::conditions::{
    has_all, has_each, lies_within, permutes, permutes_whole, same_length, within,
};
use crate::judged::Judged;
use crate::operands::{ints, items, segs};
use crate::stop::Stop;
use cvl_text::Kind;
use scan_kernels::{Execution, Meter};
use std::alloc::Global;
use vector_memory::{Memory, Name};

#[tactic(auto, unfolding(crate::specs::Work::permute))]
#[inline(always)]
pub(crate) fn permute<'a>(
    execution: &impl Execution,
    alloc: Global,
    meter: &Meter,
    memory: &'a Memory,
    kind: Kind,
    a: &Name,
    i: &Name,
) -> Result<Judged<'a>, Stop>
    ensures { JudgesBy true (words.Two (twos.Smp kind)) (permute kind (Held (value_at memory.now a.now)) (Held (value_at memory.now i.now))) result }
{
    let xs = items(memory, kind, a)?;
    let places = ints(memory, i)?;
    same_length(xs.len(), places.len())?;
    permutes_whole(execution, alloc, meter, places)?;
    Ok(Judged::Permute(xs, places))
}

#[tactic(auto, unfolding(crate::specs::Work::permute_segments))]
#[inline(always)]
pub(crate) fn permute_segments<'a>(
    execution: &impl Execution,
    alloc: Global,
    meter: &Meter,
    memory: &'a Memory,
    kind: Kind,
    a: &Name,
    i: &Name,
    s: &Name,
) -> Result<Judged<'a>, Stop>
    ensures { JudgesBy true (words.Three (threes.SmpSeg kind)) (permute_segments kind (Held (value_at memory.now a.now)) (Held (value_at memory.now i.now)) (Held (value_at memory.now s.now))) result }
{
    let xs = items(memory, kind, a)?;
    let places = ints(memory, i)?;
    let segments = segs(memory, s)?;
    same_length(xs.len(), places.len())?;
    has_all(segments, xs.len())?;
    permutes(execution, alloc, meter, places, segments)?;
    Ok(Judged::PermuteSegments(xs, places, segments))
}

#[tactic(auto, unfolding(crate::specs::Work::gather))]
#[inline(always)]
pub(crate) fn gather<'a>(
    execution: &impl Execution,
    meter: &Meter,
    memory: &'a Memory,
    kind: Kind,
    a: &Name,
    i: &Name,
) -> Result<Judged<'a>, Stop>
    ensures { Judges (words.Two (twos.Bck kind)) (gather kind (Held (value_at memory.now a.now)) (Held (value_at memory.now i.now))) result }
{
    let xs = items(memory, kind, a)?;
    let places = ints(memory, i)?;
    within(execution, meter, places, xs.len())?;
    Ok(Judged::Gather(xs, places))
}

#[tactic(auto, unfolding(crate::specs::Work::gather_segments))]
#[inline(always)]
pub(crate) fn gather_segments<'a>(
    execution: &impl Execution,
    meter: &Meter,
    memory: &'a Memory,
    kind: Kind,
    a: &Name,
    s: &Name,
    i: &Name,
    t: &Name,
) -> Result<Judged<'a>, Stop>
    ensures { Judges (words.BckSeg kind) (gather_segments kind (Held (value_at memory.now a.now)) (Held (value_at memory.now s.now)) (Held (value_at memory.now i.now)) (Held (value_at memory.now t.now))) result }
{
    let xs = items(memory, kind, a)?;
    let source = segs(memory, s)?;
    let places = ints(memory, i)?;
    let by = segs(memory, t)?;
    has_all(source, xs.len())?;
    has_all(by, places.len())?;
    has_each(source, by.count())?;
    lies_within(execution, meter, places, source, by)?;
    Ok(Judged::GatherSegments(xs, source, places, by))
}
