//! The items whose flag is set, and how many there are.

ghost use Rattle.vector_memory.specs.States.{value_at};
ghost use Rattle.cvl_text.specs.declared.word.ThreeWord.TheVariants as threes;
ghost use Rattle.cvl_text.specs.declared.word.TwoWord.TheVariants as twos;
ghost use Rattle.cvl_text.specs.declared.word.Word.TheVariants as words;
ghost use Rattle.cvl_calls.specs.Judging.{Judges};
ghost use Rattle.cvl_calls.specs.Outcomes.{Held};
ghost use Rattle.cvl_calls.specs.Work.{pack, pack_lengths, pack_segments};

use crate::conditions::{has_all, same_length};
use crate::judged::Judged;
use crate::operands::{bools, items, segs};
use crate::stop::Stop;
use cvl_text::Kind;
use vector_memory::{Memory, Name};

#[tactic(auto, unfolding(crate::specs::Work::pack))]
#[inline(always)]
pub(crate) fn pack<'a>(
    memory: &'a Memory,
    kind: Kind,
    a: &Name,
    f: &Name,
) -> Result<Judged<'a>, Stop>
    ensures { Judges (words.Two (twos.Pck kind)) (pack kind (Held (value_at memory.now a.now)) (Held (value_at memory.now f.now))) result }
{
    let xs = items(memory, kind, a)?;
    let flags = bools(memory, f)?;
    same_length(xs.len(), flags.len())?;
    Ok(Judged::Pack(xs, flags))
}

#[tactic(auto, unfolding(crate::specs::Work::pack_segments))]
#[inline(always)]
pub(crate) fn pack_segments<'a>(
    memory: &'a Memory,
    kind: Kind,
    a: &Name,
    f: &Name,
    s: &Name,
) -> Result<Judged<'a>, Stop>
    ensures { Judges (words.Three (threes.PckSeg kind)) (pack_segments kind (Held (value_at memory.now a.now)) (Held (value_at memory.now f.now)) (Held (value_at memory.now s.now))) result }
{
    let xs = items(memory, kind, a)?;
    let flags = bools(memory, f)?;
    let segments = segs(memory, s)?;
    same_length(xs.len(), flags.len())?;
    has_all(segments, xs.len())?;
    Ok(Judged::PackSegments(xs, flags, segments))
}

#[tactic(auto, unfolding(crate::specs::Work::pack_lengths))]
#[inline(always)]
pub(crate) fn pack_lengths<'a>(memory: &'a Memory, f: &Name, s: &Name) -> Result<Judged<'a>, Stop>
    ensures { Judges (words.Two twos.Pkl) (pack_lengths (Held (value_at memory.now f.now)) (Held (value_at memory.now s.now))) result }
{
    let flags = bools(memory, f)?;
    let segments = segs(memory, s)?;
    has_all(segments, flags.len())?;
    Ok(Judged::PackLengths(flags, segments))
}
