//! Scans and reductions, of all items or of each segment.

ghost use Rattle.item_operations.specs.BooleanScans.{combine_b, unit_b};
ghost use Rattle.item_operations.specs.IntegerScans.{combine_z, unit_z};
ghost use Rattle.vector_memory.specs.States.{value_at};
ghost use Rattle.cvl_text.specs.declared.word.AskWord.TheVariants as asks;
ghost use Rattle.cvl_text.specs.declared.word.OneWord.TheVariants as ones;
ghost use Rattle.cvl_text.specs.declared.word.TwoWord.TheVariants as twos;
ghost use Rattle.cvl_text.specs.declared.word.Word.TheVariants as words;
ghost use Rattle.cvl_calls.specs.Judging.{Judges};
ghost use Rattle.cvl_calls.specs.Operands.{integers, truths};
ghost use Rattle.cvl_calls.specs.Outcomes.{Held};
ghost use Rattle.cvl_calls.specs.Work.{reduce, reduce_segments, scan, scan_segments};

use crate::conditions::has_all;
use crate::judged::Judged;
use crate::operands::{bools, ints, segs};
use crate::stop::Stop;
use cvl_text::{ScanB, ScanZ};
use vector_memory::{Memory, Name};

#[tactic(auto, unfolding(crate::specs::Work::scan))]
#[inline(always)]
pub(crate) fn scan_ints<'a>(memory: &'a Memory, op: ScanZ, a: &Name) -> Result<Judged<'a>, Stop>
    ensures { Judges (words.One (ones.ScanZ op)) (scan integers (combine_z op) (unit_z op) (Held (value_at memory.now a.now))) result }
{
    Ok(Judged::ScanInts(op, ints(memory, a)?))
}

#[tactic(auto, unfolding(crate::specs::Work::scan_segments))]
#[inline(always)]
pub(crate) fn scan_int_segments<'a>(
    memory: &'a Memory,
    op: ScanZ,
    a: &Name,
    s: &Name,
) -> Result<Judged<'a>, Stop>
    ensures { Judges (words.Two (twos.ScanSegZ op)) (scan_segments integers (combine_z op) (unit_z op) (Held (value_at memory.now a.now)) (Held (value_at memory.now s.now))) result }
{
    let xs = ints(memory, a)?;
    let segments = segs(memory, s)?;
    has_all(segments, xs.len())?;
    Ok(Judged::ScanIntSegments(op, xs, segments))
}

#[tactic(auto, unfolding(crate::specs::Work::reduce))]
#[inline(always)]
pub(crate) fn reduce_ints<'a>(memory: &'a Memory, op: ScanZ, a: &Name) -> Result<Judged<'a>, Stop>
    ensures { Judges (words.Ask (asks.RedZ op)) (reduce integers (combine_z op) (unit_z op) (Held (value_at memory.now a.now))) result }
{
    Ok(Judged::ReduceInts(op, ints(memory, a)?))
}

#[tactic(auto, unfolding(crate::specs::Work::reduce_segments))]
#[inline(always)]
pub(crate) fn reduce_int_segments<'a>(
    memory: &'a Memory,
    op: ScanZ,
    a: &Name,
    s: &Name,
) -> Result<Judged<'a>, Stop>
    ensures { Judges (words.Two (twos.RedSegZ op)) (reduce_segments integers (combine_z op) (unit_z op) (Held (value_at memory.now a.now)) (Held (value_at memory.now s.now))) result }
{
    let xs = ints(memory, a)?;
    let segments = segs(memory, s)?;
    has_all(segments, xs.len())?;
    Ok(Judged::ReduceIntSegments(op, xs, segments))
}

#[tactic(auto, unfolding(crate::specs::Work::scan))]
#[inline(always)]
pub(crate) fn scan_bools<'a>(memory: &'a Memory, op: ScanB, a: &Name) -> Result<Judged<'a>, Stop>
    ensures { Judges (words.One (ones.ScanB op)) (scan truths (combine_b op) (unit_b op) (Held (value_at memory.now a.now))) result }
{
    Ok(Judged::ScanBools(op, bools(memory, a)?))
}

#[tactic(auto, unfolding(crate::specs::Work::scan_segments))]
#[inline(always)]
pub(crate) fn scan_bool_segments<'a>(
    memory: &'a Memory,
    op: ScanB,
    a: &Name,
    s: &Name,
) -> Result<Judged<'a>, Stop>
    ensures { Judges (words.Two (twos.ScanSegB op)) (scan_segments truths (combine_b op) (unit_b op) (Held (value_at memory.now a.now)) (Held (value_at memory.now s.now))) result }
{
    let xs = bools(memory, a)?;
    let segments = segs(memory, s)?;
    has_all(segments, xs.len())?;
    Ok(Judged::ScanBoolSegments(op, xs, segments))
}

#[tactic(auto, unfolding(crate::specs::Work::reduce))]
#[inline(always)]
pub(crate) fn reduce_bools<'a>(memory: &'a Memory, op: ScanB, a: &Name) -> Result<Judged<'a>, Stop>
    ensures { Judges (words.Ask (asks.RedB op)) (reduce truths (combine_b op) (unit_b op) (Held (value_at memory.now a.now))) result }
{
    Ok(Judged::ReduceBools(op, bools(memory, a)?))
}

#[tactic(auto, unfolding(crate::specs::Work::reduce_segments))]
#[inline(always)]
pub(crate) fn reduce_bool_segments<'a>(
    memory: &'a Memory,
    op: ScanB,
    a: &Name,
    s: &Name,
) -> Result<Judged<'a>, Stop>
    ensures { Judges (words.Two (twos.RedSegB op)) (reduce_segments truths (combine_b op) (unit_b op) (Held (value_at memory.now a.now)) (Held (value_at memory.now s.now))) result }
{
    let xs = bools(memory, a)?;
    let segments = segs(memory, s)?;
    has_all(segments, xs.len())?;
    Ok(Judged::ReduceBoolSegments(op, xs, segments))
}
