//! Item by item.

ghost use Rattle.item_operations.specs.BooleanOps.{alter_b, apply_b};
ghost use Rattle.scan_kernels.specs.Elementwise.{as_number, is_true};
ghost use Rattle.item_operations.specs.IntegerOps.{alter_z, apply_z, compares};
ghost use Rattle.vector_memory.specs.States.{value_at};
ghost use Rattle.cvl_text.specs.declared.word.Kind.TheVariants as kinds;
ghost use Rattle.cvl_text.specs.declared.word.OneWord.TheVariants as ones;
ghost use Rattle.cvl_text.specs.declared.word.ThreeWord.TheVariants as threes;
ghost use Rattle.cvl_text.specs.declared.word.TwoWord.TheVariants as twos;
ghost use Rattle.cvl_text.specs.declared.word.Word.TheVariants as words;
ghost use Rattle.cvl_calls.specs.Conditions.{any_seconds, seconds};
ghost use Rattle.cvl_calls.specs.Judging.{Judges};
ghost use Rattle.cvl_calls.specs.Operands.{integers, truths};
ghost use Rattle.cvl_calls.specs.Outcomes.{Held};
ghost use Rattle.cvl_calls.specs.Work.{map_one, map_two, select};

use crate::conditions::{same_length, seconds};
use crate::judged::Judged;
use crate::operands::{bools, ints};
use crate::stop::Stop;
use cvl_text::{B1, B2, Cmp, Z1, Z2};
use vector_memory::{Memory, Name};

#[tactic(auto, unfolding(crate::specs::Work::map_two))]
#[inline(always)]
pub(crate) fn map_ints<'a>(
    memory: &'a Memory,
    op: Z2,
    a: &Name,
    b: &Name,
) -> Result<Judged<'a>, Stop>
    ensures { Judges (words.Two (twos.MapZ2 op)) (map_two integers integers (seconds op) (apply_z op) (Held (value_at memory.now a.now)) (Held (value_at memory.now b.now))) result }
{
    let xs = ints(memory, a)?;
    let ys = ints(memory, b)?;
    same_length(xs.len(), ys.len())?;
    seconds(op, ys)?;
    Ok(Judged::MapInts(op, xs, ys))
}

#[tactic(auto, unfolding(crate::specs::Work::map_two))]
#[inline(always)]
pub(crate) fn compare<'a>(
    memory: &'a Memory,
    op: Cmp,
    a: &Name,
    b: &Name,
) -> Result<Judged<'a>, Stop>
    ensures { Judges (words.Two (twos.CmpZ op)) (map_two integers truths any_seconds (compares op) (Held (value_at memory.now a.now)) (Held (value_at memory.now b.now))) result }
{
    let xs = ints(memory, a)?;
    let ys = ints(memory, b)?;
    same_length(xs.len(), ys.len())?;
    Ok(Judged::Compare(op, xs, ys))
}

#[tactic(auto, unfolding(crate::specs::Work::map_two))]
#[inline(always)]
pub(crate) fn map_bools<'a>(
    memory: &'a Memory,
    op: B2,
    a: &Name,
    b: &Name,
) -> Result<Judged<'a>, Stop>
    ensures { Judges (words.Two (twos.MapB2 op)) (map_two truths truths any_seconds (apply_b op) (Held (value_at memory.now a.now)) (Held (value_at memory.now b.now))) result }
{
    let xs = bools(memory, a)?;
    let ys = bools(memory, b)?;
    same_length(xs.len(), ys.len())?;
    Ok(Judged::MapBools(op, xs, ys))
}

#[tactic(auto, unfolding(crate::specs::Work::map_one))]
#[inline(always)]
pub(crate) fn alter_ints<'a>(memory: &'a Memory, op: Z1, a: &Name) -> Result<Judged<'a>, Stop>
    ensures { Judges (words.One (ones.MapZ1 op)) (map_one integers integers (alter_z op) (Held (value_at memory.now a.now))) result }
{
    Ok(Judged::AlterInts(op, ints(memory, a)?))
}

#[tactic(auto, unfolding(crate::specs::Work::map_one))]
#[inline(always)]
pub(crate) fn alter_bools<'a>(memory: &'a Memory, op: B1, a: &Name) -> Result<Judged<'a>, Stop>
    ensures { Judges (words.One (ones.MapB1 op)) (map_one truths truths (alter_b op) (Held (value_at memory.now a.now))) result }
{
    Ok(Judged::AlterBools(op, bools(memory, a)?))
}

#[tactic(auto, unfolding(crate::specs::Work::map_one))]
#[inline(always)]
pub(crate) fn truths_of<'a>(memory: &'a Memory, a: &Name) -> Result<Judged<'a>, Stop>
    ensures { Judges (words.One ones.Boo) (map_one integers truths is_true (Held (value_at memory.now a.now))) result }
{
    Ok(Judged::TruthsOf(ints(memory, a)?))
}

#[tactic(auto, unfolding(crate::specs::Work::map_one))]
#[inline(always)]
pub(crate) fn numbers_of<'a>(memory: &'a Memory, a: &Name) -> Result<Judged<'a>, Stop>
    ensures { Judges (words.One ones.IntOf) (map_one truths integers as_number (Held (value_at memory.now a.now))) result }
{
    Ok(Judged::NumbersOf(bools(memory, a)?))
}

#[tactic(auto, unfolding(crate::specs::Work::select))]
#[inline(always)]
pub(crate) fn select_ints<'a>(
    memory: &'a Memory,
    f: &Name,
    a: &Name,
    b: &Name,
) -> Result<Judged<'a>, Stop>
    ensures { Judges (words.Three (threes.Sel kinds.Z)) (select integers (Held (value_at memory.now f.now)) (Held (value_at memory.now a.now)) (Held (value_at memory.now b.now))) result }
{
    let flags = bools(memory, f)?;
    let xs = ints(memory, a)?;
    let ys = ints(memory, b)?;
    same_length(flags.len(), xs.len())?;
    same_length(flags.len(), ys.len())?;
    Ok(Judged::SelectInts(flags, xs, ys))
}

#[tactic(auto, unfolding(crate::specs::Work::select))]
#[inline(always)]
pub(crate) fn select_bools<'a>(
    memory: &'a Memory,
    f: &Name,
    a: &Name,
    b: &Name,
) -> Result<Judged<'a>, Stop>
    ensures { Judges (words.Three (threes.Sel kinds.B)) (select truths (Held (value_at memory.now f.now)) (Held (value_at memory.now a.now)) (Held (value_at memory.now b.now))) result }
{
    let flags = bools(memory, f)?;
    let xs = bools(memory, a)?;
    let ys = bools(memory, b)?;
    same_length(flags.len(), xs.len())?;
    same_length(flags.len(), ys.len())?;
    Ok(Judged::SelectBools(flags, xs, ys))
}
