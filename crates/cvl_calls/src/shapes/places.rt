//! One item of a vector. No kernel runs.

ghost use Rattle.std.specs.Prelude.{◌≡◌, ◌<◌, pos, IfOk};
ghost use Rattle.vector_memory.specs.States.{value_at};
ghost use Rattle.cvl_text.specs.declared.word.Word.TheVariants as words;
ghost use Rattle.cvl_calls.specs.Conditions.{is_place};
ghost use Rattle.cvl_calls.specs.Judging.{Judges};
ghost use Rattle.cvl_calls.specs.Outcomes.{Held, NumberGiven, check, viewed};
ghost use Rattle.cvl_calls.specs.Work.{extract, replace};

use crate::judged::Judged;
use crate::operands::ints;
use crate::stop::Stop;
use cvl_text::Fault;
use vector_memory::{Memory, Name};

#[tactic(auto, unfolding(crate::specs::Work::extract))]
#[inline(always)]
pub(crate) fn extract<'a>(memory: &'a Memory, a: &Name, p: i64) -> Result<Judged<'a>, Stop>
    ensures { Judges words.Ext (extract (Held (value_at memory.now a.now)) (NumberGiven p)) result }
{
    let xs = ints(memory, a)?;
    let place = place_in(p, xs.len())?;
    Ok(Judged::Ext(xs[place]))
}

#[tactic(auto, unfolding(crate::specs::Work::replace))]
#[inline(always)]
pub(crate) fn replace<'a>(memory: &'a Memory, a: &Name, p: i64, x: i64) -> Result<Judged<'a>, Stop>
    ensures { Judges words.Rep (replace (Held (value_at memory.now a.now)) (NumberGiven p) (NumberGiven x)) result }
{
    let xs = ints(memory, a)?;
    let place = place_in(p, xs.len())?;
    Ok(Judged::Rep(xs, place, x))
}

/// The place, of a list of so many items.
fn place_in(p: i64, length: usize) -> Result<usize, Fault>
    ensures place { IfOk result (λ place. pos place ≡ p) }
    ensures within { IfOk result (λ place. place < length) }
    ensures fault { viewed (λ place. tt) result ≡ check (is_place length p) Fault.BadIndex }
{
    if p < 0 || p.unsigned_abs() >= length as u64 {
        return Err(Fault::BadIndex);
    }
    Ok(p as usize)
}
