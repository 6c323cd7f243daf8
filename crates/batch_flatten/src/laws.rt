//! Laws of the definitions that the contracts cite: each function does nothing, and its contract is the law.

ghost use Rattle.std.specs.Prelude.{◌≡◌, ◌<◌, ℕ, List, Some, false, slice_get, slice_index};
ghost use Rattle.vector_memory.specs.States.{State};
ghost use Rattle.cvl_text.specs.Tasks.{Task};
ghost use Rattle.cvl_calls.specs.Steps.{work_on};
ghost use Rattle.batch_flatten.specs.Waves.{jobs_clash, waves_of};
ghost use Rattle.batch_flatten.specs.Turns.{memory_after_tasks, answers_after, memory_done, answers_done, ReadsNoTarget, IsWave};

mod joining;

pub use joining::{
    back_permutes_join, distributions_join, gathers_join, indices_join, maps_join,
    packed_lengths_join, packs_join, paired_maps_join, permutes_join, reductions_join,
    repeats_join, scans_join, selects_join, whole_indices_join, whole_permutes_join,
    whole_reductions_join, whole_scans_join,
};

/// A call that reads the target of none of the calls before it makes of the memory before them what it makes at its own turn.
/// So calls of which none reads the target of an earlier one leave and reply what they leave and reply one after the other,
/// where all of them see the memory before the first.
pub fn waves_are_turns()
    ensures work { (m : State) (before : List Task) (t : Task) → ReadsNoTarget before t
        → work_on (memory_after_tasks m before) t ≡ work_on m t }
    ensures memory { (m : State) (ts : List Task) → IsWave ts → memory_done m m ts ≡ memory_after_tasks m ts }
    ensures answers { (m : State) (ts : List Task) → IsWave ts → answers_done m m ts ≡ answers_after m ts }
{}

/// Of two jobs of one wave no call of the later reads the target of a call of the earlier.
pub fn waves_keep_apart()
    ensures { (jobs : List (List Task)) (i j : ℕ) (t u : List Task) → i < j → slice_get jobs i ≡ Some t → slice_get jobs j ≡ Some u
        → slice_index (waves_of jobs) i ≡ slice_index (waves_of jobs) j → jobs_clash t u ≡ false }
{}
