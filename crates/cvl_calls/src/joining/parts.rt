//! The operands of the calls of a group, as a joined kernel takes them.

ghost use Rattle.std.specs.Prelude.{◌≡◌, ◌<◌, ◌≤◌, ℕ, Err, Ok, Some, length, map, slice_get, take, All, IfOk, OnOk};
ghost use Rattle.std.specs.Thread.{IsSync};
ghost use Rattle.cvl_text.specs.declared.fault.Fault.{Fault};
ghost use Rattle.cvl_text.specs.declared.word.Word.{Word};
ghost use Rattle.cvl_text.specs.Tasks.{task_of};
ghost use Rattle.cvl_calls.specs.Fewness.{FewFit};
ghost use Rattle.cvl_calls.specs.Judging.{IsReady, JudgesBy, made, word_of};
ghost use Rattle.cvl_calls.specs.Outcomes.{Stores};
ghost use Rattle.cvl_calls.specs.Runs.{tests_index};
ghost use Rattle.cvl_calls.specs.Steps.{work_on};

use crate::joining::few::{FEW, Few};
use crate::joining::group::{Group, Item};
use crate::judged::Judged;
use crate::made::Stored;
use crate::stop::Stop;
use cvl_text::Call;
use scan_kernels::{Execution, Kernel, Meter};
use std::alloc::Global;
use vector_memory::Memory;

/// What calls are judged by.
#[derive(Drop)]
pub(crate) struct Judge<'m, 'a, E> {
    pub(crate) execution: &'m E,
    pub(crate) alloc: Global,
    pub(crate) meter: &'m Meter,
    pub(crate) memory: &'a Memory,
}

/// A kernel that runs the calls of a word, of which each stores a vector of such items.
pub(crate) trait Joins<'a, P: Copy, T: Stored>: Kernel<P, Item = T> {
    /// The word.
    ghost word: { Self → Word };

    /// Judges a call of this word.
    fn judged<E: Execution>(
        self,
        judge: &Judge<'_, 'a, E>,
        call: &'a Call,
    ) -> Result<Judged<'a>, Stop>
        requires shared { IsSync E.Shared.row }
        requires word { (task_of call.now).word ≡ word self }
        ensures judges { let task = task_of call.now in JudgesBy (tests_index task.word) task.word (work_on judge.now.memory.now task) result };

    /// The operands of a call of this word.
    fn part(self, judged: &Judged<'a>) -> P
        requires word { word_of judged.now ≡ word self }
        requires ready { IsReady judged.now }
        ensures takes { Self.Takes self result }
        ensures makes { made judged.now ≡ Stores (T.content (Self.makes self result)) };
}

/// The operands of the call at a place, unless it has a fault or memory is wanted.
#[inline(always)]
pub(crate) fn part_at<'a, P: Copy, T: Stored, K: Joins<'a, P, T>, G: Group>(
    execution: &impl Execution,
    alloc: Global,
    meter: &Meter,
    kernel: K,
    group: &'a G,
    place: usize,
) -> Result<P, Stop>
    requires alike { G.IsAlike group.now }
    requires word { G.word group.now ≡ K.word kernel }
    requires place { place < length (G.works group.now) }
    ensures takes { IfOk result (K.Takes kernel) }
    ensures makes { IfOk result (λ part. slice_get (G.works group.now) place ≡ Some (Ok (Stores (T.content (K.makes kernel part))))) }
    ensures fault { (fault : Fault) → result ≡ Err (Stop.Fault fault) → slice_get (G.works group.now) place ≡ Some (Err fault) }
{
    match group.item(place) {
        Item::Judged(judged) => Ok(kernel.part(judged)),
        Item::Call(memory, call) => {
            let judge = Judge {
                execution,
                alloc,
                meter,
                memory,
            };
            let judged = kernel.judged(&judge, call)?;
            Ok(kernel.part(&judged))
        }
    }
}

/// The operands of the call at a place, behind those of the calls before it: those of the last of them again, where it reads the same.
#[inline(always)]
fn next_part<'a, P: Copy, T: Stored, K: Joins<'a, P, T>, G: Group>(
    execution: &impl Execution,
    alloc: Global,
    meter: &Meter,
    kernel: K,
    group: &'a G,
    before: &[P],
    place: usize,
) -> Result<P, Stop>
    requires alike { G.IsAlike group.now }
    requires word { G.word group.now ≡ K.word kernel }
    requires place { place < length (G.works group.now) }
    requires behind { place ≡ length before.now }
    requires taken { All (K.Takes kernel) before.now }
    requires made { map (λ part. Ok (Stores (T.content (K.makes kernel part)))) before.now ≡ take place (G.works group.now) }
    ensures takes { IfOk result (K.Takes kernel) }
    ensures makes { IfOk result (λ part. slice_get (G.works group.now) place ≡ Some (Ok (Stores (T.content (K.makes kernel part))))) }
    ensures fault { (fault : Fault) → result ≡ Err (Stop.Fault fault) → slice_get (G.works group.now) place ≡ Some (Err fault) }
{
    if group.is_again(place) {
        return Ok(before[place - 1]);
    }
    part_at(execution, alloc, meter, kernel, group, place)
}

/// Puts the operands of the calls behind the first, of one to four calls, behind those of the first.
#[inline(always)]
pub(crate) fn put_others<'a, P: Copy, T: Stored, K: Joins<'a, P, T>, G: Group>(
    execution: &impl Execution,
    alloc: Global,
    meter: &Meter,
    kernel: K,
    group: &'a G,
    parts: &mut Few<P>,
) -> Result<(), Stop>
    requires memory { FewFit P.row }
    requires alike { G.IsAlike group.now }
    requires word { G.word group.now ≡ K.word kernel }
    requires few { length (G.works group.now) ≤ FEW }
    requires one { length parts.old ≡ 1 }
    requires taken { All (K.Takes kernel) parts.old }
    requires made { map (λ part. Ok (Stores (T.content (K.makes kernel part)))) parts.old ≡ take 1 (G.works group.now) }
    ensures takes { OnOk result (All (K.Takes kernel) parts.new) }
    ensures makes { OnOk result (map (λ part. Ok (Stores (T.content (K.makes kernel part)))) parts.new ≡ G.works group.now) }
    ensures fault { (fault : Fault) → result ≡ Err (Stop.Fault fault) → (place : ℕ) × (slice_get (G.works group.now) place ≡ Some (Err fault)) }
{
    for place in 1..group.count() {
        let before = parts.as_slice();
        let part = next_part(execution, alloc, meter, kernel, group, before, place)?;
        parts.push(part);
    }
    Ok(())
}

/// The operands of all calls.
#[inline(always)]
pub(crate) fn parts_of<'a, P: Copy, T: Stored, K: Joins<'a, P, T>, G: Group>(
    execution: &impl Execution,
    alloc: Global,
    meter: &Meter,
    kernel: K,
    group: &'a G,
) -> Result<Vec<P>, Stop>
    requires alike { G.IsAlike group.now }
    requires word { G.word group.now ≡ K.word kernel }
    ensures takes { IfOk result (λ parts. All (K.Takes kernel) parts.items) }
    ensures makes { IfOk result (λ parts. map (λ part. Ok (Stores (T.content (K.makes kernel part)))) parts.items ≡ G.works group.now) }
    ensures fault { (fault : Fault) → result ≡ Err (Stop.Fault fault) → (place : ℕ) × (slice_get (G.works group.now) place ≡ Some (Err fault)) }
{
    let count = group.count();
    let mut parts = Vec::with_capacity(alloc, count)?;
    for place in 0..count {
        let part = next_part(execution, alloc, meter, kernel, group, &parts, place)?;
        parts.push_reserved(part);
    }
    Ok(parts)
}
