//! One kernel run over the joined operands of calls, of which each writes its integers over a vector of as many.

ghost use Rattle.std.specs.Prelude.{◌≡◌, Ok, length, map, IsTrue, OnErr, OnOk};
ghost use Rattle.vector_memory.specs.Contents.{Ints};
ghost use Rattle.scan_kernels.specs.Metering.{CountsRun};
ghost use Rattle.cvl_calls.specs.Outcomes.{Stores};
ghost use Rattle.cvl_calls.specs.Runs.{runs_kernel};

use crate::joining::group::Group;
use crate::joining::parts::{Joins, parts_of};
use crate::stop::Stop;
use cvl_text::{Kind, OneWord, ThreeWord, TwoWord, Word};
use permute_kernels::{Gather, PermuteWhole};
use scan_kernels::joined::{Distribute, ScanIntSegments, ScanInts, Select};
use scan_kernels::{Execution, IntKernel, Meter, run_joined_ints_over};
use std::alloc::Global;

/// Makes what calls of one word make: one kernel run over their joined operands, by which the meter rises once. The integers of each
/// are written over the vector at its place. Where a call has a fault, memory is wanted or a vector has another number of items, the
/// vectors stay as they are, and the meter too; so they do for calls of which none is written so.
pub(crate) fn run_group_over<G: Group>(
    execution: &impl Execution,
    alloc: Global,
    meter: &mut Meter,
    lists: &mut Vec<Vec<i64>>,
    word: Word,
    group: &G,
) -> Result<(), Stop>
    requires alike { G.IsAlike group.now }
    requires word { G.word group.now ≡ word }
    ensures makes { OnOk result (map (λ v. Ok (Stores (Ints v.items))) lists.new.items ≡ G.works group.now) }
    ensures long { OnOk result (map (λ v. length v.items) lists.new.items ≡ map (λ v. length v.items) lists.old.items) }
    ensures unchanged { OnErr result (lists.new ≡ lists.old) }
    ensures counted { CountsRun result meter.old meter.new }
{
    match word {
        Word::One(inner) => one(execution, alloc, meter, lists, inner, group),
        Word::Two(inner) => two(execution, alloc, meter, lists, inner, group),
        Word::Three(ThreeWord::Sel(Kind::Z)) => {
            ints(execution, alloc, meter, lists, Select, group)
        }
        _ => Err(Stop::OutOfMemory),
    }
}

#[inline(always)]
fn one<G: Group>(
    execution: &impl Execution,
    alloc: Global,
    meter: &mut Meter,
    lists: &mut Vec<Vec<i64>>,
    inner: OneWord,
    group: &G,
) -> Result<(), Stop>
    requires alike { G.IsAlike group.now }
    requires word { G.word group.now ≡ Word.One inner }
    ensures makes { OnOk result (map (λ v. Ok (Stores (Ints v.items))) lists.new.items ≡ G.works group.now) }
    ensures long { OnOk result (map (λ v. length v.items) lists.new.items ≡ map (λ v. length v.items) lists.old.items) }
    ensures unchanged { OnErr result (lists.new ≡ lists.old) }
    ensures counted { CountsRun result meter.old meter.new }
{
    match inner {
        OneWord::MapZ1(op) => ints(execution, alloc, meter, lists, op, group),
        OneWord::ScanZ(op) => ints(execution, alloc, meter, lists, ScanInts(op), group),
        _ => Err(Stop::OutOfMemory),
    }
}

#[inline(always)]
fn two<G: Group>(
    execution: &impl Execution,
    alloc: Global,
    meter: &mut Meter,
    lists: &mut Vec<Vec<i64>>,
    inner: TwoWord,
    group: &G,
) -> Result<(), Stop>
    requires alike { G.IsAlike group.now }
    requires word { G.word group.now ≡ Word.Two inner }
    ensures makes { OnOk result (map (λ v. Ok (Stores (Ints v.items))) lists.new.items ≡ G.works group.now) }
    ensures long { OnOk result (map (λ v. length v.items) lists.new.items ≡ map (λ v. length v.items) lists.old.items) }
    ensures unchanged { OnErr result (lists.new ≡ lists.old) }
    ensures counted { CountsRun result meter.old meter.new }
{
    match inner {
        TwoWord::MapZ2(op) => ints(execution, alloc, meter, lists, op, group),
        TwoWord::ScanSegZ(op) => ints(execution, alloc, meter, lists, ScanIntSegments(op), group),
        TwoWord::DisSeg(Kind::Z) => ints(execution, alloc, meter, lists, Distribute, group),
        TwoWord::Smp(Kind::Z) => ints(execution, alloc, meter, lists, PermuteWhole, group),
        TwoWord::Bck(Kind::Z) => ints(execution, alloc, meter, lists, Gather, group),
        _ => Err(Stop::OutOfMemory),
    }
}

#[inline(never)]
fn ints<'a, P: Copy, K: Joins<'a, P, i64> + IntKernel<'a, P>, G: Group>(
    execution: &impl Execution,
    alloc: Global,
    meter: &mut Meter,
    lists: &mut Vec<Vec<i64>>,
    kernel: K,
    group: &'a G,
) -> Result<(), Stop>
    requires alike { G.IsAlike group.now }
    requires word { G.word group.now ≡ K.word kernel }
    ensures makes { OnOk result (map (λ v. Ok (Stores (Ints v.items))) lists.new.items ≡ G.works group.now) }
    ensures long { OnOk result (map (λ v. length v.items) lists.new.items ≡ map (λ v. length v.items) lists.old.items) }
    ensures unchanged { OnErr result (lists.new ≡ lists.old) }
    ensures counted { CountsRun result meter.old meter.new }
{
    let parts = parts_of(execution, alloc, meter, kernel, group)?;
    run_joined_ints_over(execution, alloc, meter, kernel, &parts, lists)?;
    Ok(())
}
