//! Alike calls, run together: one kernel run over their joined operands, which are gathered and not copied.

ghost use Rattle.std.specs.Prelude.{◌≡◌, ℕ, Err, Ok, Some, map, slice_get, All, IfOk, IsTrue, OnOk};
ghost use Rattle.cvl_text.specs.declared.fault.Fault.{Fault};
ghost use Rattle.scan_kernels.specs.Metering.{CountsRun};
ghost use Rattle.cvl_calls.specs.Joined.{effects_of};
ghost use Rattle.cvl_calls.specs.Judging.{IsReady, made, word_of};
ghost use Rattle.cvl_calls.specs.Outcomes.{effect_of};
ghost use Rattle.cvl_calls.specs.Runs.{runs_kernel};

mod elementwise;
mod few;
mod group;
mod moves;
mod over;
mod packs;
mod parts;
mod reductions;
mod scans;
mod spreads;
mod vectors;

use crate::judged::Judged;
use crate::made::{Made, products_of};
use crate::product::Product;
use crate::shelves::Shelves;
use crate::stop::Stop;
use cvl_text::{AskWord, Kind, OneWord, ThreeWord, TwoWord, Word};
use group::AllJudged;
pub use group::{Group, Item};
pub(crate) use over::run_group_over;
use permute_kernels::{
    BackPermute, Gather, Pack, PackLengths, PackSegments, Permute, PermuteWhole,
};
use reductions::{reduced_bools, reduced_ints};
use scan_kernels::joined::{
    Distribute, Index, IndexSegments, Number, ReduceBoolSegments, ReduceIntSegments, Repeat,
    ScanBoolSegments, ScanBools, ScanIntSegments, ScanInts, Select, Truth,
};
use scan_kernels::{Execution, Meter};
use segment_desc::{OutOfMemory, Segd};
use std::alloc::Global;
use vectors::{bools, ints};

/// Makes what is left to be done of calls of one word: one kernel run over their joined operands, by which the meter rises
/// once. What each of them makes stands in their order. For want of memory nothing is made, and the meter stays.
pub fn run_joined(
    execution: &impl Execution,
    alloc: Global,
    meter: &mut Meter,
    word: Word,
    group: &[Judged<'_>],
) -> Result<Vec<Product>, OutOfMemory>
    requires ready { All IsReady group.now }
    requires alike { All (λ judged. word_of judged ≡ word) group.now }
    requires kernel { IsTrue (runs_kernel word) }
    ensures makes { IfOk result (λ products. map effect_of products.items ≡ map made group.now) }
    ensures counted { CountsRun result meter.old meter.new }
{
    run_joined_with(execution, alloc, meter, &mut Shelves::new(), word, group)
}

/// `run_joined`, whose results may lie in vectors that were kept for joined runs.
pub fn run_joined_with(
    execution: &impl Execution,
    alloc: Global,
    meter: &mut Meter,
    shelves: &mut Shelves,
    word: Word,
    group: &[Judged<'_>],
) -> Result<Vec<Product>, OutOfMemory>
    requires ready { All IsReady group.now }
    requires alike { All (λ judged. word_of judged ≡ word) group.now }
    requires kernel { IsTrue (runs_kernel word) }
    ensures makes { IfOk result (λ products. map effect_of products.items ≡ map made group.now) }
    ensures counted { CountsRun result meter.old meter.new }
{
    let products = Vec::with_capacity(alloc, group.len())?;
    let judged = AllJudged { word, group };
    let mut made = Made::nothing(alloc);
    match run_group(execution, alloc, meter, shelves, word, &judged, &mut made) {
        Ok(()) => Ok(products_of(products, made)),
        Err(_) => Err(OutOfMemory),
    }
}

/// Makes what calls of one word make: one kernel run over their joined operands, by which the meter rises once. Its results may lie in
/// vectors that were kept for joined runs. Where a call has a fault or memory is wanted nothing is made, and the meter stays.
#[inline(always)]
pub fn run_group<G: Group>(
    execution: &impl Execution,
    alloc: Global,
    meter: &mut Meter,
    shelves: &mut Shelves,
    word: Word,
    group: &G,
    made: &mut Made,
) -> Result<(), Stop>
    requires alike { G.IsAlike group.now }
    requires word { G.word group.now ≡ word }
    requires kernel { IsTrue (runs_kernel word) }
    ensures makes { OnOk result (map (λ effect. Ok effect) (effects_of made.new) ≡ G.works group.now) }
    ensures fault { (fault : Fault) → result ≡ Err (Stop.Fault fault) → (place : ℕ) × (slice_get (G.works group.now) place ≡ Some (Err fault)) }
    ensures counted { CountsRun result meter.old meter.new }
{
    match word {
        Word::Ask(inner) => ask(execution, alloc, meter, shelves, inner, group, made),
        Word::One(inner) => one(execution, alloc, meter, shelves, inner, group, made),
        Word::Two(inner) => two(execution, alloc, meter, shelves, inner, group, made),
        Word::Three(inner) => three(execution, alloc, meter, shelves, inner, group, made),
        Word::BckSeg(kind) => four(execution, alloc, meter, shelves, kind, group, made),
        Word::DisZ => ints(execution, alloc, meter, shelves, Repeat, group, made),
        Word::DisB => bools(execution, alloc, meter, shelves, Repeat, group, made),
        Word::Ind => ints(execution, alloc, meter, shelves, Index, group, made),
        Word::SetInts => unreachable!(),
        Word::SetBools => unreachable!(),
        Word::Alo => unreachable!(),
        Word::Ext => unreachable!(),
        Word::Rep => unreachable!(),
    }
}

#[inline(always)]
fn ask<G: Group>(
    execution: &impl Execution,
    alloc: Global,
    meter: &mut Meter,
    shelves: &mut Shelves,
    word: AskWord,
    group: &G,
    made: &mut Made,
) -> Result<(), Stop>
    requires alike { G.IsAlike group.now }
    requires word { G.word group.now ≡ Word.Ask word }
    requires kernel { IsTrue (runs_kernel (Word.Ask word)) }
    ensures makes { OnOk result (map (λ effect. Ok effect) (effects_of made.new) ≡ G.works group.now) }
    ensures fault { (fault : Fault) → result ≡ Err (Stop.Fault fault) → (place : ℕ) × (slice_get (G.works group.now) place ≡ Some (Err fault)) }
    ensures counted { CountsRun result meter.old meter.new }
{
    match word {
        AskWord::RedZ(op) => reduced_ints(execution, alloc, meter, shelves, op, group, made),
        AskWord::RedB(op) => reduced_bools(execution, alloc, meter, shelves, op, group, made),
        AskWord::Get => unreachable!(),
        AskWord::Free => unreachable!(),
        AskWord::Len => unreachable!(),
    }
}

#[inline(always)]
fn one<G: Group>(
    execution: &impl Execution,
    alloc: Global,
    meter: &mut Meter,
    shelves: &mut Shelves,
    inner: OneWord,
    group: &G,
    made: &mut Made,
) -> Result<(), Stop>
    requires alike { G.IsAlike group.now }
    requires kernel { IsTrue (runs_kernel (G.word group.now)) }
    requires word { G.word group.now ≡ Word.One inner }
    ensures makes { OnOk result (map (λ effect. Ok effect) (effects_of made.new) ≡ G.works group.now) }
    ensures fault { (fault : Fault) → result ≡ Err (Stop.Fault fault) → (place : ℕ) × (slice_get (G.works group.now) place ≡ Some (Err fault)) }
    ensures counted { CountsRun result meter.old meter.new }
{
    match inner {
        OneWord::MapZ1(op) => ints(execution, alloc, meter, shelves, op, group, made),
        OneWord::MapB1(op) => bools(execution, alloc, meter, shelves, op, group, made),
        OneWord::Boo => bools(execution, alloc, meter, shelves, Truth, group, made),
        OneWord::IntOf => ints(execution, alloc, meter, shelves, Number, group, made),
        OneWord::ScanZ(op) => ints(execution, alloc, meter, shelves, ScanInts(op), group, made),
        OneWord::ScanB(op) => bools(execution, alloc, meter, shelves, ScanBools(op), group, made),
        OneWord::Mov => unreachable!(),
        OneWord::MakeSegs => unreachable!(),
        OneWord::LenSegs => unreachable!(),
    }
}

#[inline(always)]
fn two<G: Group>(
    execution: &impl Execution,
    alloc: Global,
    meter: &mut Meter,
    shelves: &mut Shelves,
    inner: TwoWord,
    group: &G,
    made: &mut Made,
) -> Result<(), Stop>
    requires alike { G.IsAlike group.now }
    requires word { G.word group.now ≡ Word.Two inner }
    ensures makes { OnOk result (map (λ effect. Ok effect) (effects_of made.new) ≡ G.works group.now) }
    ensures fault { (fault : Fault) → result ≡ Err (Stop.Fault fault) → (place : ℕ) × (slice_get (G.works group.now) place ≡ Some (Err fault)) }
    ensures counted { CountsRun result meter.old meter.new }
{
    match inner {
        TwoWord::MapZ2(op) => ints(execution, alloc, meter, shelves, op, group, made),
        TwoWord::CmpZ(op) => bools(execution, alloc, meter, shelves, op, group, made),
        TwoWord::MapB2(op) => bools(execution, alloc, meter, shelves, op, group, made),
        TwoWord::ScanSegZ(op) => ints(
            execution,
            alloc,
            meter,
            shelves,
            ScanIntSegments(op),
            group,
            made,
        ),
        TwoWord::ScanSegB(op) => bools(
            execution,
            alloc,
            meter,
            shelves,
            ScanBoolSegments(op),
            group,
            made,
        ),
        TwoWord::RedSegZ(op) => ints(
            execution,
            alloc,
            meter,
            shelves,
            ReduceIntSegments(op),
            group,
            made,
        ),
        TwoWord::RedSegB(op) => bools(
            execution,
            alloc,
            meter,
            shelves,
            ReduceBoolSegments(op),
            group,
            made,
        ),
        TwoWord::DisSeg(Kind::Z) => ints(execution, alloc, meter, shelves, Distribute, group, made),
        TwoWord::DisSeg(Kind::B) => bools(
            execution, alloc, meter, shelves, Distribute, group, made,
        ),
        TwoWord::Smp(Kind::Z) => ints(execution, alloc, meter, shelves, PermuteWhole, group, made),
        TwoWord::Smp(Kind::B) => bools(execution, alloc, meter, shelves, PermuteWhole, group, made),
        TwoWord::Bck(Kind::Z) => ints(execution, alloc, meter, shelves, Gather, group, made),
        TwoWord::Bck(Kind::B) => bools(execution, alloc, meter, shelves, Gather, group, made),
        TwoWord::Pck(Kind::Z) => ints(execution, alloc, meter, shelves, Pack, group, made),
        TwoWord::Pck(Kind::B) => bools(execution, alloc, meter, shelves, Pack, group, made),
        TwoWord::Pkl => ints(execution, alloc, meter, shelves, PackLengths, group, made),
    }
}

#[inline(always)]
fn three<G: Group>(
    execution: &impl Execution,
    alloc: Global,
    meter: &mut Meter,
    shelves: &mut Shelves,
    inner: ThreeWord,
    group: &G,
    made: &mut Made,
) -> Result<(), Stop>
    requires alike { G.IsAlike group.now }
    requires word { G.word group.now ≡ Word.Three inner }
    ensures makes { OnOk result (map (λ effect. Ok effect) (effects_of made.new) ≡ G.works group.now) }
    ensures fault { (fault : Fault) → result ≡ Err (Stop.Fault fault) → (place : ℕ) × (slice_get (G.works group.now) place ≡ Some (Err fault)) }
    ensures counted { CountsRun result meter.old meter.new }
{
    match inner {
        ThreeWord::Sel(Kind::Z) => ints(execution, alloc, meter, shelves, Select, group, made),
        ThreeWord::Sel(Kind::B) => bools(execution, alloc, meter, shelves, Select, group, made),
        ThreeWord::IndSeg => ints(execution, alloc, meter, shelves, IndexSegments, group, made),
        ThreeWord::SmpSeg(Kind::Z) => ints(execution, alloc, meter, shelves, Permute, group, made),
        ThreeWord::SmpSeg(Kind::B) => bools(execution, alloc, meter, shelves, Permute, group, made),
        ThreeWord::PckSeg(Kind::Z) => ints(
            execution,
            alloc,
            meter,
            shelves,
            PackSegments,
            group,
            made,
        ),
        ThreeWord::PckSeg(Kind::B) => bools(
            execution,
            alloc,
            meter,
            shelves,
            PackSegments,
            group,
            made,
        ),
    }
}

#[inline(always)]
fn four<G: Group>(
    execution: &impl Execution,
    alloc: Global,
    meter: &mut Meter,
    shelves: &mut Shelves,
    kind: Kind,
    group: &G,
    made: &mut Made,
) -> Result<(), Stop>
    requires alike { G.IsAlike group.now }
    requires word { G.word group.now ≡ Word.BckSeg kind }
    ensures makes { OnOk result (map (λ effect. Ok effect) (effects_of made.new) ≡ G.works group.now) }
    ensures fault { (fault : Fault) → result ≡ Err (Stop.Fault fault) → (place : ℕ) × (slice_get (G.works group.now) place ≡ Some (Err fault)) }
    ensures counted { CountsRun result meter.old meter.new }
{
    match kind {
        Kind::Z => ints(execution, alloc, meter, shelves, BackPermute, group, made),
        Kind::B => bools(execution, alloc, meter, shelves, BackPermute, group, made),
    }
}
