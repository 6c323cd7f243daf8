//! Reductions of all items, of which each is a reply.

ghost use Rattle.std.specs.Prelude.{◌≡◌, ◌<◌, ◌≤◌, ℕ, Err, Ok, Some, length, map, slice_get, take, IfErr, IfOk, OnOk};
ghost use Rattle.item_operations.specs.BooleanScans.{combine_b, unit_b};
ghost use Rattle.item_operations.specs.IntegerScans.{combine_z, unit_z};
ghost use Rattle.cvl_text.specs.declared.fault.Fault.{Fault};
ghost use Rattle.scan_kernels.specs.Metering.{CountsRun};
ghost use Rattle.scan_kernels.specs.Segmented.{reduced};
ghost use Rattle.cvl_text.specs.Answers.{BoolOf, IntOf};
ghost use Rattle.cvl_text.specs.declared.word.AskWord.TheVariants as asks;
ghost use Rattle.cvl_text.specs.declared.word.Word.TheVariants as words;
ghost use Rattle.cvl_calls.specs.Joined.{effects_of};
ghost use Rattle.cvl_calls.specs.Judging.{made, word_of};
ghost use Rattle.cvl_calls.specs.Outcomes.{Answers};

use crate::joining::few::{FEW, Few, are_few};
use crate::joining::group::{Group, Item};
use crate::judged::Judged;
use crate::made::Made;
use crate::shapes::scans::{reduce_bools, reduce_ints};
use crate::shelves::Shelves;
use crate::stop::Stop;
use cvl_text::{Call, ScanB, ScanZ};
use scan_kernels::joined::{reduce_whole_b_joined, reduce_whole_z_joined};
use scan_kernels::{Execution, Kept, Meter};
use std::alloc::Global;

/// `OP_ruz`: the integers of each call as one, by one kernel run.
pub(crate) fn reduced_ints<'a, G: Group>(
    execution: &impl Execution,
    alloc: Global,
    meter: &mut Meter,
    shelves: &mut Shelves,
    op: ScanZ,
    group: &'a G,
    made: &mut Made,
) -> Result<(), Stop>
    requires alike { G.IsAlike group.now }
    requires word { G.word group.now ≡ words.Ask (asks.RedZ op) }
    ensures makes { OnOk result (map (λ effect. Ok effect) (effects_of made.new) ≡ G.works group.now) }
    ensures fault { (fault : Fault) → result ≡ Err (Stop.Fault fault) → (place : ℕ) × (slice_get (G.works group.now) place ≡ Some (Err fault)) }
    ensures counted { CountsRun result meter.old meter.new }
{
    if are_few(group.count()) {
        let mut parts = Few::of(ints_at(op, group, 0)?);
        put_ints(op, group, &mut parts)?;
        let few = parts.as_slice();
        return int_replies(execution, alloc, meter, shelves, op, few, made);
    }
    let parts = ints_of(alloc, op, group)?;
    int_replies(execution, alloc, meter, shelves, op, &parts, made)
}

/// Lists of integers, each as one, by one kernel run. The result takes a vector that was kept.
#[inline(always)]
fn int_replies(
    execution: &impl Execution,
    alloc: Global,
    meter: &mut Meter,
    shelves: &mut Shelves,
    op: ScanZ,
    parts: &[&[i64]],
    made: &mut Made,
) -> Result<(), Stop>
    ensures makes { OnOk result (effects_of made.new ≡ map (λ p. Answers (IntOf (reduced (combine_z op) (unit_z op) p.now))) parts.now) }
    ensures memory { IfErr result (λ stop. stop ≡ Stop.OutOfMemory) }
    ensures counted { CountsRun result meter.old meter.new }
{
    let kept = Kept::new(shelves.take_numbers(alloc));
    *made = Made::Numbers(reduce_whole_z_joined(execution, kept, meter, op, parts)?);
    Ok(())
}

/// The integers of the call at a place, unless it has a fault.
fn ints_at<'a, G: Group>(op: ScanZ, group: &'a G, place: usize) -> Result<&'a [i64], Stop>
    requires alike { G.IsAlike group.now }
    requires word { G.word group.now ≡ words.Ask (asks.RedZ op) }
    requires place { place < length (G.works group.now) }
    ensures makes { IfOk result (λ p. slice_get (G.works group.now) place ≡ Some (Ok (Answers (IntOf (reduced (combine_z op) (unit_z op) p.now))))) }
    ensures fault { (fault : Fault) → result ≡ Err (Stop.Fault fault) → slice_get (G.works group.now) place ≡ Some (Err fault) }
{
    match group.item(place) {
        Item::Judged(judged) => Ok(ints_in(op, judged)),
        Item::Call(memory, Call::RedZ { a, .. }) => Ok(ints_in(op, &reduce_ints(memory, op, a)?)),
        Item::Call(_, _) => unreachable!(),
    }
}

/// The integers of a call that was judged.
fn ints_in<'a>(op: ScanZ, judged: &Judged<'a>) -> &'a [i64]
    requires { word_of judged.now ≡ words.Ask (asks.RedZ op) }
    ensures { made judged.now ≡ Answers (IntOf (reduced (combine_z op) (unit_z op) result.now)) }
{
    match judged {
        Judged::ReduceInts(_, xs) => *xs,
        _ => unreachable!(),
    }
}

/// Puts the integers of the calls behind the first, of one to four calls, behind those of the first.
fn put_ints<'a, G: Group>(op: ScanZ, group: &'a G, parts: &mut Few<&'a [i64]>) -> Result<(), Stop>
    requires alike { G.IsAlike group.now }
    requires word { G.word group.now ≡ words.Ask (asks.RedZ op) }
    requires few { length (G.works group.now) ≤ FEW }
    requires one { length parts.old ≡ 1 }
    requires made { map (λ p. Ok (Answers (IntOf (reduced (combine_z op) (unit_z op) p.now)))) parts.old ≡ take 1 (G.works group.now) }
    ensures makes { OnOk result (map (λ p. Ok (Answers (IntOf (reduced (combine_z op) (unit_z op) p.now)))) parts.new ≡ G.works group.now) }
    ensures fault { (fault : Fault) → result ≡ Err (Stop.Fault fault) → (place : ℕ) × (slice_get (G.works group.now) place ≡ Some (Err fault)) }
{
    for place in 1..group.count() {
        parts.push(ints_at(op, group, place)?);
    }
    Ok(())
}

/// The integers of each call.
fn ints_of<'a, G: Group>(alloc: Global, op: ScanZ, group: &'a G) -> Result<Vec<&'a [i64]>, Stop>
    requires alike { G.IsAlike group.now }
    requires word { G.word group.now ≡ words.Ask (asks.RedZ op) }
    ensures makes { IfOk result (λ parts. map (λ p. Ok (Answers (IntOf (reduced (combine_z op) (unit_z op) p.now)))) parts.items ≡ G.works group.now) }
    ensures fault { (fault : Fault) → result ≡ Err (Stop.Fault fault) → (place : ℕ) × (slice_get (G.works group.now) place ≡ Some (Err fault)) }
{
    let count = group.count();
    let mut parts = Vec::with_capacity(alloc, count)?;
    for place in 0..count {
        parts.push_reserved(ints_at(op, group, place)?);
    }
    Ok(parts)
}

/// `OP_rub`: the truth values of each call as one, by one kernel run.
pub(crate) fn reduced_bools<'a, G: Group>(
    execution: &impl Execution,
    alloc: Global,
    meter: &mut Meter,
    shelves: &mut Shelves,
    op: ScanB,
    group: &'a G,
    made: &mut Made,
) -> Result<(), Stop>
    requires alike { G.IsAlike group.now }
    requires word { G.word group.now ≡ words.Ask (asks.RedB op) }
    ensures makes { OnOk result (map (λ effect. Ok effect) (effects_of made.new) ≡ G.works group.now) }
    ensures fault { (fault : Fault) → result ≡ Err (Stop.Fault fault) → (place : ℕ) × (slice_get (G.works group.now) place ≡ Some (Err fault)) }
    ensures counted { CountsRun result meter.old meter.new }
{
    if are_few(group.count()) {
        let mut parts = Few::of(bools_at(op, group, 0)?);
        put_bools(op, group, &mut parts)?;
        let few = parts.as_slice();
        return bool_replies(execution, alloc, meter, shelves, op, few, made);
    }
    let parts = bools_of(alloc, op, group)?;
    bool_replies(execution, alloc, meter, shelves, op, &parts, made)
}

/// Lists of truth values, each as one, by one kernel run. The result takes a vector that was kept.
#[inline(always)]
fn bool_replies(
    execution: &impl Execution,
    alloc: Global,
    meter: &mut Meter,
    shelves: &mut Shelves,
    op: ScanB,
    parts: &[&[bool]],
    made: &mut Made,
) -> Result<(), Stop>
    ensures makes { OnOk result (effects_of made.new ≡ map (λ p. Answers (BoolOf (reduced (combine_b op) (unit_b op) p.now))) parts.now) }
    ensures memory { IfErr result (λ stop. stop ≡ Stop.OutOfMemory) }
    ensures counted { CountsRun result meter.old meter.new }
{
    let kept = Kept::new(shelves.take_truths(alloc));
    *made = Made::Truths(reduce_whole_b_joined(execution, kept, meter, op, parts)?);
    Ok(())
}

/// The truth values of the call at a place, unless it has a fault.
fn bools_at<'a, G: Group>(op: ScanB, group: &'a G, place: usize) -> Result<&'a [bool], Stop>
    requires alike { G.IsAlike group.now }
    requires word { G.word group.now ≡ words.Ask (asks.RedB op) }
    requires place { place < length (G.works group.now) }
    ensures makes { IfOk result (λ p. slice_get (G.works group.now) place ≡ Some (Ok (Answers (BoolOf (reduced (combine_b op) (unit_b op) p.now))))) }
    ensures fault { (fault : Fault) → result ≡ Err (Stop.Fault fault) → slice_get (G.works group.now) place ≡ Some (Err fault) }
{
    match group.item(place) {
        Item::Judged(judged) => Ok(bools_in(op, judged)),
        Item::Call(memory, Call::RedB { a, .. }) => Ok(bools_in(op, &reduce_bools(memory, op, a)?)),
        Item::Call(_, _) => unreachable!(),
    }
}

/// The truth values of a call that was judged.
fn bools_in<'a>(op: ScanB, judged: &Judged<'a>) -> &'a [bool]
    requires { word_of judged.now ≡ words.Ask (asks.RedB op) }
    ensures { made judged.now ≡ Answers (BoolOf (reduced (combine_b op) (unit_b op) result.now)) }
{
    match judged {
        Judged::ReduceBools(_, xs) => *xs,
        _ => unreachable!(),
    }
}

/// Puts the truth values of the calls behind the first, of one to four calls, behind those of the first.
fn put_bools<'a, G: Group>(op: ScanB, group: &'a G, parts: &mut Few<&'a [bool]>) -> Result<(), Stop>
    requires alike { G.IsAlike group.now }
    requires word { G.word group.now ≡ words.Ask (asks.RedB op) }
    requires few { length (G.works group.now) ≤ FEW }
    requires one { length parts.old ≡ 1 }
    requires made { map (λ p. Ok (Answers (BoolOf (reduced (combine_b op) (unit_b op) p.now)))) parts.old ≡ take 1 (G.works group.now) }
    ensures makes { OnOk result (map (λ p. Ok (Answers (BoolOf (reduced (combine_b op) (unit_b op) p.now)))) parts.new ≡ G.works group.now) }
    ensures fault { (fault : Fault) → result ≡ Err (Stop.Fault fault) → (place : ℕ) × (slice_get (G.works group.now) place ≡ Some (Err fault)) }
{
    for place in 1..group.count() {
        parts.push(bools_at(op, group, place)?);
    }
    Ok(())
}

/// The truth values of each call.
fn bools_of<'a, G: Group>(alloc: Global, op: ScanB, group: &'a G) -> Result<Vec<&'a [bool]>, Stop>
    requires alike { G.IsAlike group.now }
    requires word { G.word group.now ≡ words.Ask (asks.RedB op) }
    ensures makes { IfOk result (λ parts. map (λ p. Ok (Answers (BoolOf (reduced (combine_b op) (unit_b op) p.now)))) parts.items ≡ G.works group.now) }
    ensures fault { (fault : Fault) → result ≡ Err (Stop.Fault fault) → (place : ℕ) × (slice_get (G.works group.now) place ≡ Some (Err fault)) }
{
    let count = group.count();
    let mut parts = Vec::with_capacity(alloc, count)?;
    for place in 0..count {
        parts.push_reserved(bools_at(op, group, place)?);
    }
    Ok(parts)
}
