//! The parts of a step while memory is refused: a call is judged, its kernel is run, alone or joined, and what that made is
//! stored or replied.

ghost use Rattle.std.specs.Prelude.{◌≡◌, IfSome, IsTrue};
ghost use Rattle.cvl_text.specs.Tasks.{task_of};
ghost use Rattle.cvl_calls.specs.Judging.{IsReady, made, word_of};
ghost use Rattle.cvl_calls.specs.Outcomes.{IsFittingEffect, effect_of};
ghost use Rattle.cvl_calls.specs.Runs.{runs_kernel};

use super::calls::{agrees, settled};
use super::{begin, each_word, end, memory_text, opened, replied};
use crate::changing::assert_may_change;
use cvl_calls::{
    Judged, Product, Spare, Stop, apply, apply_with, judge, run, run_joined, run_with, runs_kernel,
    work_with,
};
use cvl_text::{Call, Word, call_word, target};
use scan_kernels::{Meter, Sequential};
use std::alloc::{Alloc, Global};
use std::process::Abort;
use vector_memory::{Memory, OutOfMemory};

/// A call that was judged. None where memory is refused.
fn judged<'a, R: Abort + Alloc<A = Global> + Print>(
    rt: &R,
    memory: &'a Memory,
    call: &'a Call,
) -> Option<Judged<'a>>
    ensures ready { IfSome result IsReady }
    ensures word { IfSome result (λ judged. word_of judged ≡ (task_of call.now).word) }
    ensures fits { IfSome result (λ judged. IsFittingEffect memory.now.limit (made judged)) }
{
    begin(rt);
    let judged = judge(rt.alloc(), memory, call);
    end(rt);
    match judged {
        Ok(judged) => Some(judged),
        Err(Stop::OutOfMemory) => None,
        Err(Stop::Fault(_)) => panic!(rt; "a fault"),
    }
}

/// What a call makes, with a vector that was kept or without. None where memory is refused.
fn product<R: Abort + Alloc<A = Global> + Print>(
    rt: &R,
    spare: Option<&mut Spare>,
    memory: &Memory,
    call: &Call,
) -> Option<Product>
    ensures { IfSome result (λ product. IsFittingEffect memory.now.limit (effect_of product)) }
{
    let judged = judged(rt, memory, call)?;
    let mut meter = Meter::new();
    begin(rt);
    let product = match spare {
        Some(spare) => run_with(&Sequential, rt.alloc(), &mut meter, spare, judged),
        None => run(&Sequential, rt.alloc(), &mut meter, judged),
    };
    end(rt);
    product.ok()
}

/// Runs a line by its parts.
fn runs_by_parts<R: Abort + Alloc<A = Global> + Print>(
    rt: &R,
    memory: &mut Memory,
    line: &str,
) -> Vec<u8> {
    let before = memory_text(rt, memory);
    let call = Call::read(rt.alloc(), line.as_bytes()).expect(rt, "a call");
    let Some(product) = product(rt, None, memory, &call) else {
        return settled(rt, memory, line, &before, Err(OutOfMemory));
    };
    assert_may_change(rt, memory);
    begin(rt);
    let reply = apply(memory, target(&call), product);
    end(rt);
    settled(rt, memory, line, &before, reply)
}

/// Runs a line by its parts, with vectors that were kept.
fn runs_by_parts_with<R: Abort + Alloc<A = Global> + Print>(
    rt: &R,
    spare: &mut Spare,
    memory: &mut Memory,
    line: &str,
) -> Vec<u8> {
    let before = memory_text(rt, memory);
    let call = Call::read(rt.alloc(), line.as_bytes()).expect(rt, "a call");
    let Some(product) = product(rt, Some(spare), memory, &call) else {
        return settled(rt, memory, line, &before, Err(OutOfMemory));
    };
    assert_may_change(rt, memory);
    begin(rt);
    let reply = apply_with(spare, memory, target(&call), product);
    end(rt);
    settled(rt, memory, line, &before, reply)
}

fn runs_each<R: Abort + Alloc<A = Global> + Print>(
    rt: &R,
    memory: &mut Memory,
    other: &mut Memory,
) {
    for line in each_word().lines() {
        let text = runs_by_parts(rt, memory, line);
        agrees(rt, memory, other, line, &text);
    }
}

#[test]
fn runs_each_part(rt: HostRuntime) {
    let (mut memory, mut other) = (opened(&rt), opened(&rt));
    runs_each(&rt, &mut memory, &mut other);
}

fn runs_each_with<R: Abort + Alloc<A = Global> + Print>(
    rt: &R,
    spare: &mut Spare,
    memory: &mut Memory,
    other: &mut Memory,
) {
    for line in each_word().lines() {
        let text = runs_by_parts_with(rt, spare, memory, line);
        agrees(rt, memory, other, line, &text);
    }
}

#[test]
fn runs_each_part_with_what_was_kept(rt: HostRuntime) {
    let (mut memory, mut other) = (opened(&rt), opened(&rt));
    let mut spare = Spare::new(rt.alloc());
    runs_each_with(&rt, &mut spare, &mut memory, &mut other);
}

/// Does the work of a line with a vector that was kept, which no fault may stop.
fn works<R: Abort + Alloc<A = Global> + Print>(
    rt: &R,
    spare: &mut Spare,
    memory: &Memory,
    line: &str,
) {
    let call = Call::read(rt.alloc(), line.as_bytes()).expect(rt, "a call");
    let mut meter = Meter::new();
    begin(rt);
    let worked = work_with(&Sequential, rt.alloc(), &mut meter, spare, memory, &call);
    end(rt);
    let is_right = match &worked {
        Ok(_) => true,
        Err(Stop::OutOfMemory) => meter.runs() == 0,
        Err(Stop::Fault(_)) => false,
    };
    assert!(rt; is_right);
}

fn works_on_each<R: Abort + Alloc<A = Global> + Print>(
    rt: &R,
    spare: &mut Spare,
    memory: &mut Memory,
) {
    for line in each_word().lines() {
        works(rt, spare, memory, line);
        replied(rt, memory, line);
    }
}

#[test]
fn works_with_what_was_kept(rt: HostRuntime) {
    let mut memory = opened(&rt);
    let mut spare = Spare::new(rt.alloc());
    works_on_each(&rt, &mut spare, &mut memory);
}

/// What a call makes, as text.
fn product_text<R: Abort + Alloc<A = Global>>(rt: &R, judged: Judged<'_>) -> String
    requires { IsReady judged }
{
    let product = run(&Sequential, rt.alloc(), &mut Meter::new(), judged).expect(rt, "memory");
    format!(in rt.alloc(); "{product:?}").expect(rt, "memory")
}

/// Asserts that each of two products is this text.
fn are_both<R: Abort + Alloc<A = Global>>(rt: &R, products: &[Product], wanted: &str) {
    assert!(rt; products.len() == 2);
    for product in products {
        let text = format!(in rt.alloc(); "{product:?}").expect(rt, "memory");
        assert!(rt; text.as_str() == wanted);
    }
}

/// Runs a call twice as one kernel run. Asserts that each makes what it makes by itself, or that no kernel was counted.
fn joins<R: Abort + Alloc<A = Global> + Print>(rt: &R, word: Word, judged: Judged<'_>)
    requires ready { IsReady judged }
    requires word { word_of judged ≡ word }
    requires kernel { IsTrue (runs_kernel word) }
{
    let wanted = product_text(rt, judged);
    let mut meter = Meter::new();
    begin(rt);
    let products = run_joined(&Sequential, rt.alloc(), &mut meter, word, &[judged, judged]);
    end(rt);
    let Ok(products) = products else {
        assert!(rt; meter.runs() == 0);
        return;
    };
    assert!(rt; meter.runs() == 1);
    are_both(rt, &products, wanted.as_str());
}

/// Runs the call of a line twice as one kernel run, if it runs a kernel.
fn joins_with_itself<R: Abort + Alloc<A = Global> + Print>(rt: &R, memory: &Memory, line: &str) {
    let call = Call::read(rt.alloc(), line.as_bytes()).expect(rt, "a call");
    let word = call_word(&call);
    if !runs_kernel(word) {
        return;
    }
    let Ok(judged) = judge(rt.alloc(), memory, &call) else {
        panic!(rt; "memory, or a fault");
    };
    joins(rt, word, judged);
}

#[test]
fn joins_each_word(rt: HostRuntime) {
    let mut memory = opened(&rt);
    for line in each_word().lines() {
        joins_with_itself(&rt, &memory, line);
        replied(&rt, &mut memory, line);
    }
}
