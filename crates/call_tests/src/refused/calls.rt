//! Steps on a memory while memory is refused, beside another memory that is refused nothing.

use super::{begin, each_word, end, holds, memory_text, opened, replied, text_of};
use crate::changing::assert_may_change;
use cvl_calls::{Spare, Stop, check, step_metered, step_with, work};
use cvl_text::{Call, Fault, Reply};
use scan_kernels::{Meter, Sequential};
use std::alloc::{Alloc, Global};
use std::process::Abort;
use vector_memory::{Memory, OutOfMemory};

/// What is replied to a line, as text. Where memory is refused the memory has not changed, and the line is run again.
pub(super) fn settled<R: Abort + Alloc<A = Global>>(
    rt: &R,
    memory: &mut Memory,
    line: &str,
    before: &[u8],
    reply: Result<Reply, OutOfMemory>,
) -> Vec<u8> {
    match reply {
        Ok(reply) => text_of(rt, &reply),
        Err(OutOfMemory) => {
            holds(rt, memory, before);
            replied(rt, memory, line)
        }
    }
}

/// Runs a line by a step with a meter.
fn stepped<R: Abort + Alloc<A = Global> + Print>(
    rt: &R,
    memory: &mut Memory,
    line: &str,
) -> Vec<u8> {
    let before = memory_text(rt, memory);
    let call = Call::read(rt.alloc(), line.as_bytes()).expect(rt, "a call");
    let mut meter = Meter::new();
    assert_may_change(rt, memory);
    begin(rt);
    let reply = step_metered(&Sequential, rt.alloc(), &mut meter, memory, &call);
    end(rt);
    assert!(rt; meter.runs() <= 1);
    settled(rt, memory, line, &before, reply)
}

/// Runs a line by a step whose result may lie in a vector that was kept.
fn stepped_with<R: Abort + Alloc<A = Global> + Print>(
    rt: &R,
    spare: &mut Spare,
    memory: &mut Memory,
    line: &str,
) -> Vec<u8> {
    let before = memory_text(rt, memory);
    let call = Call::read(rt.alloc(), line.as_bytes()).expect(rt, "a call");
    let mut meter = Meter::new();
    assert_may_change(rt, memory);
    begin(rt);
    let reply = step_with(&Sequential, rt.alloc(), &mut meter, spare, memory, &call);
    end(rt);
    settled(rt, memory, line, &before, reply)
}

/// Asserts that another memory replies to a line likewise, and that both hold the same.
pub(super) fn agrees<R: Abort + Alloc<A = Global>>(
    rt: &R,
    memory: &Memory,
    other: &mut Memory,
    line: &str,
    text: &[u8],
) {
    let wanted = replied(rt, other, line);
    assert!(rt; wanted.as_slice() == text);
    let held = memory_text(rt, other);
    holds(rt, memory, &held);
}

fn steps_on<R: Abort + Alloc<A = Global> + Print>(rt: &R, memory: &mut Memory, other: &mut Memory) {
    for line in each_word().lines() {
        let text = stepped(rt, memory, line);
        agrees(rt, memory, other, line, &text);
    }
}

#[test]
fn steps_on_a_memory(rt: HostRuntime) {
    let (mut memory, mut other) = (opened(&rt), opened(&rt));
    steps_on(&rt, &mut memory, &mut other);
}

fn steps_on_with<R: Abort + Alloc<A = Global> + Print>(
    rt: &R,
    spare: &mut Spare,
    memory: &mut Memory,
    other: &mut Memory,
) {
    for line in each_word().lines() {
        let text = stepped_with(rt, spare, memory, line);
        agrees(rt, memory, other, line, &text);
    }
}

#[test]
fn steps_with_what_was_kept(rt: HostRuntime) {
    let (mut memory, mut other) = (opened(&rt), opened(&rt));
    let mut spare = Spare::new(rt.alloc());
    steps_on_with(&rt, &mut spare, &mut memory, &mut other);
}

/// Whether a check or a work that stopped did so for want of memory.
fn lacks_memory(stop: Stop) -> bool {
    matches!(stop, Stop::OutOfMemory)
}

/// Checks the call of a line and does its work. Asserts that no fault is told, where memory is refused and where it is not.
fn checks_and_works<R: Abort + Alloc<A = Global> + Print>(rt: &R, memory: &Memory, line: &str) {
    let call = Call::read(rt.alloc(), line.as_bytes()).expect(rt, "a call");
    let mut meter = Meter::new();
    begin(rt);
    let checked: Result<Option<Fault>, OutOfMemory> = check(rt.alloc(), memory, &call);
    let worked = work(&Sequential, rt.alloc(), &mut meter, memory, &call);
    end(rt);
    assert!(rt; checked.is_err() || checked == Ok(None));
    assert!(rt; worked.map_or_else(lacks_memory, |_| true));
}

#[test]
fn works_on_a_memory(rt: HostRuntime) {
    let mut memory = opened(&rt);
    for line in each_word().lines() {
        checks_and_works(&rt, &memory, line);
        replied(&rt, &mut memory, line);
    }
}
