//! Memories, values and segment lists while memory is refused.

ghost use Rattle.vector_memory.specs.Contents.{content_of};
ghost use Rattle.vector_memory.specs.States.{FitsLimits, MayChange};

use super::{ROOM, begin, end, holds, memory_text, opened};
use crate::changing::assert_may_change;
use segment_desc::{SegFault, Segd};
use std::alloc::{Alloc, Global};
use std::process::Abort;
use vector_memory::{Memory, Name, StoreFault, Value};

/// A new memory, made again where memory is refused.
fn new_memory<R: Abort + Alloc<A = Global> + Print>(rt: &R) -> Memory {
    begin(rt);
    let memory = Memory::new(rt.alloc(), ROOM);
    end(rt);
    match memory {
        Ok(memory) => memory,
        Err(_) => Memory::new(rt.alloc(), ROOM).expect(rt, "memory"),
    }
}

/// A value of one item.
fn seven<R: Abort + Alloc<A = Global>>(rt: &R, limit: usize) -> Value
    ensures { FitsLimits limit (content_of result) }
{
    assert!(rt; limit > 0, "no value fits");
    Value::Ints(Vec::from_slice(rt.alloc(), &[7]).expect(rt, "memory"))
}

/// The name of this number.
fn numbered<R: Abort + Alloc<A = Global>>(rt: &R, number: u32) -> Name {
    let text = format!(in rt.alloc(); "n{number}").expect(rt, "memory");
    Name::read(text.as_bytes()).expect(rt, "no name")
}

/// Stores a value under a new name, by one of the two calls for it.
fn store(
    memory: &mut Memory,
    name: Name,
    value: Value,
    is_given_back: bool,
) -> Result<(), StoreFault>
    requires fits { FitsLimits memory.old.limit (content_of value) }
    requires may_change { MayChange memory.old }
{
    if !is_given_back {
        return memory.store(name, value);
    }
    match memory.replace(name, value) {
        Ok(_) => Ok(()),
        Err(fault) => Err(fault),
    }
}

/// Stores a value under a new name. Where memory is refused the memory has not changed, and the value is stored again.
fn stores<R: Abort + Alloc<A = Global> + Print>(
    rt: &R,
    memory: &mut Memory,
    name: Name,
    is_given_back: bool,
) {
    let before = memory_text(rt, memory);
    let value = seven(rt, memory.limit());
    assert_may_change(rt, memory);
    begin(rt);
    let stored = store(memory, name, value, is_given_back);
    end(rt);
    let Err(fault) = stored else {
        return;
    };
    assert!(rt; fault == StoreFault::OutOfMemory);
    holds(rt, memory, &before);
    let value = seven(rt, memory.limit());
    assert_may_change(rt, memory);
    memory.store(name, value).expect(rt, "memory");
}

/// As many names as make the map grow twice. Every other one is stored by the call that gives back what it replaced.
#[test]
fn stores_new_names(rt: HostRuntime) {
    let mut memory = new_memory(&rt);
    for number in 0..70 {
        let name = numbered(&rt, number);
        stores(&rt, &mut memory, name, number % 2 == 1);
    }
    assert!(rt; memory.len() == 70 && memory.cells() == 70);
}

#[test]
fn copies_values(rt: HostRuntime) {
    let memory = opened(&rt);
    for (_, value) in memory.iter() {
        begin(&rt);
        let copy = value.try_copy();
        end(&rt);
        assert!(rt; copy.map_or(true, |copy| copy == *value));
    }
}

/// Makes a segment list. Where memory is refused it is made again.
fn made<R: Abort + Alloc<A = Global> + Print>(rt: &R, lengths: &[i64]) -> Segd {
    begin(rt);
    let made = Segd::from_lengths(rt.alloc(), lengths);
    end(rt);
    match made {
        Ok(made) => made,
        Err(fault) => {
            assert!(rt; fault == SegFault::OutOfMemory);
            Segd::from_lengths(rt.alloc(), lengths).expect(rt, "a segment list")
        }
    }
}

/// Asserts that a segment list has these lengths.
fn has_lengths<R: Abort>(rt: &R, segments: &Segd, lengths: &[usize]) {
    assert!(rt; segments.lengths() == lengths);
}

#[test]
fn makes_one_segment(rt: HostRuntime) {
    begin(&rt);
    let one = Segd::one(rt.alloc(), 9);
    end(&rt);
    match one {
        Ok(one) => has_lengths(&rt, &one, &[9]),
        Err(fault) => assert!(rt; fault == SegFault::OutOfMemory),
    }
}

#[test]
fn copies_a_segment_list(rt: HostRuntime) {
    let segments = made(&rt, &[1, 5]);
    begin(&rt);
    let copy = segments.try_copy();
    end(&rt);
    if let Ok(copy) = copy {
        has_lengths(&rt, &copy, &[1, 5]);
    }
}

#[test]
fn joins_segment_lists(rt: HostRuntime) {
    let mut first = made(&rt, &[2, 0, 4]);
    let second = made(&rt, &[1, 5]);
    begin(&rt);
    let joined = first.join(&second);
    end(&rt);
    let wanted: &[usize] = if joined.is_ok() {
        &[2, 0, 4, 1, 5]
    } else {
        &[2, 0, 4]
    };
    has_lengths(&rt, &first, wanted);
}

/// The lengths go behind those of a list, or the list stays as it is.
#[test]
fn lists_lengths(rt: HostRuntime) {
    let segments = made(&rt, &[2, 0, 4]);
    let mut list = Vec::from_slice(rt.alloc(), &[9]).expect(&rt, "memory");
    begin(&rt);
    let listed = segments.lengths_into(&mut list);
    end(&rt);
    let wanted: &[i64] = if listed.is_ok() { &[9, 2, 0, 4] } else { &[9] };
    assert!(rt; list.as_slice() == wanted);
}
