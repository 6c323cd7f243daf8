//! Calls read and replies written while memory is refused.

use super::{begin, each_word, end, opened, text_of};
use crate::changing::assert_may_change;
use cvl_calls::step;
use cvl_text::{Call, ReadFault, Reply};
use scan_kernels::Sequential;
use std::alloc::{Alloc, Global};
use std::process::Abort;
use vector_memory::Memory;

/// The call of a line. Where memory is refused it is read again.
fn read<R: Abort + Alloc<A = Global> + Print>(rt: &R, line: &str) -> Call {
    begin(rt);
    let read = Call::read(rt.alloc(), line.as_bytes());
    end(rt);
    match read {
        Ok(call) => call,
        Err(fault) => {
            assert!(rt; matches!(fault, ReadFault::OutOfMemory));
            Call::read(rt.alloc(), line.as_bytes()).expect(rt, "a call")
        }
    }
}

/// Writes a reply. Where memory is refused, what was written is a beginning of the whole text.
fn writes<R: Abort + Alloc<A = Global> + Print>(rt: &R, reply: &Reply, whole: &[u8]) {
    let mut text = Vec::new(rt.alloc());
    begin(rt);
    let written = reply.write(&mut text);
    end(rt);
    assert!(rt; whole.starts_with(text.as_slice()));
    assert!(rt; written.is_err() || text.len() == whole.len());
}

#[test]
fn reads_each_word(rt: HostRuntime) {
    for line in each_word().lines() {
        read(&rt, line);
    }
}

/// Runs a line, and writes its reply.
fn writes_reply_to<R: Abort + Alloc<A = Global> + Print>(rt: &R, memory: &mut Memory, line: &str) {
    let call = Call::read(rt.alloc(), line.as_bytes()).expect(rt, "a call");
    assert_may_change(rt, memory);
    let reply = step(&Sequential, rt.alloc(), memory, &call).expect(rt, "memory");
    writes(rt, &reply, &text_of(rt, &reply));
}

#[test]
fn writes_each_reply(rt: HostRuntime) {
    let mut memory = opened(&rt);
    for line in each_word().lines() {
        writes_reply_to(&rt, &mut memory, line);
    }
}
