//! What the tests ask of a port, and what they expect to be told.

use cvl_port::{Port, Told};
use std::alloc::Global;
use std::process::Abort;

/// The ports of a machine.
pub(crate) fn opened(rt: &impl Abort, alloc: Global, callers: u64) -> Vec<Port> {
    cvl_port::open(alloc, callers, 1000).expect(rt, "memory")
}

/// Whether the call of this line is left, served and answered, and the reply has this text.
pub(crate) fn answers(port: &mut Port, alloc: Global, line: &[u8], wanted: &[u8]) -> bool {
    port.post_line(alloc, line).is_ok()
        && told(port, alloc, Told::Answered)
        && replies(port, alloc, 0, wanted)
}

/// Whether this is what a step tells.
pub(crate) fn told(port: &mut Port, alloc: Global, wanted: Told) -> bool {
    port.step(alloc) == wanted
}

/// Whether the reply of this number has this text.
pub(crate) fn replies(port: &Port, alloc: Global, number: usize, wanted: &[u8]) -> bool {
    let mut text = Vec::new(alloc);
    match port.last.reply(number) {
        Some(reply) => reply.write(&mut text).is_ok() && text.as_slice() == wanted,
        None => false,
    }
}
