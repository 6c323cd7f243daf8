//! A batch, and what is wanted of it.

use crate::asking::{answers_of, book_of, memory_of, serve};
use batch_flatten::Ran;
use scan_kernels::{DEFAULT_CHUNK, Sequential};
use std::alloc::Global;
use std::process::Abort;

/// What was worked out by hand of a batch.
#[derive(Clone, Copy)]
pub(crate) struct Case<'a> {
    pub room: u64,
    /// The calls before it.
    pub before: &'a str,
    /// Its calls.
    pub calls: &'a str,
    /// In so many waves it is served.
    pub waves: u64,
    /// By so many kernel runs.
    pub kernels: u64,
    /// The place in the history and the reply of each call.
    pub answers: &'a str,
    /// The memory after it.
    pub after: &'a str,
}

/// Serves the batch, and asserts what is wanted of it.
pub(crate) fn comes_about(rt: &impl Abort, alloc: Global, case: &Case) {
    let mut book = book_of(rt, alloc, case.room, case.before);
    let served = serve(rt, alloc, &mut book, DEFAULT_CHUNK, case.calls);
    let wanted = Ran {
        waves: case.waves,
        kernels: case.kernels,
        singles: 0,
    };
    let calls = case.calls;
    assert!(rt; served.ran == wanted, "{calls}");
    let answers = answers_of(rt, alloc, &served.outcomes);
    assert!(rt; answers.as_slice() == case.answers.as_bytes(), "{calls}");
    let after = memory_of(rt, alloc, &book);
    assert!(rt; after.as_slice() == case.after.as_bytes(), "{calls}");
    let audited = book.audit(&Sequential, alloc).expect(rt, "memory");
    assert!(rt; audited, "{calls}");
}
