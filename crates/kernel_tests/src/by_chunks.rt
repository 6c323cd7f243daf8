//! A kernel in chunks of several sizes, beside what is wanted.

use crate::made::is_made;
use scan_kernels::{Kept, Meter};
use segment_desc::OutOfMemory;
use std::alloc::Global;
use std::process::Abort;

/// A vector of so many old items, for a kernel to write over.
pub(crate) fn kept<T: Copy>(rt: &impl Abort, alloc: Global, old: T, space: usize) -> Kept<T> {
    Kept::new(vec![in alloc; old; space].expect(rt, "memory"))
}

/// Asserts that a kernel in chunks of this size made these items both times, and counted two runs.
pub(crate) fn assert_both<T: Copy + PartialEq>(
    rt: &impl Abort,
    chunk: usize,
    meter: &Meter,
    fresh: Result<Vec<T>, OutOfMemory>,
    over: Result<Vec<T>, OutOfMemory>,
    wanted: &[T],
) {
    assert!(rt; is_made(fresh, wanted), "fresh, chunk {chunk}");
    assert!(rt; is_made(over, wanted), "kept, chunk {chunk}");
    assert!(rt; meter.runs() == 2, "chunk {chunk}");
}

/// Runs a kernel in chunks of each size, both ways, beside what is wanted.
macro_rules! by_chunks {
    ($rt:ident, $old:expr, $wanted:expr, $kernel:ident $(, $operand:expr)*) => {
        for chunk in [1, 2, 7, 4_096] {
            let mut meter = Meter::with_chunk(chunk);
            let fresh = $kernel(&$rt, $rt.alloc(), &mut meter $(, $operand)*);
            let old = kept(&$rt, $rt.alloc(), $old, $wanted.len());
            let over = $kernel(&Sequential, old, &mut meter $(, $operand)*);
            assert_both(&$rt, chunk, &meter, fresh, over, $wanted.as_slice());
        }
    };
}

pub(crate) use by_chunks;
