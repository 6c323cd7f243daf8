//! Segment lists for the tests.

use segment_desc::Segd;
use std::alloc::Global;
use std::process::Abort;

/// The segment list of these lengths.
pub(crate) fn cut(rt: &impl Abort, alloc: Global, lengths: &[i64]) -> Segd {
    Segd::from_lengths(alloc, lengths).expect(rt, "no segments")
}
