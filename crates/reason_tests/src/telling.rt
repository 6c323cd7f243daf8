//! What a line is told to be.

use bad_lines::{Place, append_reason, why_bad};
use std::alloc::Global;
use std::process::Abort;

/// Whether the reason for a line begins at this byte, and its text is this.
fn is_told(alloc: Global, line: &[u8], place: Place, at: usize, text: &[u8]) -> bool {
    let Some(reason) = why_bad(line, place) else {
        return false;
    };
    let mut told = Vec::new(alloc);
    reason.at == at && append_reason(&mut told, &reason).is_ok() && told.as_slice() == text
}

/// Asserts that the reason for a line begins at this byte, and that its text is this.
pub(crate) fn expect_told(
    rt: &impl Abort,
    alloc: Global,
    line: &[u8],
    place: Place,
    at: usize,
    text: &[u8],
) {
    assert!(rt; is_told(alloc, line, place, at, text), "{line:?} {text:?}");
}

/// Asserts that a line is good.
pub(crate) fn expect_good(rt: &impl Abort, line: &[u8], place: Place) {
    assert!(rt; why_bad(line, place).is_none(), "{line:?}");
}
