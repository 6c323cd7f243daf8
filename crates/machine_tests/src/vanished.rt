//! Callers that vanish: dropped, or closing the machine, with a call left or with its outcome not taken.

use crate::asking::{posts, serves, stands_at};
use crate::table::two;
use std::process::Abort;

/// A call that nobody served stands in no history.
#[test]
fn dropped_with_a_call_left(rt: HostRuntime) {
    let (shared, mut first, second) = two(&rt, rt.alloc());
    assert!(rt; posts(&rt, rt.alloc(), &shared, &mut first, b"a = z 1"));
    drop(first);
    let book = shared.close(second).expect(&rt, "no book");
    assert!(rt; book.is_empty());
}

#[test]
fn dropped_with_an_answer_untaken(rt: HostRuntime) {
    let (shared, mut first, mut second) = two(&rt, rt.alloc());
    assert!(rt; posts(&rt, rt.alloc(), &shared, &mut first, b"a = z 1"));
    assert!(rt; serves(&rt, rt.alloc(), &shared, &mut second, (1, 1, 0)));
    drop(first);
    let book = shared.close(second).expect(&rt, "no book");
    assert!(rt; book.len() == 1 && stands_at(&book, 0, 0, 0));
}

#[test]
fn closes_with_its_own_call_left(rt: HostRuntime) {
    let (shared, _first, mut second) = two(&rt, rt.alloc());
    assert!(rt; posts(&rt, rt.alloc(), &shared, &mut second, b"a = z 1"));
    let book = shared.close(second).expect(&rt, "no book");
    assert!(rt; book.is_empty());
}

#[test]
fn closes_with_its_answer_untaken(rt: HostRuntime) {
    let (shared, mut first, mut second) = two(&rt, rt.alloc());
    assert!(rt; posts(&rt, rt.alloc(), &shared, &mut first, b"a = z 1"));
    assert!(rt; serves(&rt, rt.alloc(), &shared, &mut second, (1, 1, 0)));
    let book = shared.close(first).expect(&rt, "no book");
    assert!(rt; book.len() == 1 && stands_at(&book, 0, 0, 0));
}
