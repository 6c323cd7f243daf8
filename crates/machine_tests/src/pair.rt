//! Two callers, in one thread.

use crate::asking::{calls, polls, polls_idle, polls_waiting, posts, serves, stands_at};
use crate::table::two;
use std::process::Abort;

#[test]
fn dropped_caller_is_served(rt: HostRuntime) {
    let (shared, mut first, mut second) = two(&rt, rt.alloc());
    assert!(rt; posts(&rt, rt.alloc(), &shared, &mut first, b"a = z 1"));
    drop(first);
    assert!(rt; serves(&rt, rt.alloc(), &shared, &mut second, (1, 1, 0)));
    assert!(rt; shared.look(&mut second) == 1);
    assert!(rt; polls_idle(&shared, &mut second));
    let book = shared.close(second).expect(&rt, "no book");
    assert!(rt; book.len() == 1 && stands_at(&book, 0, 0, 0));
}

#[test]
fn sees_after_meeting(rt: HostRuntime) {
    let (shared, mut first, mut second) = two(&rt, rt.alloc());
    assert!(rt; calls(&rt, rt.alloc(), &shared, &mut first, b"a = z 1", 0, b"ok"));
    shared.meet(&mut first, &mut second);
    assert!(rt; calls(&rt, rt.alloc(), &shared, &mut second, b"get a", 1, b"z 1"));
}

/// A look shows what was never told to the caller.
#[test]
fn look_unmet(rt: HostRuntime) {
    let (shared, mut first, mut second) = two(&rt, rt.alloc());
    assert!(rt; calls(&rt, rt.alloc(), &shared, &mut first, b"a = z 1", 0, b"ok"));
    assert!(rt; shared.look(&mut second) == 1);
}

/// And so does the book.
#[test]
fn close_unseen(rt: HostRuntime) {
    let (shared, mut first, second) = two(&rt, rt.alloc());
    assert!(rt; calls(&rt, rt.alloc(), &shared, &mut first, b"a = z 1", 0, b"ok"));
    let book = shared.close(second).expect(&rt, "no book");
    assert!(rt; book.len() == 1 && stands_at(&book, 0, 0, 0));
}

/// Two calls in one pass stand in the order of their callers where the second reads what the first writes, and a call that is
/// not served is not in the book.
#[test]
fn serves_in_order(rt: HostRuntime) {
    let (shared, mut first, mut second) = two(&rt, rt.alloc());
    assert!(rt; posts(&rt, rt.alloc(), &shared, &mut second, b"add_ruz a"));
    assert!(rt; posts(&rt, rt.alloc(), &shared, &mut first, b"a = z 3 4"));
    assert!(rt; polls_waiting(&shared, &mut first));
    assert!(rt; serves(&rt, rt.alloc(), &shared, &mut second, (2, 2, 1)));
    assert!(rt; polls(&rt, rt.alloc(), &shared, &mut first, 0, b"ok"));
    assert!(rt; polls(&rt, rt.alloc(), &shared, &mut second, 1, b"int 7"));
    assert!(rt; posts(&rt, rt.alloc(), &shared, &mut first, b"fre_fov a"));
    let book = shared.close(first).expect(&rt, "no book");
    assert!(rt; book.len() == 2 && stands_at(&book, 0, 0, 0) && stands_at(&book, 1, 1, 0));
}

/// A call that finds the book free runs before what others left, and serves it.
#[test]
fn call_serves_what_was_left(rt: HostRuntime) {
    let (shared, mut first, mut second) = two(&rt, rt.alloc());
    assert!(rt; posts(&rt, rt.alloc(), &shared, &mut first, b"get a"));
    assert!(rt; calls(&rt, rt.alloc(), &shared, &mut second, b"a = z 1", 0, b"ok"));
    assert!(rt; polls(&rt, rt.alloc(), &shared, &mut first, 1, b"z 1"));
    let book = shared.close(first).expect(&rt, "no book");
    assert!(rt; book.len() == 2 && stands_at(&book, 0, 1, 0) && stands_at(&book, 1, 0, 0));
}
