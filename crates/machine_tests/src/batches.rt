//! What callers left at the same time: in how many waves and by how many kernel runs it was served, and what came of it.

ghost use Rattle.std.specs.Prelude.{◌≡◌, All};

use crate::asking::{expect_replies, polls, posts, serves};
use crate::table::{all, three, two_with};
use combiner::{Caller, Shared};
use std::alloc::Global;
use std::process::Abort;
use std::sync::Wait;
use std::thread::Threads;

/// Two calls that are left at the same time, on a machine with this room.
#[derive(Drop)]
struct Row<'a> {
    room: u64,
    /// What the first caller calls before, and is told.
    before: &'a [(&'a [u8], &'a [u8])],
    /// What the first and the second caller leave.
    calls: [&'a [u8]; 2],
    /// How many calls, waves and kernel runs the pass has.
    served: (u64, u64, u64),
    /// What the two are told: the place and the reply.
    told: [(u64, &'a [u8]); 2],
    /// What the first caller calls then, and is told.
    after: &'a [(&'a [u8], &'a [u8])],
}

/// Expects that a row is so.
fn expect(rt: &(impl Abort + Threads + Wait + Sync), alloc: Global, row: &Row) {
    let (shared, mut first, mut second) = two_with(rt, alloc, row.room);
    expect_replies(rt, alloc, &shared, &mut first, row.before);
    assert!(rt; posts(rt, alloc, &shared, &mut first, row.calls[0]));
    assert!(rt; posts(rt, alloc, &shared, &mut second, row.calls[1]));
    assert!(rt; serves(rt, alloc, &shared, &mut second, row.served));
    let (place, reply) = row.told[0];
    assert!(rt; polls(rt, alloc, &shared, &mut first, place, reply));
    let (place, reply) = row.told[1];
    assert!(rt; polls(rt, alloc, &shared, &mut second, place, reply));
    assert!(rt; first.is_idle());
    expect_replies(rt, alloc, &shared, &mut first, row.after);
}

#[test]
fn alike_calls_run_as_one(rt: HostRuntime) {
    let elementwise = Row {
        room: 100,
        before: &[
            (b"e = z", b"ok"),
            (b"a = z 1 2 3", b"ok"),
            (b"b = z 10 20 30", b"ok"),
        ],
        calls: [b"p = add_wuz e e", b"q = add_wuz a b"],
        served: (2, 1, 1),
        told: [(3, b"ok"), (4, b"ok")],
        after: &[(b"get p", b"z"), (b"get q", b"z 11 22 33")],
    };
    expect(&rt, rt.alloc(), &elementwise);
    let by_segments = Row {
        room: 100,
        before: &[
            (b"a = z 1 2", b"ok"),
            (b"l = z 2", b"ok"),
            (b"s = mke_fov l", b"ok"),
            (b"b = z 3 4 5", b"ok"),
            (b"l = z 1 0 2", b"ok"),
            (b"t = mke_fov l", b"ok"),
        ],
        calls: [b"p = add_rez a s", b"q = add_rez b t"],
        served: (2, 1, 1),
        told: [(6, b"ok"), (7, b"ok")],
        after: &[(b"get p", b"z 3"), (b"get q", b"z 3 0 9")],
    };
    expect(&rt, rt.alloc(), &by_segments);
}

#[test]
fn packs_and_distributions_run_as_one(rt: HostRuntime) {
    let packs = Row {
        room: 100,
        before: &[
            (b"a = z 5 6", b"ok"),
            (b"f = b T F", b"ok"),
            (b"g = b F F", b"ok"),
        ],
        calls: [b"p = pck_puz a f", b"q = pck_puz a g"],
        served: (2, 1, 1),
        told: [(3, b"ok"), (4, b"ok")],
        after: &[(b"get p", b"z 5"), (b"get q", b"z")],
    };
    expect(&rt, rt.alloc(), &packs);
    let distributions = Row {
        room: 100,
        before: &[(b"get p", b"fault 1")],
        calls: [b"p = dis_vuz 7 2", b"q = dis_vuz 9 0"],
        served: (2, 1, 1),
        told: [(1, b"ok"), (2, b"ok")],
        after: &[(b"get p", b"z 7 7"), (b"get q", b"z")],
    };
    expect(&rt, rt.alloc(), &distributions);
}

/// Calls with different words are of one wave, and run by themselves.
#[test]
fn other_words_run_apart(rt: HostRuntime) {
    let row = Row {
        room: 100,
        before: &[(b"a = z 2", b"ok")],
        calls: [b"p = add_wuz a a", b"q = mul_wuz a a"],
        served: (2, 1, 2),
        told: [(1, b"ok"), (2, b"ok")],
        after: &[(b"get p", b"z 4"), (b"get q", b"z 4")],
    };
    expect(&rt, rt.alloc(), &row);
}

/// A call that reads what one before it writes is of a later wave, and one that reads it before is not.
#[test]
fn reads_what_is_written(rt: HostRuntime) {
    let behind = Row {
        room: 100,
        before: &[(b"a = z 5", b"ok"), (b"b = z 1", b"ok")],
        calls: [b"b = add_wuz a a", b"get b"],
        served: (2, 2, 1),
        told: [(2, b"ok"), (3, b"z 10")],
        after: &[(b"get b", b"z 10")],
    };
    expect(&rt, rt.alloc(), &behind);
    let before = Row {
        room: 100,
        before: &[(b"a = z 5", b"ok"), (b"b = z 1", b"ok")],
        calls: [b"get b", b"b = add_wuz a a"],
        served: (2, 1, 1),
        told: [(2, b"z 1"), (3, b"ok")],
        after: &[(b"get b", b"z 10")],
    };
    expect(&rt, rt.alloc(), &before);
}

/// A call with a fault of its own keeps no other from its answer.
#[test]
fn faults_stay_apart(rt: HostRuntime) {
    let divisor = Row {
        room: 100,
        before: &[
            (b"p = z 6", b"ok"),
            (b"q = z 2", b"ok"),
            (b"r = z 1", b"ok"),
            (b"s = z 0", b"ok"),
        ],
        calls: [b"x = div_wuz p q", b"y = div_wuz r s"],
        served: (2, 1, 1),
        told: [(4, b"ok"), (5, b"fault 6")],
        after: &[(b"get x", b"z 3"), (b"get y", b"fault 1")],
    };
    expect(&rt, rt.alloc(), &divisor);
    let room = Row {
        room: 4,
        before: &[(b"a = z 1 2", b"ok")],
        calls: [b"p = add_wuz a a", b"q = add_wuz a a"],
        served: (2, 1, 1),
        told: [(1, b"ok"), (2, b"fault 9")],
        after: &[(b"get p", b"z 2 4"), (b"get q", b"fault 1")],
    };
    expect(&rt, rt.alloc(), &room);
}

/// Three calls in two waves: the last, which reads nothing, stands before the second, which reads what the first writes.
#[test]
fn waves_before_callers(rt: HostRuntime) {
    let (shared, mut first, mut second, mut third) = three(&rt, rt.alloc(), 100);
    assert!(rt; posts(&rt, rt.alloc(), &shared, &mut first, b"b = z 1"));
    assert!(rt; posts(&rt, rt.alloc(), &shared, &mut second, b"c = cpy_wuz b"));
    assert!(rt; posts(&rt, rt.alloc(), &shared, &mut third, b"b = z 2"));
    assert!(rt; serves(&rt, rt.alloc(), &shared, &mut second, (3, 2, 1)));
    assert!(rt; polls(&rt, rt.alloc(), &shared, &mut first, 0, b"ok"));
    assert!(rt; polls(&rt, rt.alloc(), &shared, &mut second, 2, b"ok"));
    assert!(rt; polls(&rt, rt.alloc(), &shared, &mut third, 1, b"ok"));
    assert!(rt; posts(&rt, rt.alloc(), &shared, &mut first, b"get c"));
    assert!(rt; serves(&rt, rt.alloc(), &shared, &mut first, (1, 1, 0)));
    assert!(rt; polls(&rt, rt.alloc(), &shared, &mut first, 3, b"z 2"));
}

/// Each caller leaves a call that doubles the one vector into a name of its own. They come back in the order of their numbers.
fn leave_all(rt: &impl Abort, alloc: Global, shared: &Shared, callers: Vec<Caller>) -> Vec<Caller>
    requires { All (λ c. c.machine ≡ shared.now) callers.items }
    ensures { All (λ c. c.machine ≡ shared.now) result.items }
{
    let mut left = Vec::new(alloc);
    for caller in callers {
        let mut caller = caller;
        let line = format!(in alloc; "x{} = add_wuz a a", caller.number()).expect(rt, "memory");
        assert!(rt; posts(rt, alloc, shared, &mut caller, line.as_bytes()));
        left.push(caller).ok().expect(rt, "memory");
    }
    left
}

/// Expects that each caller is told the place of its number and one more.
fn expect_told(rt: &impl Abort, alloc: Global, shared: &Shared, callers: Vec<Caller>)
    requires { All (λ c. c.machine ≡ shared.now) callers.items }
{
    for caller in callers {
        let mut caller = caller;
        let place = caller.number() as u64 + 1;
        assert!(rt; polls(rt, alloc, shared, &mut caller, place, b"ok"));
    }
}

/// All calls of the greatest machine run as one, each into a name of its own.
#[test]
fn all_callers_run_as_one(rt: HostRuntime) {
    let (shared, callers, mut last) = all(&rt, rt.alloc());
    assert!(rt; posts(&rt, rt.alloc(), &shared, &mut last, b"a = z 1"));
    assert!(rt; serves(&rt, rt.alloc(), &shared, &mut last, (1, 1, 0)));
    assert!(rt; polls(&rt, rt.alloc(), &shared, &mut last, 0, b"ok"));
    let left = leave_all(&rt, rt.alloc(), &shared, callers);
    assert!(rt; posts(&rt, rt.alloc(), &shared, &mut last, b"x63 = add_wuz a a"));
    assert!(rt; serves(&rt, rt.alloc(), &shared, &mut last, (64, 1, 1)));
    assert!(rt; polls(&rt, rt.alloc(), &shared, &mut last, 64, b"ok"));
    expect_told(&rt, rt.alloc(), &shared, left);
    assert!(rt; shared.look(&mut last) == 65);
}
