//! Seats at a new table, and a desk that is taken, given back and lost.

ghost use Rattle.std.specs.Prelude.{◌≡◌, ◌+◌, ◌<◌, ◌≤◌, None, All};
ghost use Rattle.vector_memory.specs.States.{IsLawfulRoom};
ghost use Rattle.request_slots.specs.Seating.{IsNewSeatAt};

use crate::asking::read;
use call_history::{Book, Job};
use cvl_text::Call;
use request_slots::{Desk, Seat, Slots};
use std::alloc::Global;
use std::process::Abort;

/// A table for so many callers, whose history is of this room.
fn table(rt: &impl Abort, alloc: Global, callers: usize, room: u64) -> (Slots, Vec<Seat>)
    requires count { (0 < callers) × (callers ≤ 64) }
    requires room { IsLawfulRoom room }
    ensures size { result.0.slots ≡ callers + 1 }
    ensures each { All (IsNewSeatAt result.0) result.1.items }
{
    let desk = Desk {
        book: Book::new(alloc, room).expect(rt, "memory"),
        requests: Vec::with_capacity(alloc, callers).expect(rt, "memory"),
        outcomes: Vec::with_capacity(alloc, callers).expect(rt, "memory"),
    };
    let desk = Box::new(alloc, desk).ok().expect(rt, "memory");
    Slots::new(alloc, callers, desk).expect(rt, "memory")
}

/// A table with two callers.
fn pair(rt: &impl Abort, alloc: Global) -> (Slots, Seat, Seat)
    ensures first { IsNewSeatAt result.0 result.1 }
    ensures second { IsNewSeatAt result.0 result.2 }
{
    let (slots, mut seats) = table(rt, alloc, 2, 100);
    let second = seats.pop().expect(rt, "no seat");
    let first = seats.pop().expect(rt, "no seat");
    (slots, first, second)
}

/// Posts a call. It has no outcome yet.
fn waits(slots: &Slots, seat: &mut Seat, call: Call) -> bool
    requires new { IsNewSeatAt slots.now seat.old }
    ensures place { seat.new.standing.machine ≡ slots.now }
    ensures no_desk { seat.new.pass ≡ None }
{
    slots.step_post(seat, Job::One(call));
    slots.step_collect(seat).is_none()
}

#[test]
fn nobody_serves(rt: HostRuntime) {
    let (slots, mut first, mut second) = pair(&rt, rt.alloc());
    assert!(rt; first.number() == 0 && second.number() == 1 && first.is_idle());
    let call = read(&rt, rt.alloc(), b"a = z 3 4");
    assert!(rt; waits(&slots, &mut first, call));
    assert!(rt; !first.is_idle() && second.is_idle());
    slots.step_meet(&mut second, &mut first);
    assert!(rt; slots.step_look(&mut second) == 0);
    let desk = slots.close(second).expect(&rt, "another has the desk");
    assert!(rt; desk.book.is_empty());
}

/// While a seat has the desk another leaves its call and looks, and its try finds the desk taken. Given back, the desk is found again.
#[test]
fn post_under_lock(rt: HostRuntime) {
    let (slots, mut first, mut second) = pair(&rt, rt.alloc());
    let desk = slots.step_lock(&mut second).expect(&rt, "taken");
    let call = read(&rt, rt.alloc(), b"get a");
    assert!(rt; waits(&slots, &mut first, call));
    assert!(rt; slots.step_look(&mut first) == 0);
    assert!(rt; slots.step_lock(&mut first).is_none());
    slots.step_unlock(&mut second, desk);
    assert!(rt; slots.step_lock(&mut first).is_some());
}

/// The desk of a seat that is dropped is lost to the others: their tries find it taken, and so does a close.
#[test]
fn the_desk_is_dropped(rt: HostRuntime) {
    let (slots, mut first, mut second) = pair(&rt, rt.alloc());
    assert!(rt; slots.step_lock(&mut first).is_some());
    drop(first);
    assert!(rt; slots.step_lock(&mut second).is_none());
    assert!(rt; slots.close(second).is_none());
}

fn crosses<T: Send>() {}

fn is_shared<T: Sync>() {}

#[test]
fn goes_between_threads() {
    crosses::<Seat>();
    is_shared::<Slots>();
}
