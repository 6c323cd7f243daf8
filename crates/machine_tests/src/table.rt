//! Machines for the tests, and those that there cannot be.

ghost use Rattle.std.specs.Prelude.{◌≡◌, All};
ghost use Rattle.vector_memory.specs.States.{bounds_in};
ghost use Rattle.vector_memory.specs.declared.edition.Edition.TheVariants.{One};
ghost use Rattle.combiner.specs.Standing.{IsNewAt, callers_of};

use combiner::{Caller, MakeFault, Shared};
use std::alloc::Global;
use std::process::Abort;

/// A machine with one caller.
pub(crate) fn one(rt: &impl Abort, alloc: Global) -> (Shared, Caller)
    ensures size { callers_of result.0 ≡ 1 }
    ensures caller { IsNewAt result.0 (bounds_in One 100) result.1 }
{
    let (shared, mut callers) = Shared::new(alloc, 1, 100).expect(rt, "no machine");
    let caller = callers.pop().expect(rt, "no caller");
    (shared, caller)
}

/// A machine with two callers.
pub(crate) fn two(rt: &impl Abort, alloc: Global) -> (Shared, Caller, Caller)
    ensures size { callers_of result.0 ≡ 2 }
    ensures first { IsNewAt result.0 (bounds_in One 100) result.1 }
    ensures second { IsNewAt result.0 (bounds_in One 100) result.2 }
{
    two_with(rt, alloc, 100)
}

/// A machine with two callers, and room for so many items.
pub(crate) fn two_with(rt: &impl Abort, alloc: Global, room: u64) -> (Shared, Caller, Caller)
    ensures size { callers_of result.0 ≡ 2 }
    ensures first { IsNewAt result.0 (bounds_in One room) result.1 }
    ensures second { IsNewAt result.0 (bounds_in One room) result.2 }
{
    let (shared, mut callers) = Shared::new(alloc, 2, room).expect(rt, "no machine");
    let second = callers.pop().expect(rt, "no caller");
    let first = callers.pop().expect(rt, "no caller");
    (shared, first, second)
}

/// A machine with three callers, and room for so many items.
pub(crate) fn three(rt: &impl Abort, alloc: Global, room: u64) -> (Shared, Caller, Caller, Caller)
    ensures first { result.1.machine ≡ result.0 }
    ensures second { result.2.machine ≡ result.0 }
    ensures third { result.3.machine ≡ result.0 }
{
    let (shared, mut callers) = Shared::new(alloc, 3, room).expect(rt, "no machine");
    let third = callers.pop().expect(rt, "no caller");
    let second = callers.pop().expect(rt, "no caller");
    let first = callers.pop().expect(rt, "no caller");
    (shared, first, second, third)
}

/// A machine with the greatest number of callers, and the last of them by itself.
pub(crate) fn all(rt: &impl Abort, alloc: Global) -> (Shared, Vec<Caller>, Caller)
    ensures others { All (λ c. c.machine ≡ result.0) result.1.items }
    ensures last { result.2.machine ≡ result.0 }
{
    let (shared, mut callers) = Shared::new(alloc, 64, 100).expect(rt, "no machine");
    let last = callers.pop().expect(rt, "no caller");
    (shared, callers, last)
}

/// How many callers and how large a room, and why there is no such machine.
const MADE: [(u64, u64, Option<MakeFault>); 7] = [
    (0, 1, Some(MakeFault::BadCallers)),
    (65, 1, Some(MakeFault::BadCallers)),
    (65, 0, Some(MakeFault::BadCallers)),
    (1, 0, Some(MakeFault::BadRoom)),
    (1, 67_108_865, Some(MakeFault::BadRoom)),
    (1, 67_108_864, None),
    (64, 1, None),
];

#[test]
fn counts_and_rooms(rt: HostRuntime) {
    for (callers, room, fault) in &MADE {
        assert!(rt; Shared::new(rt.alloc(), *callers, *room).err() == *fault);
    }
}

#[test]
fn callers_are_numbered(rt: HostRuntime) {
    let callers = Shared::new(rt.alloc(), 64, 1).ok().map(|made| made.1);
    let numbers = callers.iter().flatten().map(|caller| caller.number());
    assert!(rt; numbers.eq(0..64));
}
