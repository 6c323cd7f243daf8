//! Doing a history again.

ghost use Rattle.std.specs.Prelude.{◌≡◌, ◌↔◌, IsTrue, IfOk};
ghost use Rattle.vector_memory.specs.Contents.{content_of};
ghost use Rattle.vector_memory.specs.States.{IsLawfulRoom, bounds_in};
ghost use Rattle.call_history.specs.History.{replay};
ghost use Rattle.call_history.specs.Shown.{shown};

use crate::log::Log;
use cvl_calls::{Spare, step_with};
use scan_kernels::{Execution, Meter};
use std::alloc::Global;
use vector_memory::{Edition, Memory, Name, OutOfMemory, Value};

/// A new memory of this room and edition, after the calls of the entries one by one.
#[tactic(auto, using(cvl_calls::proofs::BlockSteps::outside_may_change, cvl_calls::proofs::BlockSteps::steps_outside))]
pub(crate) fn replayed(
    execution: &impl Execution,
    alloc: Global,
    room: u64,
    edition: Edition,
    log: &Log,
) -> Result<Memory, OutOfMemory>
    requires { IsLawfulRoom room }
    ensures { IfOk result (λ memory. memory ≡ replay (bounds_in edition room) log.now.entries) }
{
    let mut memory = Memory::with_edition(alloc, room, edition)?;
    let mut meter = Meter::new();
    let mut spare = Spare::new(alloc);
    for place in 0..log.len() {
        let entry = log.entry(place);
        step_with(
            execution,
            alloc,
            &mut meter,
            &mut spare,
            &mut memory,
            &entry.call,
        )?;
    }
    Ok(memory)
}

/// Whether two values are the same items.
fn is_same_value(one: &Value, other: &Value) -> bool
    ensures { IsTrue result ↔ (content_of one.now ≡ content_of other.now) }
{
    one == other
}

/// Whether two names are one, and stand for the same items.
fn is_same(one: (&Name, &Value), other: (&Name, &Value)) -> bool
    ensures { IsTrue result ↔ (shown one.entry ≡ shown other.entry) }
{
    one.0 == other.0 && is_same_value(one.1, other.1)
}

/// Whether two memories have the same names in the same order, for the same items.
pub(crate) fn holds_the_same(one: &Memory, other: &Memory) -> bool
    ensures { IsTrue result ↔ (one.now.entries ≡ other.now.entries) }
{
    one.len() == other.len() && one.iter().zip(other.iter()).all(|(a, b)| is_same(a, b))
}
