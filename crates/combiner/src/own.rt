//! A call of a caller that finds the book free: it runs at once, on no slot, and what others left is served behind it.

ghost use Rattle.std.specs.Prelude.{◌≡◌, ◌+◌, ◌<◌, ◌≤◌, true, Some, None, IfOk, IfErr, OnErr};
ghost use Rattle.call_history.specs.Blocks.{Whole};
ghost use Rattle.call_history.specs.Callers.{caller_limit, calls_by};
ghost use Rattle.call_history.specs.History.{Begins};
ghost use Rattle.request_slots.specs.Changes.{ShowsLine};
ghost use Rattle.request_slots.specs.Passes.{fresh_pass};
ghost use Rattle.request_slots.specs.Views.{pass_in, IsSpare};
ghost use Rattle.combiner.specs.Standing.{IsIdle, IsResting, callers_of, Rests, IsOfCallers};
ghost use Rattle.combiner.specs.Says.{IsAnsweredTo};
ghost use Rattle.combiner.specs.Own.{HasEntered, KeepsCall, IsEnded};

use crate::pass::{serve, take_all};
use call_history::Book;
use cvl_text::{Call, Reply};
use request_slots::{Desk, Seat, Slots};
use scan_kernels::Execution;
use std::alloc::Global;
use vector_memory::OutOfMemory;

/// Runs a call of the caller that has the desk, and commits it.
fn enter(
    execution: &impl Execution,
    alloc: Global,
    slots: &Slots,
    seat: &mut Seat,
    book: &mut Book,
    call: Call,
) -> Result<(u64, Reply), (Call, OutOfMemory)>
    requires place { seat.old.standing.machine ≡ slots.now }
    requires idle { IsIdle seat.old.standing }
    requires fresh { seat.old.pass ≡ Some (fresh_pass book.old.history) }
    requires number { seat.old.standing.number < caller_limit }
    requires bounds { book.old.bounds ≡ seat.old.standing.bounds }
    requires begins { Begins seat.old.standing.seen book.old.history }
    requires own { calls_by seat.old.standing.number book.old.history ≡ seat.old.standing.own }
    requires whole { Whole book.old.history }
    ensures place { seat.new.standing.machine ≡ slots.now }
    ensures ran { IfOk result (λ answer. HasEntered call seat.old seat.new answer.0 answer.1) }
    ensures fresh { seat.new.pass ≡ Some (fresh_pass book.new.history) }
    ensures begins { Begins seat.new.standing.seen book.new.history }
    ensures bounds { book.new.bounds ≡ book.old.bounds }
    ensures back { IfErr result (λ refused. refused.0 ≡ call) }
    ensures kept { OnErr result (seat.new ≡ seat.old) }
{
    let ran = book.run(execution, alloc, seat.number() as u64, call);
    if ran.is_ok() {
        slots.step_enter(seat, book);
    }
    ran
}

/// Serves what others left, and gives the desk back.
pub(crate) fn serve_left(
    execution: &impl Execution,
    alloc: Global,
    slots: &Slots,
    seat: &mut Seat,
    callers: usize,
    mut desk: Box<Desk>,
)
    requires place { seat.old.standing.machine ≡ slots.now }
    requires callers { (callers + 1 ≡ slots.now.slots) × (callers ≤ 64) }
    requires fresh { seat.old.pass ≡ Some (fresh_pass desk.value.book.history) }
    requires held { seat.old.standing.held ≡ true }
    requires inside { seat.old.standing.number < callers }
    requires begins { Begins seat.old.standing.seen desk.value.book.history }
    requires bounds { desk.value.book.bounds ≡ seat.old.standing.bounds }
    requires spare { IsSpare slots.now.slots desk.value }
    ensures place { seat.new.standing.machine ≡ slots.now }
    ensures goes_on { KeepsCall seat.old.standing seat.new.standing }
    ensures no_desk { seat.new.pass ≡ None }
    ensures rests { Rests seat.new.standing }
    ensures no_strangers { IsOfCallers (callers_of seat.new.standing.machine) seat.new.standing.seen }
    ensures whole { Whole seat.new.standing.seen }
{
    let mut numbers = [0u8; 64];
    take_all(slots, seat, callers, &mut desk.requests, &mut numbers);
    if desk.requests.is_empty() {
        slots.step_unlock(seat, desk);
    } else {
        serve(execution, alloc, slots, seat, callers, &numbers, desk);
    }
}

/// Runs a call of an idle caller that has just taken the desk, serves what others left, and gives the desk back.
pub(crate) fn run_own(
    execution: &impl Execution,
    alloc: Global,
    slots: &Slots,
    seat: &mut Seat,
    callers: usize,
    mut desk: Box<Desk>,
    call: Call,
) -> Result<(u64, Reply), (Call, OutOfMemory)>
    requires place { seat.old.standing.machine ≡ slots.now }
    requires callers { (callers + 1 ≡ slots.now.slots) × (callers ≤ 64) }
    requires idle { IsIdle seat.old.standing }
    requires fresh { seat.old.pass ≡ Some (fresh_pass desk.value.book.history) }
    requires held { seat.old.standing.held ≡ true }
    requires inside { seat.old.standing.number < callers }
    requires line { ShowsLine callers seat.old.standing desk.value.book }
    requires spare { IsSpare slots.now.slots desk.value }
    ensures place { seat.new.standing.machine ≡ slots.now }
    ensures ended { IsEnded seat.old.standing seat.new.standing }
    ensures resting { IsResting seat.new }
    ensures answered { IfOk result (λ answer.
        IsAnsweredTo call seat.old.standing seat.new.standing answer.0 answer.1) }
    ensures back { IfErr result (λ refused. refused.0 ≡ call) }
    ensures record_kept { OnErr result (seat.new.standing.own ≡ seat.old.standing.own) }
{
    let ran = enter(execution, alloc, slots, seat, &mut desk.book, call);
    serve_left(execution, alloc, slots, seat, callers, desk);
    ran
}
