//! A block of a caller that has the book: its calls run at once, next to one another, and what others left is served behind them.

ghost use Rattle.std.specs.Prelude.{◌≡◌, ◌+◌, ◌<◌, ◌≤◌, true, Some, None, length, map, IfOk, IfErr, OnErr};
ghost use Rattle.cvl_text.specs.Answers.{answer_of};
ghost use Rattle.call_history.specs.Blocks.{Whole, block_limit};
ghost use Rattle.call_history.specs.Callers.{caller_limit, calls_by};
ghost use Rattle.call_history.specs.History.{Begins};
ghost use Rattle.request_slots.specs.Changes.{ShowsLine};
ghost use Rattle.request_slots.specs.Passes.{fresh_pass};
ghost use Rattle.request_slots.specs.Views.{pass_in, IsSpare};
ghost use Rattle.combiner.specs.Standing.{IsIdle, IsResting, callers_of};
ghost use Rattle.combiner.specs.Says.{IsBlockAnsweredTo};
ghost use Rattle.combiner.specs.Own.{HasEnteredBlock, HasTaken, IsEnded};

use crate::calls::wait::{longer, pause};
use crate::own::serve_left;
use call_history::Book;
use cvl_text::{Call, Reply};
use request_slots::{Desk, Seat, Slots};
use scan_kernels::{Execution, Meter};
use std::alloc::Global;
use std::sync::Wait;
use vector_memory::OutOfMemory;

/// Takes the desk, and waits for it while others have it.
pub(crate) fn take_desk(slots: &Slots, rt: &impl Wait, seat: &mut Seat) -> Box<Desk>
    requires place { seat.old.standing.machine ≡ slots.now }
    requires no_desk { seat.old.pass ≡ None }
    ensures place { seat.new.standing.machine ≡ slots.now }
    ensures fresh { seat.new.pass ≡ Some (fresh_pass result.value.book.history) }
    ensures taken { HasTaken seat.old.standing seat.new.standing }
    ensures line { ShowsLine (callers_of slots.now) seat.old.standing result.value.book }
    ensures spare { IsSpare slots.now.slots result.value }
    ensures inside { seat.old.standing.number < callers_of slots.now }
{
    let mut turns = 0;
    for _ in rt.forever() {
        pause(turns);
        if let Some(desk) = slots.step_lock(seat) {
            return desk;
        }
        turns = longer(turns);
    }
    unreachable!()
}

/// Runs a block of the caller that has the desk, and commits it.
fn enter_block(
    execution: &impl Execution,
    alloc: Global,
    slots: &Slots,
    seat: &mut Seat,
    book: &mut Book,
    calls: Vec<Call>,
) -> Result<(u64, Vec<Reply>), (Vec<Call>, OutOfMemory)>
    requires place { seat.old.standing.machine ≡ slots.now }
    requires few { (1 ≤ length calls.items) × (length calls.items ≤ block_limit) }
    requires idle { IsIdle seat.old.standing }
    requires fresh { seat.old.pass ≡ Some (fresh_pass book.old.history) }
    requires number { seat.old.standing.number < caller_limit }
    requires bounds { book.old.bounds ≡ seat.old.standing.bounds }
    requires begins { Begins seat.old.standing.seen book.old.history }
    requires own { calls_by seat.old.standing.number book.old.history ≡ seat.old.standing.own }
    requires whole { Whole book.old.history }
    ensures place { seat.new.standing.machine ≡ slots.now }
    ensures ran { IfOk result (λ answer. HasEnteredBlock calls.items seat.old seat.new answer.0 (map answer_of answer.1.items)) }
    ensures fresh { seat.new.pass ≡ Some (fresh_pass book.new.history) }
    ensures begins { Begins seat.new.standing.seen book.new.history }
    ensures bounds { book.new.bounds ≡ book.old.bounds }
    ensures back { IfErr result (λ refused. refused.0 ≡ calls) }
    ensures kept { OnErr result (seat.new ≡ seat.old) }
{
    let number = seat.number() as u64;
    let ran = book.run_block(execution, alloc, &mut Meter::new(), number, calls);
    if ran.is_ok() {
        slots.step_enter(seat, book);
    }
    ran
}

/// Runs a block of an idle caller that has just taken the desk, serves what others left, and gives the desk back.
pub(crate) fn run_own_block(
    execution: &impl Execution,
    alloc: Global,
    slots: &Slots,
    seat: &mut Seat,
    callers: usize,
    mut desk: Box<Desk>,
    calls: Vec<Call>,
) -> Result<(u64, Vec<Reply>), (Vec<Call>, OutOfMemory)>
    requires place { seat.old.standing.machine ≡ slots.now }
    requires few { (1 ≤ length calls.items) × (length calls.items ≤ block_limit) }
    requires callers { (callers + 1 ≡ slots.now.slots) × (callers ≤ 64) }
    requires idle { IsIdle seat.old.standing }
    requires fresh { seat.old.pass ≡ Some (fresh_pass desk.value.book.history) }
    requires held { seat.old.standing.held ≡ true }
    requires inside { seat.old.standing.number < callers }
    requires line { ShowsLine callers seat.old.standing desk.value.book }
    requires spare { IsSpare slots.now.slots desk.value }
    ensures place { seat.new.standing.machine ≡ slots.now }
    ensures ended { IsEnded seat.old.standing seat.new.standing }
    ensures resting { IsResting seat.new }
    ensures answered { IfOk result (λ answer.
        IsBlockAnsweredTo calls.items seat.old.standing seat.new.standing answer.0 (map answer_of answer.1.items)) }
    ensures back { IfErr result (λ refused. refused.0 ≡ calls) }
    ensures record_kept { OnErr result (seat.new.standing.own ≡ seat.old.standing.own) }
{
    let ran = enter_block(execution, alloc, slots, seat, &mut desk.book, calls);
    serve_left(execution, alloc, slots, seat, callers, desk);
    ran
}
