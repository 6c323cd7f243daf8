//! One pass of a caller that serves what all callers left.

ghost use Rattle.std.specs.Prelude.{◌≡◌, ◌+◌, ◌<◌, ◌≤◌, [], length, None, Some, IfSome, IfNone, vec_len, vec_capacity};
ghost use Rattle.call_history.specs.Blocks.{Whole};
ghost use Rattle.request_slots.specs.Passes.{fresh_pass};
ghost use Rattle.request_slots.specs.Views.{pass_in, with_standing};
ghost use Rattle.combiner.specs.Standing.{callers_of, Rests, IsOfCallers};
ghost use Rattle.combiner.specs.Says.{MeetsAnother};
ghost use Rattle.combiner.specs.Serving.{ServesBatch};
ghost use Rattle.combiner.specs.Passes.{Taking, Telling, IsReadyDesk, HasPassed};

use batch_flatten::{Ran, run_batch};
use call_history::{Outcome, Request};
use request_slots::{Desk, Seat, Slots};
use scan_kernels::{Execution, Meter};
use std::alloc::Global;

/// Tries each word in turn, once. The callers of the requests taken stand in `numbers`.
pub(crate) fn take_all(
    slots: &Slots,
    seat: &mut Seat,
    callers: usize,
    requests: &mut Vec<Request>,
    numbers: &mut [u8; 64],
)
    requires place { seat.old.standing.machine ≡ slots.now }
    requires callers { (callers + 1 ≡ slots.now.slots) × (callers ≤ 64) }
    requires pass { seat.old.pass ≡ Some (fresh_pass (pass_in seat.old).line) }
    requires empty { requests.old.items ≡ [] }
    requires spaces { callers ≤ vec_capacity requests.old }
    ensures place { seat.new.standing.machine ≡ slots.now }
    ensures taken { Taking seat.old seat.new callers requests.new.items numbers.new }
    ensures spaces { vec_capacity requests.new ≡ vec_capacity requests.old }
{
    for i in 0..callers {
        if slots.passes_by(seat, i) {
            continue;
        }
        if let Some(request) = slots.step_take(seat, i) {
            numbers[requests.len()] = i as u8;
            requests.push_reserved(request);
        }
    }
}

/// Tells each outcome to its caller, the last one first.
fn answer_all(
    slots: &Slots,
    seat: &mut Seat,
    callers: usize,
    numbers: &[u8; 64],
    outcomes: &mut Vec<Outcome>,
)
    requires place { seat.old.standing.machine ≡ slots.now }
    requires callers { (callers + 1 ≡ slots.now.slots) × (callers ≤ 64) }
    requires count { vec_len outcomes.old ≤ 64 }
    requires telling { Telling callers seat.old seat.old outcomes.old.items numbers.now (vec_len outcomes.old) }
    ensures place { seat.new.standing.machine ≡ slots.now }
    ensures told { Telling callers seat.old seat.new [] numbers.now 0 }
    ensures empty { outcomes.new.items ≡ [] }
    ensures spaces { vec_capacity outcomes.new ≡ vec_capacity outcomes.old }
{
    while let Some(outcome) = outcomes.pop() {
        let left = outcomes.len();
        slots.step_answer(seat, numbers[left] as usize, outcome);
    }
}

/// Serves the requests taken, as one batch, and gives the desk back. How many they were, and how they were served.
pub(crate) fn serve(
    execution: &impl Execution,
    alloc: Global,
    slots: &Slots,
    seat: &mut Seat,
    callers: usize,
    numbers: &[u8; 64],
    mut desk: Box<Desk>,
) -> (usize, Ran)
    requires place { seat.old.standing.machine ≡ slots.now }
    requires callers { (callers + 1 ≡ slots.now.slots) × (callers ≤ 64) }
    requires ready { IsReadyDesk callers seat.old numbers.now desk.value }
    ensures place { seat.new.standing.machine ≡ slots.now }
    ensures served { HasPassed seat.old seat.new result.0 }
    ensures batch { ServesBatch seat.old.standing.bounds callers seat.old.standing.seen seat.new.standing.seen
        result.0 result.1.waves result.1.kernels }
    ensures few { result.0 ≤ callers }
    ensures few_waves { result.1.waves ≤ result.0 }
    ensures rests { Rests seat.new.standing }
    ensures no_strangers { IsOfCallers (callers_of seat.new.standing.machine) seat.new.standing.seen }
    ensures whole { Whole seat.new.standing.seen }
{
    let count = desk.requests.len();
    let open = &mut *desk;
    let ran = run_batch(
        execution,
        alloc,
        &mut open.book,
        &mut open.requests,
        &mut open.outcomes,
        &mut Meter::new(),
    );
    slots.step_commit(seat, &desk);
    answer_all(slots, seat, callers, numbers, &mut desk.outcomes);
    slots.step_unlock(seat, desk);
    (count, ran)
}

/// Serves what all callers left, as one batch, unless another caller has the desk. How many calls were taken, and how they were
/// served.
pub(crate) fn pass(
    execution: &impl Execution,
    alloc: Global,
    slots: &Slots,
    seat: &mut Seat,
    callers: usize,
) -> Option<(usize, Ran)>
    requires place { seat.old.standing.machine ≡ slots.now }
    requires callers { (callers + 1 ≡ slots.now.slots) × (callers ≤ 64) }
    requires no_desk { seat.old.pass ≡ None }
    ensures place { seat.new.standing.machine ≡ slots.now }
    ensures served { IfSome result (λ p. HasPassed seat.old seat.new p.0) }
    ensures batch { IfSome result (λ p. ServesBatch seat.old.standing.bounds callers
        seat.old.standing.seen seat.new.standing.seen p.0 p.1.waves p.1.kernels) }
    ensures few { IfSome result (λ p. p.0 ≤ callers) }
    ensures few_waves { IfSome result (λ p. p.1.waves ≤ p.0) }
    ensures rests { IfSome result (λ _. Rests seat.new.standing) }
    ensures no_strangers { IfSome result (λ _. IsOfCallers (callers_of seat.new.standing.machine) seat.new.standing.seen) }
    ensures whole { IfSome result (λ _. Whole seat.new.standing.seen) }
    ensures busy { IfNone result (MeetsAnother seat.old.standing seat.new.standing) }
    ensures only_met { IfNone result (seat.new ≡ with_standing seat.old seat.new.standing) }
{
    let mut desk = slots.step_lock(seat)?;
    let mut numbers = [0u8; 64];
    take_all(slots, seat, callers, &mut desk.requests, &mut numbers);
    Some(serve(execution, alloc, slots, seat, callers, &numbers, desk))
}
