ghost use Rattle.std.specs.Prelude.{◌≡◌, ◌+◌, ◌<◌, true, Some, IsSome};
ghost use Rattle.call_history.specs.Fits.{request_by, outcome_by};
ghost use Rattle.request_slots.specs.Passes.{strikes};
ghost use Rattle.request_slots.specs.Views.{pass_in, passing, HasDesk};

use crate::desk::Slot;
use crate::hand::{slots_above, slots_below};
use crate::places::{DONE, slot_at, word_at};
use crate::plays::Tell;
use crate::seat::{Seat, turn_times};
use crate::slots::Slots;
use call_history::Outcome;

impl Slots {
    /// Caller `i`, whose request was taken, is told its outcome, in any order of the callers.
    pub fn step_answer(&self, seat: &mut Seat, i: usize, outcome: Outcome)
        requires place { seat.old.standing.machine ≡ self.now }
        requires caller { i + 1 < self.now.slots }
        requires desk { HasDesk seat.old }
        requires committed { (pass_in seat.old).committed ≡ true }
        requires taken { IsSome (request_by i (pass_in seat.old).taken) }
        requires outcome { outcome_by i (pass_in seat.old).asked (pass_in seat.old).outcomes ≡ Some outcome }
        ensures place { seat.new.standing.machine ≡ self.now }
        ensures known { seat.new ≡ passing seat.old (strikes (pass_in seat.old) i) }
    {
        let shared = &self.table.shared;
        let own = seat.own_slots();
        let before = 1 + slots_below(&seat.taken, i);
        let behind = slots_above(&seat.taken, i) + own;
        turn_times(&mut seat.seat, before);
        shared.exchange(&mut seat.seat, slot_at(i), Slot::Told(outcome));
        shared.store::<Tell>(&mut seat.seat, word_at(i), DONE);
        turn_times(&mut seat.seat, behind);
        seat.taken[i] = false;
    }
}
