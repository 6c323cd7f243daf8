ghost use Rattle.std.specs.Prelude.{◌≡◌, false, IfSome, IfNone};
ghost use Rattle.call_history.specs.Blocks.{Whole};
ghost use Rattle.call_history.specs.Fits.{IsOfJob, fate_of};
ghost use Rattle.request_slots.specs.Fronts.{IsOfCallers};
ghost use Rattle.request_slots.specs.Standing.{callers_of, left_job, IsLeft, Rests};
ghost use Rattle.request_slots.specs.Changes.{Collected};
ghost use Rattle.request_slots.specs.Views.{with_standing};

use crate::desk::Slot;
use crate::places::{DONE, IDLE, slot_at, word_at};
use crate::plays::Collect;
use crate::seat::Seat;
use crate::slots::Slots;
use call_history::Outcome;

impl Slots {
    /// A caller that left a job takes the outcome, if there is one yet. A settled caller never waits.
    pub fn step_collect(&self, seat: &mut Seat) -> Option<Outcome>
        requires place { seat.old.standing.machine ≡ self.now }
        requires left { IsLeft seat.old.standing }
        ensures place { seat.new.standing.machine ≡ self.now }
        ensures told { IfSome result (λ o. Collected seat.old.standing (fate_of o) seat.new.standing) }
        ensures kind { IfSome result (λ o. IsOfJob (left_job seat.old.standing.phase) o) }
        ensures only_told { IfSome result (λ _. seat.new ≡ with_standing seat.old seat.new.standing) }
        ensures waiting { IfNone result ((seat.new ≡ seat.old) × (seat.old.standing.settled ≡ false)) }
        ensures rests { Rests seat.new.standing }
        ensures no_strangers { IsOfCallers (callers_of seat.new.standing.machine) seat.new.standing.seen }
        ensures whole { Whole seat.new.standing.seen }
    {
        let number = seat.number;
        let shared = &self.table.shared;
        if shared.compare_exchange::<Collect>(&mut seat.seat, word_at(number), DONE, IDLE) != DONE {
            return None;
        }
        let Slot::Told(outcome) = shared.exchange(&mut seat.seat, slot_at(number), Slot::Nothing)
        else {
            unreachable!()
        };
        seat.seat.turn();
        seat.idle = true;
        Some(outcome)
    }
}
