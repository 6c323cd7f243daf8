ghost use Rattle.std.specs.Prelude.{◌≡◌, []};
ghost use Rattle.call_history.specs.Blocks.{Whole};
ghost use Rattle.request_slots.specs.Fronts.{IsOfCallers};
ghost use Rattle.request_slots.specs.Standing.{callers_of, Rests};
ghost use Rattle.request_slots.specs.Views.{pass_in, unlocking, HasDesk, IsSpare};

use crate::desk::{Desk, Slot};
use crate::places::{DESK, FREE, LOCK};
use crate::plays::Unlock;
use crate::seat::Seat;
use crate::slots::Slots;

impl Slots {
    /// The desk goes home. Then the caller has seen the history committed, and is settled if its own word was tried.
    pub fn step_unlock(&self, seat: &mut Seat, desk: Box<Desk>)
        requires place { seat.old.standing.machine ≡ self.now }
        requires desk { HasDesk seat.old }
        requires all_told { (pass_in seat.old).taken ≡ [] }
        requires line { desk.value.book.history ≡ (pass_in seat.old).line }
        requires bounds { desk.value.book.bounds ≡ seat.old.standing.bounds }
        requires spare { IsSpare self.now.slots desk.value }
        ensures place { seat.new.standing.machine ≡ self.now }
        ensures known { seat.new ≡ unlocking seat.old (pass_in seat.old) }
        ensures rests { Rests seat.new.standing }
        ensures no_strangers { IsOfCallers (callers_of seat.new.standing.machine) seat.new.standing.seen }
        ensures whole { Whole seat.new.standing.seen }
    {
        let shared = &self.table.shared;
        shared.exchange(&mut seat.seat, DESK, Slot::Kept(desk));
        shared.store::<Unlock>(&mut seat.seat, LOCK, FREE);
    }
}
