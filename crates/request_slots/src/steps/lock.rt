ghost use Rattle.std.specs.Prelude.{◌≡◌, ◌<◌, None, IfSome, IfNone};
ghost use Rattle.request_slots.specs.Standing.{callers_of};
ghost use Rattle.request_slots.specs.Changes.{MeetsAnother, ShowsLine};
ghost use Rattle.request_slots.specs.Views.{with_standing, locking, IsSpare};

use crate::desk::{Desk, Slot};
use crate::places::{DESK, FREE, LOCK};
use crate::plays::Lock;
use crate::seat::Seat;
use crate::slots::Slots;

impl Slots {
    /// Takes the desk, in one try. It fails only where the lock names another caller, which is then among those met.
    pub fn step_lock(&self, seat: &mut Seat) -> Option<Box<Desk>>
        requires place { seat.old.standing.machine ≡ self.now }
        requires no_desk { seat.old.pass ≡ None }
        ensures place { seat.new.standing.machine ≡ self.now }
        ensures won { IfSome result (λ d. seat.new ≡ locking seat.old d.value.book.history) }
        ensures line { IfSome result (λ d. ShowsLine (callers_of self.now) seat.old.standing d.value.book) }
        ensures spare { IfSome result (λ d. IsSpare self.now.slots d.value) }
        ensures lost { IfNone result (MeetsAnother seat.old.standing seat.new.standing) }
        ensures only_met { IfNone result (seat.new ≡ with_standing seat.old seat.new.standing) }
        ensures inside { seat.old.standing.number < callers_of self.now }
    {
        let shared = &self.table.shared;
        let mark = seat.number as u64 + 1;
        if shared.compare_exchange::<Lock>(&mut seat.seat, LOCK, FREE, mark) != FREE {
            return None;
        }
        let Slot::Kept(desk) = shared.exchange(&mut seat.seat, DESK, Slot::Nothing) else {
            unreachable!()
        };
        Some(desk)
    }
}
