ghost use Rattle.std.specs.Prelude.{◌≡◌, ◌+◌, ◌<◌, true, false, IfSome, IfNone};
ghost use Rattle.call_history.specs.Fits.{IsLawfulJob};
ghost use Rattle.request_slots.specs.Passes.{is_in, takes_on, tries};
ghost use Rattle.request_slots.specs.Views.{pass_in, passing, HasDesk};

use crate::desk::Slot;
use crate::hand::{slots_above, slots_below};
use crate::places::{POSTED, TAKEN, slot_at, word_at};
use crate::plays::{Skip, Take};
use crate::seat::{Seat, turn_times};
use crate::slots::Slots;
use call_history::Request;

impl Slots {
    /// Whether nothing is posted at the word of caller `i`, by a look alone. The word is then passed by, and counts as tried.
    pub fn passes_by(&self, seat: &mut Seat, i: usize) -> bool
        requires place { seat.old.standing.machine ≡ self.now }
        requires caller { i + 1 < self.now.slots }
        requires desk { HasDesk seat.old }
        requires untried { is_in (pass_in seat.old).tried i ≡ false }
        ensures place { seat.new.standing.machine ≡ self.now }
        ensures passed { result ≡ true → seat.new ≡ passing seat.old (tries (pass_in seat.old) i) }
        ensures kept { result ≡ false → seat.new ≡ seat.old }
    {
        self.table.shared.load::<Skip>(&mut seat.seat, word_at(i)) != POSTED
    }

    /// The caller that has the desk tries the word of caller `i`, once in a pass. Nothing comes where nothing was posted.
    pub fn step_take(&self, seat: &mut Seat, i: usize) -> Option<Request>
        requires place { seat.old.standing.machine ≡ self.now }
        requires caller { i + 1 < self.now.slots }
        requires desk { HasDesk seat.old }
        requires untried { is_in (pass_in seat.old).tried i ≡ false }
        ensures place { seat.new.standing.machine ≡ self.now }
        ensures caller { IfSome result (λ r. r.caller ≡ i) }
        ensures lawful { IfSome result (λ r. IsLawfulJob r.job) }
        ensures won { IfSome result (λ r. seat.new
            ≡ passing seat.old (takes_on (pass_in seat.old) i r.job)) }
        ensures lost { IfNone result (seat.new ≡ passing seat.old (tries (pass_in seat.old) i)) }
    {
        let shared = &self.table.shared;
        let own = seat.own_slots();
        let before = 1 + slots_below(&seat.taken, i);
        let behind = slots_above(&seat.taken, i) + own;
        turn_times(&mut seat.seat, before);
        if shared.compare_exchange::<Take>(&mut seat.seat, word_at(i), POSTED, TAKEN) != POSTED {
            turn_times(&mut seat.seat, behind);
            return None;
        }
        let Slot::Asked(job) = shared.exchange(&mut seat.seat, slot_at(i), Slot::Nothing) else {
            unreachable!()
        };
        turn_times(&mut seat.seat, 1 + behind);
        seat.taken[i] = true;
        Some(Request {
            caller: i as u64,
            job,
        })
    }
}
