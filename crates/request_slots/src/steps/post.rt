ghost use Rattle.std.specs.Prelude.{◌≡◌, None};
ghost use Rattle.call_history.specs.Fits.{IsLawfulJob};
ghost use Rattle.request_slots.specs.Standing.{IsIdle};
ghost use Rattle.request_slots.specs.Changes.{leaving_job};
ghost use Rattle.request_slots.specs.Views.{with_standing};

use crate::desk::Slot;
use crate::places::{IDLE, POSTED, slot_at, word_at};
use crate::plays::Post;
use crate::seat::Seat;
use crate::slots::Slots;
use call_history::Job;

impl Slots {
    /// An idle caller leaves a job.
    pub fn step_post(&self, seat: &mut Seat, job: Job)
        requires place { seat.old.standing.machine ≡ self.now }
        requires idle { IsIdle seat.old.standing }
        requires no_desk { seat.old.pass ≡ None }
        requires lawful { IsLawfulJob job }
        ensures place { seat.new.standing.machine ≡ self.now }
        ensures known { seat.new ≡ with_standing seat.old (leaving_job seat.old.standing job) }
    {
        let shared = &self.table.shared;
        let number = seat.number;
        shared.exchange(&mut seat.seat, slot_at(number), Slot::Asked(job));
        shared.compare_exchange::<Post>(&mut seat.seat, word_at(number), IDLE, POSTED);
        seat.idle = false;
    }
}
