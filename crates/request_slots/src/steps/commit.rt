ghost use Rattle.std.specs.Prelude.{◌≡◌, ℕ, ◌+◌, ◌<◌, true, false};
ghost use Rattle.call_history.specs.Fits.{Fits};
ghost use Rattle.request_slots.specs.Passes.{is_in};
ghost use Rattle.request_slots.specs.Views.{pass_in, committing, HasDesk};

use crate::batch::{Batch, Commit};
use crate::desk::Desk;
use crate::places::LENGTH;
use crate::seat::Seat;
use crate::slots::Slots;
use std::marker::Brand;

impl Slots {
    /// The history of the book becomes the history committed. All words were tried, and the requests taken are served.
    pub fn step_commit(&self, seat: &mut Seat, desk: &Desk)
        requires place { seat.old.standing.machine ≡ self.now }
        requires desk { HasDesk seat.old }
        requires open { (pass_in seat.old).committed ≡ false }
        requires tried { (i : ℕ) → i + 1 < self.now.slots → is_in (pass_in seat.old).tried i ≡ true }
        requires fits { Fits seat.old.standing.bounds (pass_in seat.old).line (pass_in seat.old).taken
            desk.now.book.history desk.now.outcomes.items }
        ensures place { seat.new.standing.machine ≡ self.now }
        ensures known { seat.new
            ≡ committing seat.old (pass_in seat.old) desk.now.book.history desk.now.outcomes.items }
    {
        self.commit_as::<Brand>(seat, desk)
    }

    fn commit_as<B: Batch>(&self, seat: &mut Seat, desk: &Desk)
        requires place { seat.old.standing.machine ≡ self.now }
        requires batch { (desk.now.book.history ≡ B.line) × (desk.now.outcomes.items ≡ B.outcomes) }
        requires desk { HasDesk seat.old }
        requires open { (pass_in seat.old).committed ≡ false }
        requires tried { (i : ℕ) → i + 1 < self.now.slots → is_in (pass_in seat.old).tried i ≡ true }
        requires fits { Fits seat.old.standing.bounds (pass_in seat.old).line (pass_in seat.old).taken
            B.line B.outcomes }
        ensures place { seat.new.standing.machine ≡ self.now }
        ensures known { seat.new ≡ committing seat.old (pass_in seat.old) B.line B.outcomes }
    {
        let length = desk.book.len() as u64;
        self.table
            .shared
            .store::<Commit<B>>(&mut seat.seat, LENGTH, length);
    }
}
