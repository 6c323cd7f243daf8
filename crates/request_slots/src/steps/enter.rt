ghost use Rattle.std.specs.Prelude.{◌≡◌, Some};
ghost use Rattle.call_history.specs.Blocks.{Whole};
ghost use Rattle.request_slots.specs.Fronts.{IsOfCallers};
ghost use Rattle.request_slots.specs.Passes.{fresh_pass};
ghost use Rattle.request_slots.specs.Standing.{callers_of, IsIdle, Rests};
ghost use Rattle.request_slots.specs.Views.{pass_in, entering_line, IsEntered};

use crate::batch::{Batch, Enter};
use crate::places::LENGTH;
use crate::seat::Seat;
use crate::slots::Slots;
use call_history::Book;
use std::marker::Brand;

impl Slots {
    /// The history of the book becomes the history committed, where an idle caller that has the desk wrote calls of its own behind
    /// what was, and no word was tried yet. The caller has then seen it, and its calls there are its record.
    pub fn step_enter(&self, seat: &mut Seat, book: &Book)
        requires place { seat.old.standing.machine ≡ self.now }
        requires idle { IsIdle seat.old.standing }
        requires fresh { seat.old.pass ≡ Some (fresh_pass (pass_in seat.old).line) }
        requires entered { IsEntered seat.old.standing.number (pass_in seat.old).line book.now.history }
        ensures place { seat.new.standing.machine ≡ self.now }
        ensures known { seat.new ≡ entering_line seat.old book.now.history }
        ensures rests { Rests seat.new.standing }
        ensures no_strangers { IsOfCallers (callers_of seat.new.standing.machine) seat.new.standing.seen }
        ensures whole { Whole seat.new.standing.seen }
    {
        self.enter_as::<Brand>(seat, book)
    }

    fn enter_as<B: Batch>(&self, seat: &mut Seat, book: &Book)
        requires place { seat.old.standing.machine ≡ self.now }
        requires line { book.now.history ≡ B.line }
        requires idle { IsIdle seat.old.standing }
        requires fresh { seat.old.pass ≡ Some (fresh_pass (pass_in seat.old).line) }
        requires entered { IsEntered seat.old.standing.number (pass_in seat.old).line B.line }
        ensures place { seat.new.standing.machine ≡ self.now }
        ensures known { seat.new ≡ entering_line seat.old B.line }
        ensures rests { Rests seat.new.standing }
        ensures no_strangers { IsOfCallers (callers_of seat.new.standing.machine) seat.new.standing.seen }
        ensures whole { Whole seat.new.standing.seen }
    {
        let length = book.len() as u64;
        self.table
            .shared
            .store::<Enter<B>>(&mut seat.seat, LENGTH, length);
    }
}
