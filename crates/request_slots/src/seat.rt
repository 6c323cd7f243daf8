ghost use Rattle.std.specs.Prelude.{◌≡◌, ◌≤◌, not, length};
ghost use Rattle.call_history.specs.Blocks.{Whole};
ghost use Rattle.request_slots.specs.Fronts.{IsOfCallers};
ghost use Rattle.request_slots.specs.declared.known.Known.{Known};
ghost use Rattle.request_slots.specs.Standing.{callers_of, left_in, Rests};
ghost use Rattle.request_slots.specs.Views.{known_of};
ghost use Rattle.request_slots.specs.Seating.{IsSeated, own_hand, turned_times};

use crate::desk::Slot;
use crate::known::View;
use call_history::CALLER_LIMIT;
use std::marker::Model;

/// The seat of one caller. To a contract it is what the caller knows.
#[derive(Drop)]
pub struct Seat {
    pub(crate) seat: atomic_table::Seat<Slot, View>,
    pub(crate) number: usize,
    pub(crate) idle: bool,
    /// The callers whose requests it has taken and not yet answered.
    pub(crate) taken: [bool; CALLER_LIMIT],
}

impl Model for Seat {
    ghost Value = { Known };

    ghost view = { λ s. known_of s.seat.me.0 };

    ghost invariant = { λ s. IsSeated s.seat s.number s.idle s.taken };
}

impl Seat {
    /// The number of the caller, from 0.
    pub fn number(&self) -> usize
        ensures { result ≡ self.now.standing.number }
    {
        self.number
    }

    /// Whether nothing is left. Then the caller's own calls in what it has seen are its record, and nothing waits for it.
    pub fn is_idle(&self) -> bool
        ensures idle { result ≡ not (left_in self.now.standing.phase) }
        ensures rests { Rests self.now.standing }
        ensures no_strangers { IsOfCallers (callers_of self.now.standing.machine) self.now.standing.seen }
        ensures whole { Whole self.now.standing.seen }
    {
        self.idle
    }

    // An idle caller has its own slot in its hand.
    pub(crate) fn own_slots(&self) -> usize
        ensures count { result ≡ length (own_hand self.now.standing.number self.now.standing.phase) }
        ensures few { result ≤ 1 }
    {
        if self.idle { 1 } else { 0 }
    }
}

// The first slots of the hand go behind the others.
pub(crate) fn turn_times(seat: &mut atomic_table::Seat<Slot, View>, count: usize)
    ensures place { (seat.new.table_id ≡ seat.old.table_id) × (seat.new.id ≡ seat.old.id) }
    ensures hand { seat.new.me ≡ (seat.old.me.0, turned_times count seat.old.me.1) }
{
    for _ in 0..count {
        seat.turn();
    }
}
