ghost use Rattle.std.specs.Prelude.{◌≡◌, length};
ghost use Rattle.call_history.specs.Blocks.{Whole};
ghost use Rattle.call_history.specs.History.{Begins};
ghost use Rattle.request_slots.specs.Fronts.{IsOfCallers};
ghost use Rattle.request_slots.specs.Standing.{callers_of, Rests};
ghost use Rattle.request_slots.specs.Changes.{seeing};
ghost use Rattle.request_slots.specs.Views.{with_standing, informed, adopting};

use crate::places::LENGTH;
use crate::plays::{Adopt, Look, Show};
use crate::seat::Seat;
use crate::slots::Slots;

impl Slots {
    /// The length of the history committed, all of which the caller has then seen: calls of callers of the table alone, and of no
    /// block a part.
    pub fn step_look(&self, seat: &mut Seat) -> u64
        requires place { seat.old.standing.machine ≡ self.now }
        ensures place { seat.new.standing.machine ≡ self.now }
        ensures known { seat.new ≡ with_standing seat.old (seeing seat.old.standing seat.new.standing.seen) }
        ensures later { Begins seat.old.standing.seen seat.new.standing.seen }
        ensures length { result ≡ length seat.new.standing.seen }
        ensures rests { Rests seat.new.standing }
        ensures no_strangers { IsOfCallers (callers_of seat.new.standing.machine) seat.new.standing.seen }
        ensures whole { Whole seat.new.standing.seen }
    {
        self.table.shared.load::<Look>(&mut seat.seat, LENGTH)
    }

    /// The caller then sees the longer of what it and the other had seen, which begins with both. The other is as before.
    pub fn step_meet(&self, seat: &mut Seat, other: &mut Seat)
        requires place { (seat.old.standing.machine ≡ self.now) × (other.old.standing.machine ≡ self.now) }
        ensures place { seat.new.standing.machine ≡ self.now }
        ensures known { seat.new ≡ adopting (informed seat.old other.old.standing.seen) }
        ensures own { Begins seat.old.standing.seen seat.new.standing.seen }
        ensures told { Begins other.old.standing.seen seat.new.standing.seen }
        ensures rests { Rests seat.new.standing }
        ensures no_strangers { IsOfCallers (callers_of seat.new.standing.machine) seat.new.standing.seen }
        ensures whole { Whole seat.new.standing.seen }
        ensures other { other.new ≡ other.old }
    {
        let shared = &self.table.shared;
        let bare = shared.split_seat::<Show>(&mut other.seat);
        shared.join_seat::<Show>(&mut seat.seat, bare);
        shared.load::<Adopt>(&mut seat.seat, LENGTH);
    }
}
