ghost use Rattle.std.specs.Prelude.{◌≡◌, ◌↔◌, ◌<◌, IsTrue, All, map, IfOk};
ghost use Rattle.call_history.specs.Blocks.{Whole};
ghost use Rattle.combiner.specs.Standing.{Standing, standing, IsIdle, IsResting, IsNewSeat, Rests, callers_of, IsOfCallers};

use request_slots::Seat;
use std::alloc::Global;
use std::marker::Model;
use vector_memory::OutOfMemory;

/// What one thread calls the machine with. To a contract it is what the caller knows.
#[derive(Drop)]
pub struct Caller {
    pub(crate) seat: Seat,
    /// Whether it served when it last called. Then it tries the lock before it leaves a call.
    pub(crate) leads: bool,
}

impl Model for Caller {
    ghost Value = { Standing };

    ghost view = { λ c. standing c.seat };

    ghost invariant = { λ c. IsResting c.seat };
}

impl Caller {
    /// The number of the caller, from 0. What it has seen has no calls but of callers of its machine, and cuts no block.
    pub fn number(&self) -> usize
        ensures number { result ≡ self.now.number }
        ensures inside { self.now.number < callers_of self.now.machine }
        ensures no_strangers { IsOfCallers (callers_of self.now.machine) self.now.seen }
        ensures whole { Whole self.now.seen }
    {
        self.seat.number()
    }

    /// Whether nothing is left. Then the caller's own calls in what it has seen are its record, and it is not settled.
    pub fn is_idle(&self) -> bool
        ensures idle { IsTrue result ↔ IsIdle self.now }
        ensures rests { Rests self.now }
    {
        self.seat.is_idle()
    }

    fn seated(seat: Seat) -> Caller
        requires { IsNewSeat seat }
        ensures { result ≡ standing seat }
    {
        Caller { seat, leads: true }
    }
}

/// The callers in these new seats.
pub(crate) fn seat_all(alloc: Global, seats: Vec<Seat>) -> Result<Vec<Caller>, OutOfMemory>
    requires { All IsNewSeat seats.items }
    ensures { IfOk result (λ callers. callers.items ≡ map standing seats.items) }
{
    let mut callers = Vec::new(alloc);
    for seat in seats {
        let Ok(()) = callers.push(Caller::seated(seat)) else {
            return Err(OutOfMemory);
        };
    }
    Ok(callers)
}
