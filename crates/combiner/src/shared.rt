ghost use Rattle.std.specs.Prelude.{◌≡◌, ◌<◌, length, IfOk, IfErr, OnOk, OnErr, All};
ghost use Rattle.vector_memory.specs.States.{IsLawfulRoom, bounds_in};
ghost use Rattle.call_history.specs.Blocks.{Whole};
ghost use Rattle.call_history.specs.History.{Begins};
ghost use Rattle.combiner.specs.Standing.{Machine, callers_of, newcomers, IsIdle, IsNewAt, IsOfCallers};
ghost use Rattle.combiner.specs.Making.{IsLawfulCount, IsMadeImpossible, IsSized};
ghost use Rattle.combiner.specs.Says.{FindsAnother, HasOwnCalls};

use crate::answers::Unfinished;
use crate::caller::{Caller, seat_all};
use crate::fault::MakeFault;
use call_history::{Book, CALLER_LIMIT};
use request_slots::{Desk, Slots};
use std::alloc::Global;
use std::marker::Model;
use vector_memory::{Edition, OutOfMemory, is_lawful_room};

/// The machine, shared by its callers. To a contract it is the machine's name.
#[derive(Drop)]
pub struct Shared {
    pub(crate) slots: Slots,
    pub(crate) callers: usize,
}

impl Model for Shared {
    ghost Value = { Machine };

    ghost view = { λ s. s.slots };

    ghost invariant = { λ s. IsSized s.slots s.callers };
}

impl Shared {
    /// A machine of edition 1 whose memory has room for up to `room` items together, and its callers in the order of their
    /// numbers. The history is empty, so what each caller has seen, nothing, is all of it.
    pub fn new(alloc: Global, callers: u64, room: u64) -> Result<(Shared, Vec<Caller>), MakeFault>
        ensures lawful { OnOk result (IsLawfulCount callers × IsLawfulRoom room) }
        ensures fault { IfErr result (IsMadeImpossible callers room) }
        ensures size { IfOk result (λ made. callers_of made.0 ≡ callers) }
        ensures callers { IfOk result (λ made. made.1.items ≡ newcomers made.0 (bounds_in Edition.One room) callers) }
        ensures each { IfOk result (λ made. All (IsNewAt made.0 (bounds_in Edition.One room)) made.1.items) }
    {
        Shared::with_edition(alloc, callers, room, Edition::One)
    }

    /// `new` with a memory of an edition.
    pub fn with_edition(
        alloc: Global,
        callers: u64,
        room: u64,
        edition: Edition,
    ) -> Result<(Shared, Vec<Caller>), MakeFault>
        ensures lawful { OnOk result (IsLawfulCount callers × IsLawfulRoom room) }
        ensures fault { IfErr result (IsMadeImpossible callers room) }
        ensures size { IfOk result (λ made. callers_of made.0 ≡ callers) }
        ensures callers { IfOk result (λ made. made.1.items ≡ newcomers made.0 (bounds_in edition room) callers) }
        ensures each { IfOk result (λ made. All (IsNewAt made.0 (bounds_in edition room)) made.1.items) }
    {
        if callers == 0 || callers > CALLER_LIMIT as u64 {
            return Err(MakeFault::BadCallers);
        }
        if !is_lawful_room(room) {
            return Err(MakeFault::BadRoom);
        }
        match Shared::with_callers(alloc, callers as usize, room, edition) {
            Ok(made) => Ok(made),
            Err(OutOfMemory) => Err(MakeFault::OutOfMemory),
        }
    }

    /// The book, unless another caller has it, which cannot be with one caller. Its history begins with what the closer has
    /// seen, and has the closer's answered calls, and what it left if that was served. No block is cut in it. With one caller,
    /// which is idle, it has its answered calls and no others.
    pub fn close(self, caller: Caller) -> Result<Book, Unfinished>
        requires { caller.machine ≡ self }
        ensures bounds { IfOk result (λ book. book.bounds ≡ caller.bounds) }
        ensures begins { IfOk result (λ book. Begins caller.seen book.history) }
        ensures own { IfOk result (λ book. HasOwnCalls caller book.history) }
        ensures no_strangers { IfOk result (λ book. IsOfCallers (callers_of self) book.history) }
        ensures whole { IfOk result (λ book. Whole book.history) }
        ensures alone { IfOk result (λ book. callers_of self ≡ 1 → IsIdle caller → length book.history ≡ length caller.own) }
        ensures found { OnErr result (FindsAnother caller) }
        ensures not_alone { OnErr result (1 < callers_of self) }
    {
        let Shared { slots, callers: _ } = self;
        let Caller { seat, leads: _ } = caller;
        let Some(desk) = slots.close(seat) else {
            return Err(Unfinished);
        };
        let Desk {
            book,
            requests: _,
            outcomes: _,
        } = Box::into_inner(desk);
        Ok(book)
    }

    fn with_callers(
        alloc: Global,
        callers: usize,
        room: u64,
        edition: Edition,
    ) -> Result<(Shared, Vec<Caller>), OutOfMemory>
        requires count { IsLawfulCount callers }
        requires room { IsLawfulRoom room }
        ensures size { IfOk result (λ made. callers_of made.0 ≡ callers) }
        ensures callers { IfOk result (λ made. made.1.items ≡ newcomers made.0 (bounds_in edition room) callers) }
    {
        let desk = Desk {
            book: Book::with_edition(alloc, room, edition)?,
            requests: Vec::with_capacity(alloc, callers)?,
            outcomes: Vec::with_capacity(alloc, callers)?,
        };
        let (slots, seats) = Slots::new(alloc, callers, Box::new(alloc, desk)?)?;
        let made = seat_all(alloc, seats)?;
        Ok((Shared { slots, callers }, made))
    }
}
