ghost use Rattle.std.specs.Prelude.{◌≡◌, ◌+◌, ◌*◌, ◌<◌, ◌≤◌, [], ◌∷◌, All, map, IfSome, IfNone, IfOk, None, replicate};
ghost use Rattle.atomic_table.specs.Seated.{TableId};
ghost use Rattle.request_slots.specs.declared.desk.Slot.TheVariants.{Nothing, Kept};
ghost use Rattle.request_slots.specs.declared.known.View.TheVariants.{Maker};
ghost use Rattle.request_slots.specs.Lawful.{Lawful};
ghost use Rattle.request_slots.specs.Standing.{callers_of, newcomer, newcomers};
ghost use Rattle.request_slots.specs.Changes.{ShowsLine, FindsAnother};
ghost use Rattle.request_slots.specs.Views.{untold, IsSpare};
ghost use Rattle.request_slots.specs.Seating.{IsNewSeatAt};

use crate::arrival::{Arrive, Place};
use crate::desk::{Desk, Slot};
use crate::hand::no_marks;
use crate::known::View;
use crate::places::{IDLE, UNMADE, slot_at, word_at};
use crate::plays::Make;
use crate::seat::Seat;
use atomic_table::{Table, TableRule};
use std::alloc::Global;
use std::marker::{Brand, Model};
use vector_memory::{Bounds, OutOfMemory};

/// The rule of the table, of which the key is how much the memory may hold.
pub(crate) struct OneHistory;

impl TableRule<Slot, View, Bounds> for OneHistory {
    ghost holds = { Lawful };

    ghost first = { λ bounds. Maker bounds 0 };
}

/// The words and slots of one table, shared by its seats. To a contract it is the table's name.
#[derive(Drop)]
pub struct Slots {
    pub(crate) table: Table<Slot, View, Bounds, OneHistory, Global>,
}

impl Model for Slots {
    ghost Value = { TableId };

    ghost view = { λ s. s.table.shared.table_id };
}

impl Slots {
    /// A table for so many callers, and their seats, numbered from 0 in order. All are idle. The history is empty, so what each
    /// has seen, nothing, is all of it.
    pub fn new(
        alloc: Global,
        callers: usize,
        desk: Box<Desk>,
    ) -> Result<(Slots, Vec<Seat>), OutOfMemory>
        requires count { (0 < callers) × (callers ≤ 64) }
        requires empty { desk.value.book.history ≡ [] }
        requires spare { IsSpare (callers + 1) desk.value }
        ensures size { IfOk result (λ t. t.0.slots ≡ callers + 1) }
        ensures seats { IfOk result (λ t. t.1.items ≡ map untold (newcomers t.0 desk.value.book.bounds callers)) }
        ensures each { IfOk result (λ t. All (IsNewSeatAt t.0) t.1.items) }
    {
        let bounds = desk.book.bounds();
        let mut seats = Vec::with_capacity(alloc, callers)?;
        // Up to where the word of one caller more would be. The lock is free and the length 0, which is the number of UNMADE too.
        let words = Vec::from_elem(alloc, UNMADE, word_at(callers))?;
        let homes = homes_of(alloc, callers, desk)?;
        let Ok((table, mut maker)) = Table::new(alloc, words.as_slice(), homes, &bounds) else {
            return Err(OutOfMemory);
        };
        let slots = Slots { table };
        for k in 0..callers {
            seats.push(slots.make_caller(&mut maker, bounds, k))?;
        }
        Ok((slots, seats))
    }

    /// The desk, unless the lock names another caller, which cannot be with one caller.
    pub fn close(self, mut seat: Seat) -> Option<Box<Desk>>
        requires place { seat.standing.machine ≡ self }
        requires no_desk { seat.pass ≡ None }
        ensures line { IfSome result (λ d. ShowsLine (callers_of self) seat.standing d.value.book) }
        ensures found { IfNone result (FindsAnother seat.standing) }
        ensures inside { seat.standing.number < callers_of self }
    {
        self.step_lock(&mut seat)
    }

    fn make_caller(
        &self,
        maker: &mut atomic_table::Seat<Slot, View>,
        bounds: Bounds,
        number: usize,
    ) -> Seat
        requires place { maker.old.table_id ≡ self.now }
        requires maker { maker.old.me ≡ (Maker bounds number, []) }
        requires size { (number + 1 < self.now.slots) × (self.now.slots ≤ 65) × (self.now.words ≡ 8 * self.now.slots + 8) }
        ensures place { maker.new.table_id ≡ self.now }
        ensures maker { maker.new.me ≡ (Maker bounds (number + 1), []) }
        ensures seat { result ≡ untold (newcomer self.now bounds number) }
    {
        self.make_caller_at::<Brand>(maker, bounds, number)
    }

    fn make_caller_at<P: Place>(
        &self,
        maker: &mut atomic_table::Seat<Slot, View>,
        bounds: Bounds,
        number: usize,
    ) -> Seat
        requires machine { P.machine ≡ self.now }
        requires place { maker.old.table_id ≡ self.now }
        requires maker { maker.old.me ≡ (Maker bounds number, []) }
        requires size { (number + 1 < self.now.slots) × (self.now.slots ≤ 65) × (self.now.words ≡ 8 * self.now.slots + 8) }
        ensures place { maker.new.table_id ≡ self.now }
        ensures maker { maker.new.me ≡ (Maker bounds (number + 1), []) }
        ensures seat { result ≡ untold (newcomer P.machine bounds number) }
    {
        let shared = &self.table.shared;
        let mut seat = shared.split_seat::<Make>(maker);
        shared.store::<Arrive<P>>(&mut seat, word_at(number), IDLE);
        Seat {
            seat,
            number,
            idle: true,
            taken: no_marks(),
        }
    }
}

// The desk, and an empty slot for each caller.
fn homes_of(alloc: Global, callers: usize, desk: Box<Desk>) -> Result<Vec<Slot>, OutOfMemory>
    requires { callers ≤ 64 }
    ensures { IfOk result (λ v. v.items ≡ Kept desk ∷ replicate callers Nothing) }
{
    let mut homes = Vec::with_capacity(alloc, slot_at(callers))?;
    homes.push(Slot::Kept(desk))?;
    for _ in 0..callers {
        homes.push(Slot::Nothing)?;
    }
    Ok(homes)
}
