//! What was told of calls beside the replay of the history that they stand in.

ghost use Rattle.std.specs.Prelude.{◌≡◌, None};

use crate::texts::{call_text, hold_the_same, text_of};
use call_history::{Book, CALLER_LIMIT};
use cvl_calls::step;
use cvl_text::{Call, Reply};
use scan_kernels::Sequential;
use std::alloc::Global;
use vector_memory::Memory;

/// What a caller was told of a call: its place in the history, and the texts of the call and of its reply.
#[derive(Drop)]
pub(crate) struct Told {
    pub caller: u64,
    pub call: String,
    pub place: u64,
    pub reply: Vec<u8>,
}

impl Told {
    /// Whether another was told the same of the same call.
    pub fn agrees(&self, other: &Told) -> bool {
        self.caller == other.caller && self.call == other.call && self.reply == other.reply
    }
}

/// Notes that a caller was told a reply of a call, whose text this is, and of its place.
pub(crate) fn note(
    alloc: Global,
    told: &mut Vec<Told>,
    caller: u64,
    call: String,
    place: u64,
    reply: &Reply,
) -> Option<()> {
    let reply = text_of(alloc, reply)?;
    let one = Told {
        caller,
        call,
        place,
        reply,
    };
    told.push(one).ok()
}

/// Runs a call on a plain memory, and notes what a caller is told of it.
#[tactic(auto, using(cvl_calls::proofs::BlockSteps::outside_may_change))]
pub(crate) fn replay_call(
    alloc: Global,
    memory: &mut Memory,
    replay: &mut Vec<Told>,
    caller: u64,
    call: &Call,
) -> Option<()>
    requires { memory.old.block ≡ None }
    ensures { memory.new.block ≡ None }
{
    let text = call_text(alloc, call)?;
    let place = replay.len() as u64;
    let Ok(reply) = step(&Sequential, alloc, memory, call) else {
        return None;
    };
    note(alloc, replay, caller, text, place, &reply)
}

/// Runs a book's history call by call on a plain memory, and notes what is told of each place.
fn replay_entries(
    alloc: Global,
    memory: &mut Memory,
    replay: &mut Vec<Told>,
    book: &Book,
) -> Option<()>
    requires { memory.old.block ≡ None }
{
    for place in 0..book.len() {
        let entry = book.entry(place);
        replay_call(alloc, memory, replay, u64::from(entry.caller), &entry.call)?;
    }
    Some(())
}

/// Runs a book's history call by call, and notes what is told of each place. Whether the book has the memory that this ends with.
fn replays(alloc: Global, replay: &mut Vec<Told>, book: &Book) -> Option<bool> {
    let mut memory = Memory::with_edition(alloc, book.room(), book.edition()).ok()?;
    replay_entries(alloc, &mut memory, replay, book)?;
    hold_the_same(alloc, &memory, book.memory())
}

/// Whether what was told is what the replay tells of its place, of which nothing was seen before; then it is seen.
fn is_first(told: &Told, replay: &[Told], seen: &mut [bool]) -> bool {
    let Some(seen) = seen.get_mut(told.place as usize) else {
        return false;
    };
    let Some(other) = replay.get(told.place as usize) else {
        return false;
    };
    if *seen || !told.agrees(other) {
        return false;
    }
    *seen = true;
    true
}

/// Whether what was told is what the replay tells of its place, and each place is seen once.
fn are_all_once(told: &[Told], replay: &[Told], seen: &mut [bool]) -> bool {
    for one in told {
        if !is_first(one, replay, seen) {
            return false;
        }
    }
    seen.iter().all(|seen| *seen)
}

/// Whether what was told is what the replay tells of its place, and of each place something was told once.
fn is_borne_out(alloc: Global, told: &[Told], replay: &[Told]) -> Option<bool> {
    let mut seen = Vec::new(alloc);
    for _ in replay {
        seen.push(false).ok()?;
    }
    Some(are_all_once(told, replay, &mut seen))
}

/// Whether each caller was told of its calls in the order of their places.
fn is_in_order(told: &[Told]) -> bool {
    let mut ends = [0_u64; CALLER_LIMIT];
    for one in told {
        let Some(end) = ends.get_mut(one.caller as usize) else {
            return false;
        };
        if one.place < *end {
            return false;
        }
        *end = one.place.saturating_add(1);
    }
    true
}

/// Whether of each entry of a book one caller was told, what the replay of the history tells of the call that it made, and of its
/// own entries in their order; whether the book has the memory that the replay ends with, and is found right by its audit.
pub(crate) fn is_told_right(alloc: Global, book: &Book, told: &[Told]) -> Option<bool> {
    let audited = book.audit(&Sequential, alloc).ok()?;
    let mut replay = Vec::new(alloc);
    let replayed = replays(alloc, &mut replay, book)?;
    let borne_out = is_borne_out(alloc, told, &replay)?;
    Some(audited && replayed && borne_out && is_in_order(told))
}
