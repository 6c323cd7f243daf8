//! An entry of a history, and how a book shows one.

ghost use Rattle.std.specs.Prelude.{◌≡◌};
ghost use Rattle.call_history.specs.Refs.{call_shown};

use cvl_text::Call;
use std::ops::Deref;

/// A call in a history.
#[derive(Debug, Drop)]
pub struct Entry {
    /// The number of the caller, from 0.
    pub caller: u8,
    /// How many more entries of its block follow at once, 0 for a single call.
    pub rest: u16,
    /// How many calls of this caller stand before it.
    pub ticket: u64,
    pub call: Call,
}

/// An entry as its book shows it. The fields are those of an `Entry`; `&entry.call` is the call.
#[derive(Debug, Drop)]
pub struct EntryRef<'a> {
    /// The number of the caller, from 0.
    pub caller: u8,
    /// How many more entries of its block follow at once, 0 for a single call.
    pub rest: u16,
    /// How many calls of this caller stand before it.
    pub ticket: u64,
    pub call: CallRef<'a>,
}

/// A call of a history: told anew, where the book keeps it in few bytes, or lent, where it lies whole. It takes no memory.
#[derive(Debug, Drop)]
pub enum CallRef<'a> {
    Told(Call),
    Lent(&'a Call),
}

impl Deref for CallRef<'_> {
    type Target = Call;

    ghost deref_gives = { λ c x. x ≡ call_shown c };

    fn deref(&self) -> &Call {
        match self {
            CallRef::Told(call) => call,
            CallRef::Lent(call) => call,
        }
    }
}
