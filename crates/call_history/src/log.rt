//! The entries of a history as they lie in memory: each call in few bytes where it can be, and else whole, beside the others.

ghost use Rattle.std.specs.Prelude.{◌≡◌, ◌+◌, ◌++◌, ◌^◌, ◌<◌, ◌≤◌, ◌∷◌, [], List, length, vec_len, vec_capacity, slice_get, false, Some, OnOk, IsOk};
ghost use Rattle.cvl_text.specs.declared.call.Call.{Call as CallValue};
ghost use Rattle.call_history.specs.History.{entry_before};
ghost use Rattle.call_history.specs.Kept.{call_of, is_whole};
ghost use Rattle.call_history.specs.Logs.{call_in, IsThere};
ghost use Rattle.call_history.specs.Refs.{call_shown, entry_of};

use crate::entry::{CallRef, EntryRef};
use crate::kept::{Kept, brief, call_again};
use cvl_text::Call;
use std::alloc::{AllocError, Global};
use std::marker::Model;

/// An entry, but for a call that lies whole.
#[derive(Clone, Copy)]
pub(crate) struct Row {
    pub(crate) caller: u8,
    pub(crate) rest: u16,
    pub(crate) ticket: u64,
    pub(crate) kept: Kept,
}

/// A long history is made of rows, so their size is what a call costs in memory beyond its own items.
const _: () = prove!(size_of::<Row>() == 48);

/// The entries in order, and the calls that lie whole. To a contract it is the entries, and for how many more there is space.
#[derive(Drop)]
pub(crate) struct Log {
    rows: Vec<Row>,
    calls: Vec<Call>,
}

/// Keeps a call, if need be whole, behind the others that lie so.
fn keep(calls: &mut Vec<Call>, call: Call) -> Kept
    requires space { vec_len calls.old < vec_capacity calls.old }
    ensures call { call_in calls.new.items result ≡ call }
    ensures there { IsThere calls.new.items result }
    ensures grows { (more : List CallValue) × (calls.new.items ≡ calls.old.items ++ more) }
    ensures few { vec_len calls.new ≤ vec_len calls.old + 1 }
    ensures capacity { vec_capacity calls.new ≡ vec_capacity calls.old }
{
    match brief(&call) {
        Some(kept) => kept,
        None => {
            let place = calls.len();
            calls.push_reserved(call);
            Kept::Whole { place }
        }
    }
}

/// The call that is kept so, told anew or lent from those that lie whole.
fn shown(calls: &[Call], kept: Kept) -> CallRef<'_>
    requires { IsThere calls.now kept }
    ensures { call_shown result ≡ call_in calls.now kept }
{
    match kept {
        Kept::Whole { place } => CallRef::Lent(&calls[place]),
        _ => CallRef::Told(call_again(kept)),
    }
}

impl Model for Log {
    ghost use Rattle.call_history.specs.Logs.{LogState, log_state, AreKept};

    ghost Value = { LogState };

    ghost view = { log_state };

    ghost invariant = { AreKept };
}

impl Log {
    /// No entries.
    pub(crate) fn new(alloc: Global) -> Log
        ensures { result.entries ≡ [] }
    {
        Log {
            rows: Vec::new(alloc),
            calls: Vec::new(alloc),
        }
    }

    /// Makes space for so many more entries at least, whatever their calls are.
    pub(crate) fn reserve(&mut self, additional: usize) -> Result<(), AllocError>
        ensures spaces { OnOk result (additional ≤ self.new.spaces) }
        ensures succeeds { additional ≤ self.old.spaces → IsOk result }
        ensures spaces_kept { self.old.spaces ≤ self.new.spaces }
        ensures entries { self.new.entries ≡ self.old.entries }
    {
        self.rows.reserve(additional)?;
        self.calls.reserve(additional)
    }

    /// Writes an entry behind the others.
    pub(crate) fn push(&mut self, caller: u8, rest: u16, ticket: u64, call: Call)
        requires { 0 < self.old.spaces }
        ensures entries { self.new.entries ≡ self.old.entries ++ entry_before caller ticket call rest ∷ [] }
        ensures spaces { self.old.spaces ≤ self.new.spaces + 1 }
    {
        let kept = keep(&mut self.calls, call);
        self.rows.push_reserved(Row {
            caller,
            rest,
            ticket,
            kept,
        });
    }

    /// Writes an entry behind the others, of a call that is kept in few bytes.
    #[inline(always)]
    pub(crate) fn push_brief(&mut self, caller: u8, ticket: u64, kept: Kept)
        requires space { 0 < self.old.spaces }
        requires brief { is_whole kept ≡ false }
        ensures entries { self.new.entries ≡ self.old.entries ++ entry_before caller ticket (call_of kept) 0 ∷ [] }
        ensures spaces { self.old.spaces ≤ self.new.spaces + 1 }
    {
        self.rows.push_reserved(Row {
            caller,
            rest: 0,
            ticket,
            kept,
        });
    }

    /// How many entries there are.
    pub(crate) fn len(&self) -> usize
        ensures len { result ≡ length self.now.entries }
        ensures small { result < 2 ^ 63 }
    {
        self.rows.len()
    }

    /// The entry at a place, counted from 0.
    pub(crate) fn entry(&self, place: usize) -> EntryRef<'_>
        requires { place < length self.now.entries }
        ensures { slice_get self.now.entries place ≡ Some (entry_of result) }
    {
        let row = self.rows[place];
        EntryRef {
            caller: row.caller,
            rest: row.rest,
            ticket: row.ticket,
            call: shown(&self.calls, row.kept),
        }
    }
}
