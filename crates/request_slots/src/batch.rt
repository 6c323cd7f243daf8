//! What a commit or an entry brings, as a type that the proof of each picks.

ghost use Rattle.std.specs.Prelude.{List, []};
ghost use Rattle.call_history.specs.declared.entry.Entry.{Entry};
ghost use Rattle.call_history.specs.declared.request.Outcome.{Outcome};
ghost use Rattle.request_slots.specs.Events.{Commits, Enters};

use crate::desk::Slot;
use crate::known::View;
use atomic_table::Play;
use std::marker::{Brand, PhantomData};

pub(crate) trait Batch {
    // The history after the batch, and the outcomes of its requests.
    ghost line: { List Entry };

    ghost outcomes: { List Outcome };
}

impl Batch for Brand {
    ghost line = { [] };

    ghost outcomes = { [] };
}

pub(crate) struct Commit<B: Batch> {
    batch: PhantomData<B>,
}

impl<B: Batch> Play<Slot, View> for Commit<B> {
    ghost then = { Commits B.line B.outcomes };
}

pub(crate) struct Enter<B: Batch> {
    batch: PhantomData<B>,
}

impl<B: Batch> Play<Slot, View> for Enter<B> {
    ghost then = { Enters B.line };
}
