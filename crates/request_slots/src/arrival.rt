//! At which table a new caller sits, as a type that the proof of each arrival picks.

ghost use Rattle.request_slots.specs.Standing.{Machine, nowhere};
ghost use Rattle.request_slots.specs.Events.{Arrives};

use crate::desk::Slot;
use crate::known::View;
use atomic_table::Play;
use std::marker::{Brand, PhantomData};

pub(crate) trait Place {
    ghost machine: { Machine };
}

impl Place for Brand {
    ghost machine = { nowhere };
}

pub(crate) struct Arrive<P: Place> {
    place: PhantomData<P>,
}

impl<P: Place> Play<Slot, View> for Arrive<P> {
    ghost then = { Arrives P.machine };
}
