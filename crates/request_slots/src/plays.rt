//! What each step on the table tells, and how views are cut and joined.

ghost use Rattle.request_slots.specs.declared.known.View.TheVariants.{Spent};
ghost use Rattle.request_slots.specs.Views.{next_maker, next_caller, bare_view, sees_also};
ghost use Rattle.request_slots.specs.Events.{Posts, Collects, Locks, Takes, Skips, Tells, Unlocks, Looks, Adopts};

use crate::desk::Slot;
use crate::known::View;
use atomic_table::{Join, Play, Split};

pub(crate) struct Post;

impl Play<Slot, View> for Post {
    ghost then = { Posts };
}

pub(crate) struct Collect;

impl Play<Slot, View> for Collect {
    ghost then = { Collects };
}

pub(crate) struct Lock;

impl Play<Slot, View> for Lock {
    ghost then = { Locks };
}

pub(crate) struct Take;

impl Play<Slot, View> for Take {
    ghost then = { Takes };
}

pub(crate) struct Skip;

impl Play<Slot, View> for Skip {
    ghost then = { Skips };
}

pub(crate) struct Tell;

impl Play<Slot, View> for Tell {
    ghost then = { Tells };
}

pub(crate) struct Unlock;

impl Play<Slot, View> for Unlock {
    ghost then = { Unlocks };
}

pub(crate) struct Look;

impl Play<Slot, View> for Look {
    ghost then = { Looks };
}

pub(crate) struct Adopt;

impl Play<Slot, View> for Adopt {
    ghost then = { Adopts };
}

/// The maker's seat gives the next caller one.
pub(crate) struct Make;

impl Split<View> for Make {
    ghost left = { next_maker };

    ghost right = { next_caller };
}

/// A caller shows what it has seen.
pub(crate) struct Show;

impl Split<View> for Show {
    ghost left = { λ v. v };

    ghost right = { bare_view };
}

impl Join<View> for Show {
    ghost both = { sees_also };

    ghost spent = { Spent };
}
