//! The editions of the profile, which differ in how large values may be and how long names.

ghost use Rattle.std.specs.Prelude.{◌≡◌};
ghost use Rattle.vector_memory.specs.Editions.{item_limit, longest_name};
ghost use Rattle.vector_memory.specs.States.{bounds_in};

use crate::Bounds;
use std::marker::Model;

/// The limit of edition 1: the greatest number of items of a value, and the greatest sum of the lengths of a segment list.
pub const ITEM_LIMIT: usize = 1_048_576;

/// The limit of edition 2.
pub const LARGE_ITEM_LIMIT: usize = 16_777_216;

/// An edition of the profile. What was made or read with none named is of the first.
#[derive(Clone, Copy, Debug, PartialEq, Eq)]
pub enum Edition {
    /// Values of up to `ITEM_LIMIT` items, names of up to 16 bytes.
    One,
    /// Values of up to `LARGE_ITEM_LIMIT` items, names of up to 32 bytes, and blocks of calls in scripts.
    Two,
}

impl Edition {
    /// The greatest number of items of a value, and the greatest sum of the lengths of a segment list.
    pub fn limit(self) -> usize
        ensures { result ≡ item_limit self }
    {
        match self {
            Edition::One => ITEM_LIMIT,
            Edition::Two => LARGE_ITEM_LIMIT,
        }
    }

    /// The bounds of a memory of the edition, for values of up to `room` items together.
    pub fn bounds(self, room: u64) -> Bounds
        ensures { result ≡ bounds_in self room }
    {
        Bounds {
            room,
            limit: self.limit(),
        }
    }

    /// The greatest number of bytes of a name.
    pub fn longest_name(self) -> usize
        ensures { result ≡ longest_name self }
    {
        match self {
            Edition::One => 16,
            Edition::Two => 32,
        }
    }
}

/// The limit of a memory, kept as the edition whose limit it is. To a contract it is the number.
#[derive(Drop)]
pub(crate) struct Limit {
    pub(crate) edition: Edition,
}

impl Model for Limit {
    ghost use Rattle.std.specs.Prelude.{ℕ};
    ghost use Rattle.vector_memory.specs.Editions.{item_limit};

    ghost Value = { ℕ };

    ghost view = { λ l. item_limit l.edition };
}

impl Limit {
    /// The number.
    pub(crate) fn items(&self) -> usize
        ensures { result ≡ self.now }
    {
        self.edition.limit()
    }

    /// The edition.
    pub(crate) fn edition(&self) -> Edition
        ensures { item_limit result ≡ self.now }
    {
        self.edition
    }
}
