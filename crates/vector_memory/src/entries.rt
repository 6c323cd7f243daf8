//! Going over the values of a memory with their names.

ghost use Rattle.std.specs.Prelude.{◌≡◌, length};
ghost use Rattle.std.specs.Iterator.{at_most};
ghost use Rattle.std.specs.Map.Iter.{ShowsInOrder, TakesFirst, deref_pair};
ghost use Rattle.vector_memory.specs.Blocks.{shown};

use crate::block::Block;
use crate::{Name, Value};
use indexmap::map::Iter;
use indexmap::{IndexMap, IndexSet};
use std::marker::Model;

/// The names of a memory and their values, in the order in which the names came. To a contract it is the list of those that are
/// left.
#[derive(Drop)]
pub struct Entries<'a> {
    /// What the memory holds, but for the names that the block under way has freed.
    held: Iter<'a, Name, Value>,
    freed: &'a IndexSet<Name>,
    /// What came in the block.
    late: Iter<'a, Name, Value>,
}

impl<'a> Model for Entries<'a> {
    ghost use Rattle.std.specs.Prelude.{◌++◌};
    ghost use Rattle.vector_memory.specs.States.{NamedValues};
    ghost use Rattle.vector_memory.specs.Blocks.{live};

    ghost Value = { NamedValues };

    ghost view = { λ e. live e.freed.now.keys e.held ++ e.late };
}

impl<'a> Entries<'a> {
    pub(crate) fn new(values: &'a IndexMap<Name, Value>, block: &'a Block) -> Entries<'a>
        ensures rest { result ≡ shown values.now.entries block.now }
        ensures runs { ShowsInOrder (deref_pair {K = Name} {X = Value}) }
    {
        Entries {
            held: values.iter(),
            freed: &block.freed,
            late: block.late.iter(),
        }
    }
}

impl<'a> Iterator for Entries<'a> {
    type Item = (&'a Name, &'a Value);

    ghost next_gives = { TakesFirst deref_pair };

    ghost remaining = { λ e. at_most (length e) };

    fn next(&mut self) -> Option<(&'a Name, &'a Value)> {
        while let Some(entry) = self.held.next() {
            if !self.freed.contains(entry.0) {
                return Some(entry);
            }
        }
        self.late.next()
    }
}
