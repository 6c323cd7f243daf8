//! The values that a block replaced, each with the index of its name: names keep their indices while a block is under way.

ghost use Rattle.std.specs.Prelude.{◌≡◌, ◌+◌, ◌<◌, ◌≤◌, [], ◌∷◌, ◌++◌, if◌then◌else◌, is_some, true, false, slice_set, IfSome, IfNone, OnOk};
ghost use Rattle.std.specs.Option.{option_to_list};
ghost use Rattle.vector_memory.specs.Notes.{is_marked, is_noted};

use crate::Value;
use std::alloc::{AllocError, Global};
use std::marker::Model;
use std::mem;

/// The values that were held when a block began, of names that have another one, in the order in which they were replaced.
#[derive(Drop)]
pub(crate) struct Notes {
    values: Vec<(usize, Value)>,
    /// Whether a value is noted of an index, so that nothing is searched. They stay, with none set, from block to block.
    marks: Vec<bool>,
}

impl Model for Notes {
    ghost use Rattle.std.specs.Prelude.{◌-◌, vec_len, vec_capacity};
    ghost use Rattle.vector_memory.specs.Notes.{Noted, noted, AreMarked};

    ghost Value = { Noted };

    ghost view = { λ n. noted n.values.items (vec_capacity n.values - vec_len n.values) };

    ghost invariant = { λ n. AreMarked n.marks.items n.values.items };
}

impl Notes {
    /// No notes.
    pub(crate) fn new(alloc: Global) -> Notes
        ensures { result.entries ≡ [] }
    {
        Notes {
            values: Vec::new(alloc),
            marks: Vec::new(alloc),
        }
    }

    /// Makes room for so many more values, of names with indices below `names`.
    pub(crate) fn reserve(&mut self, values: usize, names: usize) -> Result<(), AllocError>
        ensures entries { self.new.entries ≡ self.old.entries }
        ensures room { OnOk result (values ≤ self.new.spaces) }
    {
        self.values.reserve(values)?;
        if self.marks.len() < names {
            self.marks.resize(names, false)?;
        }
        Ok(())
    }

    /// Notes the value that stood at an index when the block began. Where one is noted already, the value is one that the block
    /// itself had stored, and comes back.
    pub(crate) fn note(&mut self, index: usize, before: Value) -> Option<Value>
        requires { 0 < self.old.spaces }
        ensures entries { self.new.entries ≡ (if is_some result then self.old.entries else self.old.entries ++ (index, before) ∷ []) }
        ensures back { IfSome result (λ value. (value ≡ before) × (is_noted self.old.entries index ≡ true)) }
        ensures spaces { self.old.spaces ≤ self.new.spaces + 1 }
    {
        if mark(&mut self.marks, index) {
            return Some(before);
        }
        self.values.push_reserved((index, before));
        None
    }

    /// Takes the note back that was made last.
    pub(crate) fn pop(&mut self) -> Option<(usize, Value)>
        ensures entries { self.old.entries ≡ self.new.entries ++ option_to_list result }
        ensures none { IfNone result (self.old.entries ≡ []) }
    {
        let (index, value) = self.values.pop()?;
        unmark(&mut self.marks, index);
        Some((index, value))
    }

    /// Forgets all of them.
    pub(crate) fn clear(&mut self)
        ensures { self.new.entries ≡ [] }
    {
        while let Some(_) = self.pop() {}
    }
}

/// Marks an index, if there is a mark for it. Whether it was marked.
fn mark(marks: &mut Vec<bool>, index: usize) -> bool
    ensures was { result ≡ is_marked marks.old.items index }
    ensures marks { marks.new.items ≡ slice_set marks.old.items index true }
{
    if index >= marks.len() {
        return false;
    }
    mem::replace(&mut marks[index], true)
}

/// Takes the mark of an index away.
fn unmark(marks: &mut Vec<bool>, index: usize)
    ensures { marks.new.items ≡ slice_set marks.old.items index false }
{
    if index < marks.len() {
        marks[index] = false;
    }
}
