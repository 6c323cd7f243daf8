ghost use Rattle.std.specs.Prelude.{◌≡◌, if◌then◌else◌, ◌==◌, ◌↔◌, ◌+◌, ◌-◌, ◌<◌, IsTrue, ℕ, ◌≤◌, Err, unwrap_or, None, Some, length, position, IfOk, IfErr, IfSome, OnOk, OnErr, is_some};
ghost use Rattle.std.specs.Map.Iter.{ShowsInOrder, deref_pair};
ghost use Rattle.std.specs.Option.{option_map, option_copied};
ghost use Rattle.std.specs.List.{IsDistinct};
ghost use Rattle.std.specs.Map.{keys_of};
ghost use Rattle.indexmap.specs.IndexMap.{get, index_of, insert_entry, IsUnique};
ghost use Rattle.vector_memory.specs.Contents.{content_of, size_of};
ghost use Rattle.vector_memory.specs.Names.{same_name};
ghost use Rattle.vector_memory.specs.Insides.{refusal_by};
ghost use Rattle.vector_memory.specs.States.{IsLawfulRoom};

use crate::block::Block;
use crate::edition::Limit;
use crate::{Bounds, Edition, Entries, Name, Value};
use indexmap::IndexMap;
use segment_desc::OutOfMemory;
use std::alloc::Global;
use std::marker::Model;
use std::mem;
use thiserror::Error;

/// The greatest room of a memory.
pub const ROOM_LIMIT: u64 = 67_108_864;

/// The greatest number of names in a memory.
pub const NAME_LIMIT: usize = 4096;

/// The greatest number of changes of a block.
pub const CHANGE_LIMIT: usize = 1024;

/// The number of names that a memory has a table for from the start.
const FIRST_NAMES: usize = 16;

/// Whether a memory may have this room: from 1 to `ROOM_LIMIT`.
pub fn is_lawful_room(room: u64) -> bool
    ensures { IsTrue result ↔ IsLawfulRoom room }
{
    1 <= room && room <= ROOM_LIMIT
}

/// Why a value was not stored.
#[derive(Debug, Drop, Error, PartialEq, Eq)]
pub enum StoreFault {
    /// The items of all values would pass the room.
    #[error("no room for the value")]
    NoRoom,
    /// The name is new, and there are as many names as there may be.
    #[error("too many names")]
    TooManyNames,
    /// The name is new, and an allocation for it was refused.
    #[error("out of memory")]
    OutOfMemory,
}

/// Where a value goes, and the number of items of all values once it is there.
#[derive(Clone, Copy)]
struct Place {
    /// The index of its name, if the name is there.
    index: Option<usize>,
    cells: usize,
}

/// Values by name, in the order in which the names came. Their items are together no more than the room, and those of each
/// no more than the limit.
#[derive(Drop)]
pub struct Memory {
    values: IndexMap<Name, Value>,
    cells: usize,
    room: u64,
    limit: Limit,
    /// What a block that is under way has changed.
    block: Block,
}

impl Model for Memory {
    ghost use Rattle.std.specs.Prelude.{◌≡◌};
    ghost use Rattle.vector_memory.specs.States.{State, IsLawful, contents, cells_of};

    ghost Value = { State };

    ghost use Rattle.vector_memory.specs.Insides.{state_of, IsKept};

    ghost view = { state_of };

    ghost invariant = { IsKept };
}

impl Memory {
    ghost use Rattle.vector_memory.specs.Editions.{item_limit};
    ghost use Rattle.vector_memory.specs.States.{State, IsLawful, IsLawfulRoom, IsJudged, MayChange, begun, bounds_in, bounds_of, change_limit, changes_left, ended, undone, empty, value_at, cells_of, cells_after, refusal, put, without, contents, FitsLimits};

    /// A memory of edition 1 without values, for values of up to `room` items together, from 1 to `ROOM_LIMIT`, and of up to
    /// `ITEM_LIMIT` items each.
    pub fn new(alloc: Global, room: u64) -> Result<Memory, OutOfMemory>
        requires { IsLawfulRoom room }
        ensures { IfOk result (λ memory. memory ≡ empty (bounds_in Edition.One room)) }
    {
        Memory::with_edition(alloc, room, Edition::One)
    }

    /// A memory of an edition without values, for values of up to `room` items together, from 1 to `ROOM_LIMIT`, and of up to as
    /// many items each as the edition says.
    pub fn with_edition(alloc: Global, room: u64, edition: Edition) -> Result<Memory, OutOfMemory>
        requires { IsLawfulRoom room }
        ensures { IfOk result (λ memory. memory ≡ empty (bounds_in edition room)) }
    {
        Ok(Memory {
            values: IndexMap::with_capacity(alloc, FIRST_NAMES)?,
            cells: 0,
            room,
            limit: Limit { edition },
            block: Block::none(alloc),
        })
    }

    /// The value of a name, if it has one.
    pub fn get(&self, name: &Name) -> Option<&Value>
        ensures value { option_map content_of (option_copied result) ≡ value_at self.now name.now }
        ensures fits { IfSome result (λ value. FitsLimits self.now.limit (content_of value.now)) }
    {
        self.block.get(&self.values, name)
    }

    /// The number of items of all values.
    pub fn cells(&self) -> usize
        ensures { result ≡ cells_of self.now.entries }
    {
        self.cells
    }

    /// The number of names.
    pub fn len(&self) -> usize
        ensures { result ≡ length self.now.entries }
    {
        if self.block.begun {
            return self.block.names;
        }
        self.values.len()
    }

    /// Whether no name has a value.
    pub fn is_empty(&self) -> bool
        ensures { result ≡ (length self.now.entries == 0) }
    {
        self.len() == 0
    }

    /// The greatest number of items of all values.
    pub fn room(&self) -> u64
        ensures { result ≡ self.now.room }
    {
        self.room
    }

    /// The greatest number of items of a value, and the greatest sum of the lengths of a segment list.
    pub fn limit(&self) -> usize
        ensures { result ≡ self.now.limit }
    {
        self.limit.items()
    }

    /// The edition that the memory was made with.
    pub fn edition(&self) -> Edition
        ensures { item_limit result ≡ self.now.limit }
    {
        self.limit.edition()
    }

    /// How much the memory may hold.
    pub fn bounds(&self) -> Bounds
        ensures { result ≡ bounds_of self.now }
    {
        Bounds {
            room: self.room(),
            limit: self.limit(),
        }
    }

    /// The values with their names, in the order in which the names came. No name comes twice.
    pub fn iter(&self) -> Entries<'_>
        ensures rest { contents result ≡ self.now.entries }
        ensures distinct { IsDistinct same_name (keys_of self.now.entries) }
        ensures runs { ShowsInOrder (deref_pair {K = Name} {X = Value}) }
    {
        Entries::new(&self.values, &self.block)
    }

    /// Whether a block has begun and not ended.
    pub fn in_block(&self) -> bool
        ensures { result ≡ is_some self.now.block }
    {
        self.block.begun
    }

    /// How many more changes the block may make, 0 outside a block.
    pub fn changes_left(&self) -> usize
        ensures { result ≡ changes_left self.now }
    {
        if !self.block.begun {
            return 0;
        }
        self.block.left
    }

    /// Begins a block of up to `changes` changes, 1 to `CHANGE_LIMIT`, and makes the room for all that it notes. What the memory
    /// holds stays as it is.
    pub fn begin_block(&mut self, changes: usize) -> Result<(), OutOfMemory>
        requires outside { self.old.block ≡ None }
        requires few { (1 ≤ changes) × (changes ≤ change_limit) }
        ensures ok { OnOk result (self.new ≡ begun self.old changes) }
        ensures err { OnErr result (self.new ≡ self.old) }
    {
        self.values.reserve(changes)?;
        self.block.begin(changes, self.values.len(), self.cells)?;
        Ok(())
    }

    /// Takes a block back: the memory holds again what it held when the block began, in the same order. Takes no memory.
    pub fn undo_block(&mut self)
        requires { IsTrue (is_some self.old.block) }
        ensures { self.new ≡ undone self.old }
    {
        self.cells = self.block.cells;
        self.block.undo(&mut self.values);
    }

    /// Ends a block, and what it changed stays. Takes no memory.
    pub fn end_block(&mut self)
        requires { IsTrue (is_some self.old.block) }
        ensures { self.new ≡ ended self.old }
    {
        self.block.end(&mut self.values);
    }

    /// That every memory is lawful, which a read of a field makes known.
    pub(crate) fn recall_lawful(&self)
        ensures { IsLawful self.now }
    {
        let _room = self.room;
    }

    /// The index of a name and its value, if it has one.
    fn find(&self, name: &Name) -> Option<(usize, &Value)>
        requires { self.now.block ≡ None }
        ensures index { option_map (λ found. found.0) result ≡ position (same_name name.now) (keys_of self.now.entries) }
        ensures value { option_map (λ found. content_of found.1.now) result ≡ value_at self.now name.now }
    {
        let (index, _, value) = self.values.get_full(name)?;
        Some((index, value))
    }

    /// How many items there are with a value of this size in place of one of the old size, or none, or why it cannot be stored.
    #[inline]
    fn count(&self, old: Option<usize>, size: usize) -> Result<usize, StoreFault>
        requires size { size ≤ self.now.limit }
        requires old { unwrap_or old 0 ≤ cells_of self.now.entries }
        ensures accepted { OnOk result (refusal_by self.now old size ≡ None) }
        ensures cells { IfOk result (λ cells. cells ≡ (cells_of self.now.entries - unwrap_or old 0) + size) }
        ensures refused { IfErr result (λ fault. refusal_by self.now old size ≡ Some fault) }
    {
        self.recall_lawful();
        let cells = self.cells() - old.unwrap_or(0) + size;
        if cells as u64 > self.room() {
            return Err(StoreFault::NoRoom);
        }
        if old.is_none() && self.len() >= NAME_LIMIT {
            return Err(StoreFault::TooManyNames);
        }
        Ok(cells)
    }

    /// Where a value goes under a name and how many items there are then, or why it cannot go there.
    #[tactic(auto, using(crate::proofs::StateLemmas::old_size_le_cells))]
    fn judge(&self, name: &Name, value: &Value) -> Result<Place, StoreFault>
        requires outside { self.now.block ≡ None }
        requires size { size_of (content_of value.now) ≤ self.now.limit }
        ensures accepted { OnOk result (refusal self.now name.now (content_of value.now) ≡ None) }
        ensures index { IfOk result (λ place. place.index ≡ position (same_name name.now) (keys_of self.now.entries)) }
        ensures cells { IfOk result (λ place. place.cells ≡ cells_after self.now name.now (content_of value.now)) }
        ensures refused { IfErr result (λ fault. refusal self.now name.now (content_of value.now) ≡ Some fault) }
    {
        let old = self.find(name);
        match self.count(old.map(|(_, value)| value.size()), value.size()) {
            Ok(cells) => Ok(Place {
                index: old.map(|(index, _)| index),
                cells,
            }),
            Err(fault) => Err(fault),
        }
    }

    /// Sets the value of a name. A name that is there keeps its place, and a new one goes last.
    /// On a refusal nothing changes and the value is dropped: `NoRoom` where the room is passed, else `TooManyNames` where
    /// the name is new and there are `NAME_LIMIT` names. Memory is refused to a new name alone. In a block each store takes a
    /// change, and there has to be one left.
    pub fn store(&mut self, name: Name, value: Value) -> Result<(), StoreFault>
        requires fits { FitsLimits self.old.limit (content_of value) }
        requires may_change { MayChange self.old }
        ensures judged { IsJudged result (refusal self.old name (content_of value)) }
        ensures new_only { result ≡ Err StoreFault.OutOfMemory → value_at self.old name ≡ None }
        ensures ok { OnOk result (self.new ≡ put self.old name (content_of value)) }
        ensures err { OnErr result (self.new ≡ self.old) }
    {
        match self.replace(name, value) {
            Ok(_) => Ok(()),
            Err(fault) => Err(fault),
        }
    }

    /// `store`, and outside a block the value that stood at the name before comes back, if there was one. In a block only a value
    /// that the block itself had stored may come back.
    #[inline]
    pub fn replace(&mut self, name: Name, value: Value) -> Result<Option<Value>, StoreFault>
        requires fits { FitsLimits self.old.limit (content_of value) }
        requires may_change { MayChange self.old }
        ensures judged { IsJudged result (refusal self.old name (content_of value)) }
        ensures new_only { result ≡ Err StoreFault.OutOfMemory → value_at self.old name ≡ None }
        ensures ok { OnOk result (self.new ≡ put self.old name (content_of value)) }
        ensures before { self.old.block ≡ None → IfOk result (λ before. option_map content_of before ≡ value_at self.old name) }
        ensures err { OnErr result (self.new ≡ self.old) }
    {
        if self.block.begun {
            return self.replace_in_block(name, value);
        }
        let place = match self.judge(&name, &value) {
            Ok(place) => place,
            Err(fault) => return Err(fault),
        };
        match put_at(&mut self.values, place.index, name, value) {
            Ok(before) => {
                self.cells = place.cells;
                Ok(before)
            }
            Err(OutOfMemory) => Err(StoreFault::OutOfMemory),
        }
    }

    /// `replace` in a block, which takes no memory.
    fn replace_in_block(&mut self, name: Name, value: Value) -> Result<Option<Value>, StoreFault>
        requires fits { FitsLimits self.old.limit (content_of value) }
        requires change_left { 0 < changes_left self.old }
        ensures judged { IsJudged result (refusal self.old name (content_of value)) }
        ensures ok { OnOk result (self.new ≡ put self.old name (content_of value)) }
        ensures err { OnErr result (self.new ≡ self.old) }
        ensures no_want { result ≡ Err StoreFault.OutOfMemory → ⊥ }
    {
        let spot = self.block.seek(&self.values, &name);
        let cells = match self.count(spot.size, value.size()) {
            Ok(cells) => cells,
            Err(refusal) => return Err(refusal),
        };
        let before = self.block.put(&mut self.values, spot.index, name, value);
        self.block.names += one_if(spot.size.is_none());
        self.cells = cells;
        Ok(before)
    }

    /// Takes a name and its value away, and answers whether the name was there. The names behind it close up and keep
    /// their order, which costs a step for each of them. Takes no memory. In a block a name that was there takes a change.
    #[tactic(auto, using(crate::proofs::StateLemmas::old_size_le_cells))]
    pub fn free(&mut self, name: &Name) -> bool
        requires { MayChange self.old }
        ensures was { result ≡ is_some (value_at self.old name.now) }
        ensures taken { self.new ≡ without self.old name.now }
    {
        if self.block.begun {
            return self.free_in_block(name);
        }
        let Some((index, value)) = self.find(name) else {
            return false;
        };
        self.cells -= value.size();
        self.values.shift_remove_index(index);
        true
    }

    /// `free` in a block.
    fn free_in_block(&mut self, name: &Name) -> bool
        requires { 0 < changes_left self.old }
        ensures was { result ≡ is_some (value_at self.old name.now) }
        ensures taken { self.new ≡ without self.old name.now }
    {
        let spot = self.block.seek(&self.values, name);
        let Some(size) = spot.size else {
            return false;
        };
        self.block.take(&self.values, spot.index, name);
        self.block.names -= 1;
        self.cells -= size;
        true
    }
}

/// 1 for a name that is new, else 0.
fn one_if(is_new: bool) -> usize
    ensures { result ≡ (if is_new then 1 else 0) }
{
    if is_new { 1 } else { 0 }
}

/// Puts a value in place of the one at the index of its name, which comes back, or last where there is none.
fn put_at(
    values: &mut IndexMap<Name, Value>,
    index: Option<usize>,
    name: Name,
    value: Value,
) -> Result<Option<Value>, OutOfMemory>
    requires index { index ≡ index_of same_name values.old name }
    requires unique { IsUnique same_name values.old }
    ensures ok { OnOk result (values.new.entries ≡ insert_entry same_name values.old.entries name value) }
    ensures before { IfOk result (λ before. before ≡ get same_name values.old name) }
    ensures err { OnErr result (values.new.entries ≡ values.old.entries) }
    ensures absent { OnErr result (get same_name values.old name ≡ None) }
    ensures unique { IsUnique same_name values.new }
{
    match index {
        Some(index) => Ok(Some(mem::replace(&mut values[index], value))),
        None => Ok(values.insert(name, value)?),
    }
}
