//! A block under way, beside the values that a memory holds: what it replaced, which names it freed, and which came. A freed
//! name stays among the values held until the block ends, so that an undo puts values back and inserts no name.

ghost use Rattle.std.specs.Prelude.{◌≡◌, ℕ, if◌then◌else◌, ◌+◌, ◌≤◌, ◌<◌, [], ◌++◌, Some, None, length, slice_get, OnOk, OnErr, true, false};
ghost use Rattle.std.specs.List.{IsDistinct};
ghost use Rattle.std.specs.Map.{lookup, keys_of, remove_entry};
ghost use Rattle.std.specs.Option.{option_copied, option_map};
ghost use Rattle.indexmap.specs.IndexMap.{IsUnique, get, index_map_len, index_of, insert_entry, set_value_at, spare, values};
ghost use Rattle.vector_memory.specs.Blocks.{HasRoom, IsBlank, is_freed, live, restored, shown};
ghost use Rattle.vector_memory.specs.Contents.{content_of, size_of};
ghost use Rattle.vector_memory.specs.Names.{same_name};

use crate::notes::Notes;
use crate::{Name, Value};
use indexmap::{IndexMap, IndexSet};
use std::alloc::{AllocError, Global};
use std::mem;

/// What a block changed so far. It is kept, empty, when the block has ended, so that the next one finds its room.
#[derive(Drop)]
pub(crate) struct Block {
    /// Whether a block has begun and not ended.
    pub(crate) begun: bool,
    /// How many more changes it may make.
    pub(crate) left: usize,
    /// The number of names that the memory shows.
    pub(crate) names: usize,
    /// The number of items of all values when it began.
    pub(crate) cells: usize,
    /// The values that were held when it began, of names that have another one.
    pub(crate) replaced: Notes,
    /// The names held that were freed.
    pub(crate) freed: IndexSet<Name>,
    /// The names that came, or came back, with their values, in order.
    pub(crate) late: IndexMap<Name, Value>,
}

/// What a block finds of a name.
#[derive(Clone, Copy)]
pub(crate) struct Spot {
    /// The index of the name among the values held, if it is there and was not freed.
    pub(crate) index: Option<usize>,
    /// The size of its value, if it has one.
    pub(crate) size: Option<usize>,
}

impl Block {
    /// No block.
    pub(crate) fn none(alloc: Global) -> Block
        ensures begun { result.begun ≡ false }
        ensures blank { IsBlank result }
    {
        Block {
            begun: false,
            left: 0,
            names: 0,
            cells: 0,
            replaced: Notes::new(alloc),
            freed: IndexSet::new(alloc),
            late: IndexMap::new(alloc),
        }
    }

    /// Begins a block of up to so many changes, over so many names and items.
    pub(crate) fn begin(
        &mut self,
        changes: usize,
        names: usize,
        cells: usize,
    ) -> Result<(), AllocError>
        requires { IsBlank self.old }
        ensures blank { IsBlank self.new }
        ensures begun { OnOk result (self.new.begun ≡ true) }
        ensures left { OnOk result (self.new.left ≡ changes) }
        ensures names { OnOk result (self.new.names ≡ names) }
        ensures cells { OnOk result (self.new.cells ≡ cells) }
        ensures room { (spaces : ℕ) → changes ≤ spaces → OnOk result (HasRoom spaces self.new) }
        ensures err { OnErr result (self.new.begun ≡ self.old.begun) }
    {
        self.replaced.reserve(changes, names)?;
        self.freed.reserve(changes)?;
        self.late.reserve(changes)?;
        self.begun = true;
        self.left = changes;
        self.names = names;
        self.cells = cells;
        Ok(())
    }

    /// Whether a name was freed. Where none was, nothing is searched.
    fn is_freed(&self, name: &Name) -> bool
        ensures { result ≡ is_freed self.now.freed.keys name.now }
    {
        !self.freed.is_empty() && self.has_freed(name)
    }

    // What few blocks need is not inlined, so that a look-up of a name that is held has one search in its code.
    #[inline(never)]
    fn has_freed(&self, name: &Name) -> bool
        ensures { result ≡ is_freed self.now.freed.keys name.now }
    {
        self.freed.contains(name)
    }

    /// The index of a name among the values held, and the size of its value, if it is there and was not freed.
    fn find(&self, held: &IndexMap<Name, Value>, name: &Name) -> Option<(usize, usize)>
        ensures index { option_map (λ found. found.0) result
            ≡ (if is_freed self.now.freed.keys name.now then None else index_of same_name held.now name.now) }
        ensures size { option_map (λ found. found.1) result
            ≡ option_map size_of (option_map content_of (if is_freed self.now.freed.keys name.now then None else get same_name held.now name.now)) }
    {
        if self.is_freed(name) {
            return None;
        }
        let (index, _, value) = held.get_full(name)?;
        Some((index, value.size()))
    }

    /// The value of a name that came in the block, if it did.
    #[inline(never)]
    fn late_value(&self, name: &Name) -> Option<&Value>
        ensures { option_copied result ≡ lookup (same_name name.now) self.now.late.entries }
    {
        self.late.get(name)
    }

    /// The size of that value.
    fn late_size(&self, name: &Name) -> Option<usize>
        ensures { result ≡ option_map size_of (option_map content_of (lookup (same_name name.now) self.now.late.entries)) }
    {
        match self.late_value(name) {
            Some(value) => Some(value.size()),
            None => None,
        }
    }

    /// Where a name stands, and how large its value is.
    pub(crate) fn seek(&self, held: &IndexMap<Name, Value>, name: &Name) -> Spot
        ensures index { result.index ≡ (if is_freed self.now.freed.keys name.now then None else index_of same_name held.now name.now) }
        ensures size { result.size ≡ option_map size_of (option_map content_of (lookup (same_name name.now) (shown held.now.entries self.now))) }
    {
        match self.find(held, name) {
            Some((index, size)) => Spot {
                index: Some(index),
                size: Some(size),
            },
            None => Spot {
                index: None,
                size: self.late_size(name),
            },
        }
    }

    /// The value of a name, if it has one, in a block and outside.
    #[inline(always)]
    pub(crate) fn get<'a>(
        &'a self,
        held: &'a IndexMap<Name, Value>,
        name: &Name,
    ) -> Option<&'a Value>
        ensures { option_copied result ≡ lookup (same_name name.now) (shown held.now.entries self.now) }
    {
        if self.is_freed(name) {
            return self.late_value(name);
        }
        match held.get(name) {
            Some(value) => Some(value),
            None => self.late_value(name),
        }
    }

    /// Sets the value of a name, from what `seek` found of it. A name that is there keeps its place, and a new one, or one that was
    /// freed, goes last. A value that the block itself had stored comes back.
    pub(crate) fn put(
        &mut self,
        held: &mut IndexMap<Name, Value>,
        index: Option<usize>,
        name: Name,
        value: Value,
    ) -> Option<Value>
        requires index { index ≡ (if is_freed self.old.freed.keys name then None else index_of same_name held.old name) }
        requires left { 0 < self.old.left }
        requires room { HasRoom (spare held.old) self.old }
        ensures shown { shown held.new.entries self.new ≡ insert_entry same_name (shown held.old.entries self.old) name value }
        ensures before { restored held.new.entries self.new.replaced.entries ≡ restored held.old.entries self.old.replaced.entries }
        ensures left { self.new.left + 1 ≡ self.old.left }
        ensures room { HasRoom (spare held.new) self.new }
        ensures begun { self.new.begun ≡ self.old.begun }
        ensures names { self.new.names ≡ self.old.names }
        ensures cells { self.new.cells ≡ self.old.cells }
    {
        self.left -= 1;
        match index {
            Some(index) => {
                let before = swap_at(held, index, value);
                self.replaced.note(index, before)
            }
            None => put_late(&mut self.late, name, value),
        }
    }

    /// Takes a name that is there away, from what `seek` found of it. One that was held stays where it is, and counts as freed.
    pub(crate) fn take(&mut self, held: &IndexMap<Name, Value>, index: Option<usize>, name: &Name)
        requires index { index ≡ (if is_freed self.old.freed.keys name.now then None else index_of same_name held.now name.now) }
        requires unique { IsUnique same_name held.now }
        requires left { 0 < self.old.left }
        requires room { HasRoom (spare held.now) self.old }
        ensures shown { shown held.now.entries self.new ≡ remove_entry (same_name name.now) (shown held.now.entries self.old) }
        ensures before { restored held.now.entries self.new.replaced.entries ≡ restored held.now.entries self.old.replaced.entries }
        ensures left { self.new.left + 1 ≡ self.old.left }
        ensures room { HasRoom (spare held.now) self.new }
        ensures begun { self.new.begun ≡ self.old.begun }
        ensures names { self.new.names ≡ self.old.names }
        ensures cells { self.new.cells ≡ self.old.cells }
    {
        self.left -= 1;
        match index {
            Some(_) => {
                let _freed = self.freed.insert(*name);
            }
            None => {
                self.late.shift_remove(name);
            }
        }
    }

    /// Puts the values back that were replaced, and forgets what was freed and what came. The block is over.
    pub(crate) fn undo(&mut self, held: &mut IndexMap<Name, Value>)
        ensures held { held.new.entries ≡ restored held.old.entries self.old.replaced.entries }
        ensures begun { self.new.begun ≡ false }
        ensures blank { IsBlank self.new }
    {
        while let Some((index, value)) = self.replaced.pop() {
            put_back(held, index, value);
        }
        self.freed.clear();
        self.late.clear();
        self.begun = false;
    }

    /// Takes the names away that were freed, and puts those that came behind the others. The block is over.
    pub(crate) fn end(&mut self, held: &mut IndexMap<Name, Value>)
        requires distinct { IsDistinct same_name (keys_of (shown held.old.entries self.old)) }
        requires room { HasRoom (spare held.old) self.old }
        ensures held { held.new.entries ≡ shown held.old.entries self.old }
        ensures begun { self.new.begun ≡ false }
        ensures blank { IsBlank self.new }
    {
        drop_freed(held, &mut self.freed);
        add_late(held, &mut self.late);
        self.replaced.clear();
        self.begun = false;
    }
}

/// Sets the value of a name that came, or comes, in the block. One that it had comes back.
#[inline(never)]
fn put_late(late: &mut IndexMap<Name, Value>, name: Name, value: Value) -> Option<Value>
    requires { 0 < spare late.old }
    ensures late { late.new.entries ≡ insert_entry same_name late.old.entries name value }
    ensures before { result ≡ get same_name late.old name }
    ensures spare { spare late.old ≤ spare late.new + 1 }
    ensures few { length late.new.entries ≤ length late.old.entries + 1 }
{
    match late.insert(name, value) {
        Ok(before) => before,
        Err(_) => unreachable!(),
    }
}

/// Puts a value in place of the one at an index, which comes back.
fn swap_at(held: &mut IndexMap<Name, Value>, index: usize, value: Value) -> Value
    requires { index < index_map_len held.old }
    ensures held { held.new.entries ≡ set_value_at held.old.entries index value }
    ensures before { slice_get (values held.old) index ≡ Some result }
    ensures spare { spare held.new ≡ spare held.old }
{
    mem::replace(&mut held[index], value)
}

/// Puts a value back at its index.
fn put_back(held: &mut IndexMap<Name, Value>, index: usize, value: Value)
    ensures { held.new.entries ≡ set_value_at held.old.entries index value }
{
    if index < held.len() {
        swap_at(held, index, value);
    }
}

/// Takes the names away that were freed, all in one pass, and forgets that they were.
fn drop_freed(held: &mut IndexMap<Name, Value>, freed: &mut IndexSet<Name>)
    ensures held { held.new.entries ≡ live freed.old.keys held.old.entries }
    ensures spare { spare held.old ≤ spare held.new }
    ensures freed { freed.new.keys ≡ [] }
{
    if freed.is_empty() {
        return;
    }
    retain_others(held, freed);
    freed.clear();
}

/// Takes the names of a set away.
fn retain_others(held: &mut IndexMap<Name, Value>, names: &IndexSet<Name>)
    ensures held { held.new.entries ≡ live names.now.keys held.old.entries }
    ensures spare { spare held.old ≤ spare held.new }
{
    held.retain(|name, _| !names.contains(name));
}

/// Puts the names that came behind the others.
fn add_late(held: &mut IndexMap<Name, Value>, late: &mut IndexMap<Name, Value>)
    requires distinct { IsDistinct same_name (keys_of (held.old.entries ++ late.old.entries)) }
    requires room { length late.old.entries ≤ spare held.old }
    ensures held { held.new.entries ≡ held.old.entries ++ late.old.entries }
    ensures late { late.new.entries ≡ [] }
{
    if late.is_empty() {
        return;
    }
    let _appended = held.append(late);
}
