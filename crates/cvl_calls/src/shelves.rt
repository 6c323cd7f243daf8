//! Further vectors that were replaced, kept for the results of joined runs.

ghost use Rattle.std.specs.Prelude.{◌≡◌, ◌+◌, ◌*◌, ◌≤◌, vec_capacity, IfErr, IfOk, IsTrue, OnErr, OnOk};
ghost use Rattle.cvl_calls.specs.Spares.{shelved, shelved_limit};

use crate::made::Made;
use scan_kernels::Shelf;
use std::alloc::{AllocError, Global};
use std::marker::Model;

/// For how many integers the vectors of a shelf may have space: 16 MiB, as 64 vectors of 32,768 take.
const SHELVED_INTS: usize = 2_097_152;

/// For how many truth values: 16 MiB.
const SHELVED_BOOLS: usize = 16_777_216;

/// From how many integers on it repays calls that run together to write over those at their targets, in place of into vectors that were
/// kept: found by `bench batch`. Of 4,096 the lists and look-ups that this takes cost as much as it saves, of 32,768 next to nothing.
const LONG: usize = 16_384;

/// So does it of shorter ones from so many integers together on, 1 MiB: with those that they replace these pass the nearer caches. Found by
/// `bench batch` likewise: 64 calls of 4,096 take 1.16 times one by one beside what they replace, and 1.01 times over it.
const MANY: usize = 131_072;

/// Vectors that are kept for the results of joined runs: at most 64 of each kind, of at most 16 MiB together. They lie apart, so that
/// they are taken out of a book and put back as one pointer. To a contract they are the number of bytes that they keep.
#[derive(Drop)]
pub struct Shelves {
    kinds: Option<Box<Kinds>>,
}

impl Model for Shelves {
    ghost use Rattle.std.specs.Prelude.{ℕ};
    ghost use Rattle.cvl_calls.specs.Spares.{shelved_bytes};

    ghost Value = { ℕ };

    ghost view = { λ s. shelved_bytes s.kinds };
}

impl Shelves {
    /// Nothing is kept yet.
    pub fn new() -> Shelves
        ensures { result ≡ 0 }
    {
        Shelves { kinds: None }
    }

    /// How many bytes are kept, at most 33,554,432.
    pub fn bytes(&self) -> usize
        ensures bytes { result ≡ self.now }
        ensures bounded { result ≤ shelved_limit }
    {
        match &self.kinds {
            Some(kinds) => kinds.bytes(),
            None => 0,
        }
    }

    /// Whether the last vector of integers that is kept is a long one, or many integers are kept, so that the next results are so as well,
    /// as a rule.
    pub fn have_long_ints(&self) -> bool
        ensures { IsTrue result → 8 * LONG ≤ self.now }
    {
        match &self.kinds {
            Some(kinds) => kinds.have_long_ints(),
            None => false,
        }
    }

    /// Keeps the list of what a joined run made, without what is left of it, for the next of these.
    #[inline(always)]
    pub fn keep_list(&mut self, alloc: Global, made: Made)
        ensures { self.new ≡ self.old }
    {
        if self.kinds.is_none() {
            self.open(alloc);
        }
        if let Some(kinds) = &mut self.kinds {
            kinds.keep_list(made);
        }
    }

    /// Makes room for the first vectors. Where memory is wanted there is none.
    #[inline(never)]
    fn open(&mut self, alloc: Global)
        ensures { self.new ≡ 0 }
    {
        self.kinds = Box::new(alloc, Kinds::new()).ok();
    }

    /// Keeps a vector of integers, if there is a place for it. Else it comes back.
    #[inline(always)]
    pub(crate) fn keep_ints(&mut self, vector: Vec<i64>) -> Result<(), Vec<i64>> {
        if self.kinds.is_none() {
            self.open(*vector.allocator());
        }
        match &mut self.kinds {
            Some(kinds) => kinds.keep_ints(vector),
            None => Err(vector),
        }
    }

    /// Keeps a vector of truth values, if there is a place for it. Else it comes back.
    #[inline(always)]
    pub(crate) fn keep_bools(&mut self, vector: Vec<bool>) -> Result<(), Vec<bool>> {
        if self.kinds.is_none() {
            self.open(*vector.allocator());
        }
        match &mut self.kinds {
            Some(kinds) => kinds.keep_bools(vector),
            None => Err(vector),
        }
    }

    /// Takes the shelf of integers out, for a joined run.
    #[inline(always)]
    pub(crate) fn take_ints(&mut self, alloc: Global) -> Result<Box<Shelf<i64>>, AllocError> {
        match &mut self.kinds {
            Some(kinds) => kinds.take_ints(alloc),
            None => new_shelf(alloc),
        }
    }

    /// Takes the shelf of truth values out, for a joined run.
    #[inline(always)]
    pub(crate) fn take_bools(&mut self, alloc: Global) -> Result<Box<Shelf<bool>>, AllocError> {
        match &mut self.kinds {
            Some(kinds) => kinds.take_bools(alloc),
            None => new_shelf(alloc),
        }
    }

    /// Takes out the integers that the last calls replied, for those of the next.
    #[inline(always)]
    pub(crate) fn take_numbers(&mut self, alloc: Global) -> Vec<i64> {
        match &mut self.kinds {
            Some(kinds) => kinds.numbers.take().unwrap_or(Vec::new(alloc)),
            None => Vec::new(alloc),
        }
    }

    /// Takes out the truth values that the last calls replied, for those of the next.
    #[inline(always)]
    pub(crate) fn take_truths(&mut self, alloc: Global) -> Vec<bool> {
        match &mut self.kinds {
            Some(kinds) => kinds.truths.take().unwrap_or(Vec::new(alloc)),
            None => Vec::new(alloc),
        }
    }

    /// Puts the shelf of integers back.
    #[inline(always)]
    pub(crate) fn put_ints(&mut self, shelf: Box<Shelf<i64>>) {
        if let Some(kinds) = &mut self.kinds {
            kinds.put_ints(shelf);
        }
    }

    /// Puts the shelf of truth values back.
    #[inline(always)]
    pub(crate) fn put_bools(&mut self, shelf: Box<Shelf<bool>>) {
        if let Some(kinds) = &mut self.kinds {
            kinds.put_bools(shelf);
        }
    }
}

/// A shelf of each kind, of at most 16 MiB, if there is one. Each lies apart, so that it is taken out and put back as one pointer. To a
/// contract they are the number of bytes that they keep.
#[derive(Drop)]
struct Kinds {
    ints: Option<Box<Shelf<i64>>>,
    bools: Option<Box<Shelf<bool>>>,
    /// What the last calls replied that replied an integer each.
    numbers: Option<Vec<i64>>,
    /// What the last calls replied that replied a truth value each.
    truths: Option<Vec<bool>>,
}

impl Model for Kinds {
    ghost use Rattle.std.specs.Prelude.{ℕ};
    ghost use Rattle.cvl_calls.specs.Spares.{kept_bytes, shelved, IsShelved};

    ghost Value = { ℕ };

    ghost view = { λ s. kept_bytes (shelved s.ints) (shelved s.bools) };

    ghost invariant = { λ s. IsShelved (shelved s.ints) (shelved s.bools) };
}

impl Kinds {
    /// Nothing is kept yet.
    fn new() -> Kinds
        ensures { result ≡ 0 }
    {
        Kinds {
            ints: None,
            bools: None,
            numbers: None,
            truths: None,
        }
    }

    /// How many bytes are kept.
    fn bytes(&self) -> usize
        ensures bytes { result ≡ self.now }
        ensures bounded { result ≤ shelved_limit }
    {
        8 * space_of(&self.ints) + space_of(&self.bools)
    }

    /// Whether the last vector of integers is a long one, or they have space for many.
    fn have_long_ints(&self) -> bool
        ensures { IsTrue result → 8 * LONG ≤ self.now }
    {
        match &self.ints {
            Some(shelf) => shelf.last_space() >= LONG || shelf.space() >= MANY,
            None => false,
        }
    }

    /// Keeps a vector of integers, if there is a place for it. Else it comes back.
    #[inline(always)]
    fn keep_ints(&mut self, vector: Vec<i64>) -> Result<(), Vec<i64>>
        ensures kept { OnOk result (self.new ≡ self.old + 8 * vec_capacity vector) }
        ensures back { IfErr result (λ v. v ≡ vector) }
        ensures unchanged { OnErr result (self.new ≡ self.old) }
    {
        if self.ints.is_none() {
            self.ints = new_shelf(*vector.allocator()).ok();
        }
        match &mut self.ints {
            Some(shelf) => shelf.keep(vector, SHELVED_INTS),
            None => Err(vector),
        }
    }

    /// Keeps a vector of truth values, if there is a place for it. Else it comes back.
    #[inline(always)]
    fn keep_bools(&mut self, vector: Vec<bool>) -> Result<(), Vec<bool>>
        ensures kept { OnOk result (self.new ≡ self.old + vec_capacity vector) }
        ensures back { IfErr result (λ v. v ≡ vector) }
        ensures unchanged { OnErr result (self.new ≡ self.old) }
    {
        if self.bools.is_none() {
            self.bools = new_shelf(*vector.allocator()).ok();
        }
        match &mut self.bools {
            Some(shelf) => shelf.keep(vector, SHELVED_BOOLS),
            None => Err(vector),
        }
    }

    /// Takes the shelf of integers out, and leaves none.
    #[inline(always)]
    fn take_ints(&mut self, alloc: Global) -> Result<Box<Shelf<i64>>, AllocError>
        ensures { IfOk result (λ shelf. self.old ≡ self.new + 8 * shelf.value) }
    {
        match self.ints.take() {
            Some(shelf) => Ok(shelf),
            None => new_shelf(alloc),
        }
    }

    /// Takes the shelf of truth values out, and leaves none.
    #[inline(always)]
    fn take_bools(&mut self, alloc: Global) -> Result<Box<Shelf<bool>>, AllocError>
        ensures { IfOk result (λ shelf. self.old ≡ self.new + shelf.value) }
    {
        match self.bools.take() {
            Some(shelf) => Ok(shelf),
            None => new_shelf(alloc),
        }
    }

    /// Keeps the list of what a joined run made.
    #[inline(always)]
    fn keep_list(&mut self, made: Made)
        ensures { self.new ≡ self.old }
    {
        match made {
            Made::Ints(list) => put_list(&mut self.ints, list),
            Made::Bools(list) => put_list(&mut self.bools, list),
            Made::Numbers(items) => self.numbers = Some(items),
            Made::Truths(items) => self.truths = Some(items),
        }
    }

    /// Puts a shelf of integers in the place of the one that is there, unless it has too much.
    #[inline(always)]
    fn put_ints(&mut self, shelf: Box<Shelf<i64>>) {
        if shelf.space() <= SHELVED_INTS {
            self.ints = Some(shelf);
        }
    }

    /// Puts a shelf of truth values in the place of the one that is there, unless it has too much.
    #[inline(always)]
    fn put_bools(&mut self, shelf: Box<Shelf<bool>>) {
        if shelf.space() <= SHELVED_BOOLS {
            self.bools = Some(shelf);
        }
    }
}

/// An empty shelf.
#[inline(never)]
fn new_shelf<T: Drop>(alloc: Global) -> Result<Box<Shelf<T>>, AllocError>
    ensures { IfOk result (λ shelf. shelf.value ≡ 0) }
{
    Ok(Box::new(alloc, Shelf::new(alloc))?)
}

/// Keeps a list on a shelf, if there is one.
#[inline(always)]
fn put_list<T: Copy>(shelf: &mut Option<Box<Shelf<T>>>, list: Vec<Vec<T>>)
    ensures { shelved shelf.new ≡ shelved shelf.old }
{
    if let Some(shelf) = shelf {
        shelf.put_list(list);
    }
}

/// For how many items the vectors of a shelf have space.
fn space_of<T>(shelf: &Option<Box<Shelf<T>>>) -> usize
    ensures { result ≡ shelved shelf.now }
{
    match shelf {
        Some(shelf) => shelf.space(),
        None => 0,
    }
}
