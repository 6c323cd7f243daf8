//! Vectors that were replaced, kept for the next results: the last of each kind for a call by itself, and more for a joined run.

ghost use Rattle.std.specs.Prelude.{◌≡◌, ◌+◌, ◌≤◌};
ghost use Rattle.cvl_calls.specs.Spares.{kept_beside, kept_limit};

use crate::made::Made;
use crate::shelves::Shelves;
use scan_kernels::{Kept, Source};
use std::alloc::{AllocError, Global};
use std::marker::Model;
use std::mem;
use vector_memory::Value;

/// The greatest number of integers of a vector that is kept: 8 MiB, as many as a vector may have.
const KEPT_INTS: usize = 1_048_576;

/// The greatest number of truth values of a vector that is kept: 8 MiB.
const KEPT_BOOLS: usize = 8_388_608;

/// What stores replaced, for the next results: at most one vector of integers and one of truth values, of at most 8 MiB
/// each, and beside them at most 64 of each kind, of at most 16 MiB together, which joined runs take and the stores of what they made
/// leave. It lies outside the memories, and what calls answer and store does not hang on it. To a contract it is the number of
/// bytes that it keeps.
#[derive(Drop)]
pub struct Spare {
    ints: Vec<i64>,
    bools: Vec<bool>,
    shelves: Shelves,
}

impl Model for Spare {
    ghost use Rattle.std.specs.Prelude.{ℕ, ◌+◌, vec_capacity};
    ghost use Rattle.cvl_calls.specs.Spares.{kept_bytes, IsBounded};

    ghost Value = { ℕ };

    ghost view = { λ s. kept_bytes (vec_capacity s.ints) (vec_capacity s.bools) + s.shelves };

    ghost invariant = { λ s. IsBounded (vec_capacity s.ints) (vec_capacity s.bools) };
}

impl Spare {
    /// Nothing is kept yet.
    pub fn new(alloc: Global) -> Spare
        ensures { result ≡ 0 }
    {
        Spare {
            ints: Vec::new(alloc),
            bools: Vec::new(alloc),
            shelves: Shelves::new(),
        }
    }

    /// How many bytes are kept, at most 50,331,648.
    pub fn bytes(&self) -> usize
        ensures bytes { result ≡ self.now }
        ensures bounded { result ≤ kept_limit }
    {
        8 * self.ints.capacity() + self.bools.capacity() + self.shelves.bytes()
    }

    /// Keeps the vector of a value that was replaced, in place of the one that it has, unless it is too large. Segment lists are
    /// not kept.
    #[inline(always)]
    pub(crate) fn keep(&mut self, value: Value) {
        match value {
            Value::Ints(vector) => {
                if vector.capacity() <= KEPT_INTS {
                    self.ints = vector;
                }
            }
            Value::Bools(vector) => {
                if vector.capacity() <= KEPT_BOOLS {
                    self.bools = vector;
                }
            }
            Value::Segs(_) => {}
        }
    }

    /// Keeps the vector of a value that was replaced by what a joined run made, for the next of these, if it has space for an item
    /// and there is a place. Else it is kept as any other.
    #[inline(always)]
    pub(crate) fn keep_for_joined(&mut self, value: Value) {
        match value {
            Value::Ints(vector) => self.shelve_ints(vector),
            Value::Bools(vector) => self.shelve_bools(vector),
            Value::Segs(_) => {}
        }
    }

    #[inline(always)]
    fn shelve_ints(&mut self, vector: Vec<i64>) {
        if vector.capacity() == 0 {
            self.keep(Value::Ints(vector));
            return;
        }
        if let Err(vector) = self.shelves.keep_ints(vector) {
            self.keep(Value::Ints(vector));
        }
    }

    #[inline(always)]
    fn shelve_bools(&mut self, vector: Vec<bool>) {
        if vector.capacity() == 0 {
            self.keep(Value::Bools(vector));
            return;
        }
        if let Err(vector) = self.shelves.keep_bools(vector) {
            self.keep(Value::Bools(vector));
        }
    }

    /// Keeps the list of what a joined run made, for the next of these.
    #[inline(always)]
    pub fn keep_list(&mut self, alloc: Global, made: Made)
        ensures { self.new ≡ self.old }
    {
        self.shelves.keep_list(alloc, made);
    }

    /// The vectors that are kept for joined runs.
    #[inline(always)]
    pub fn shelves(&self) -> &Shelves
        ensures { result.now ≤ self.now }
    {
        &self.shelves
    }

    /// Takes out the vectors that are kept for joined runs, and leaves none.
    #[inline(always)]
    pub fn take_shelves(&mut self) -> Shelves
        ensures taken { self.old ≡ self.new + result }
        ensures left { self.new ≤ kept_beside }
    {
        mem::replace(&mut self.shelves, Shelves::new())
    }

    /// Puts vectors in the place of those that are kept for joined runs.
    #[inline(always)]
    pub fn put_shelves(&mut self, shelves: Shelves)
        ensures put { shelves ≤ self.new }
        ensures no_more { self.new ≤ self.old + shelves }
        ensures left { self.new ≤ kept_beside + shelves }
    {
        self.shelves = shelves;
    }
}

// A kernel takes the vector that is kept of its kind.
impl Source<i64> for &mut Spare {
    #[inline(always)]
    fn vector(self, capacity: usize) -> Result<Vec<i64>, AllocError> {
        let alloc = *self.ints.allocator();
        Kept::new(mem::replace(&mut self.ints, Vec::new(alloc))).vector(capacity)
    }

    fn is_ready(&self, count: usize) -> bool {
        self.ints.len() == count && self.ints.capacity() == count
    }

    fn ready(self, item: i64, count: usize) -> Result<Vec<i64>, AllocError> {
        let alloc = *self.ints.allocator();
        Kept::new(mem::replace(&mut self.ints, Vec::new(alloc))).ready(item, count)
    }
}

impl Source<bool> for &mut Spare {
    #[inline(always)]
    fn vector(self, capacity: usize) -> Result<Vec<bool>, AllocError> {
        let alloc = *self.bools.allocator();
        Kept::new(mem::replace(&mut self.bools, Vec::new(alloc))).vector(capacity)
    }

    fn is_ready(&self, count: usize) -> bool {
        self.bools.len() == count && self.bools.capacity() == count
    }

    fn ready(self, item: bool, count: usize) -> Result<Vec<bool>, AllocError> {
        let alloc = *self.bools.allocator();
        Kept::new(mem::replace(&mut self.bools, Vec::new(alloc))).ready(item, count)
    }
}
