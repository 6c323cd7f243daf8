//! Vectors whose items are of no use any more, for the results of a joined run, which makes many at once.

ghost use Rattle.std.specs.Prelude.{◌≡◌, ◌+◌, ◌<◌, ◌≤◌, [], length, vec_capacity, vec_len, IfErr, IfOk, IfSome, OnErr, OnOk};

use crate::source::{Kept, Source, filled};
use std::alloc::{AllocError, Global};
use std::marker::Model;
use std::mem;

/// The greatest number of vectors on a shelf: as many as a batch has calls.
const SHELF_LIMIT: usize = 64;

/// From how many items on a vector is sought on a shelf. For a shorter result only the last one is looked at: a search of 64 places
/// takes longer than the allocator. Found by `bench batch`: in batches of 16 calls of 16 items a call took 238 ns where the allocator
/// gave each vector, and 213 where the last ones were taken; of 256 items 315 and 275.
pub(crate) const WORTH_A_SEARCH: usize = 1024;

/// Vectors whose items are of no use any more, at most 64. A result takes the last of them away, if that has space for as many items
/// and for no more. Else one of 1,024 items or more takes another that has such space, or the last, which goes back to its
/// allocator; a shorter one takes none, and neither does one of no items. To a contract it is for how many items they have space.
#[derive(Drop)]
pub struct Shelf<T> {
    vectors: Vec<Vec<T>>,
    space: usize,
    /// An empty list, for the results of the next joined run.
    list: Vec<Vec<T>>,
}

impl<T> Model for Shelf<T> {
    ghost use Rattle.std.specs.Prelude.{◌≡◌, [], ℕ};
    ghost use Rattle.scan_kernels.specs.Shelves.{IsShelf};

    ghost Value = { ℕ };

    ghost view = { λ s. s.space };

    ghost invariant = { λ s. IsShelf s.vectors.items s.space × (s.list.items ≡ []) };
}

/// Where a vector with space for so many items lies, and for no more; else the last place.
fn place_of<T>(vectors: &[Vec<T>], capacity: usize) -> usize
    requires { 0 < length vectors.now }
    ensures { result < length vectors.now }
{
    for place in 0..vectors.len() {
        if vectors[place].capacity() == capacity {
            return place;
        }
    }
    vectors.len() - 1
}

impl<T> Shelf<T> {
    /// Nothing lies on it yet.
    pub fn new(alloc: Global) -> Shelf<T>
        ensures { result ≡ 0 }
    {
        Shelf {
            vectors: Vec::new(alloc),
            space: 0,
            list: Vec::new(alloc),
        }
    }

    /// For how many items its vectors have space.
    pub fn space(&self) -> usize
        ensures { result ≡ self.now }
    {
        self.space
    }

    /// For how many items the last vector has space, 0 where none lies here: of the next results, as a rule, each has as many.
    pub fn last_space(&self) -> usize
        ensures { result ≤ self.now }
    {
        match self.vectors.last() {
            Some(vector) => vector.capacity(),
            None => 0,
        }
    }

    /// The allocator of its vectors.
    pub fn allocator(&self) -> Global {
        *self.vectors.allocator()
    }

    /// How many of its vectors have so many items, and no more space.
    pub(crate) fn full_ones(&self, count: usize) -> usize {
        let mut full: usize = 0;
        for vector in &self.vectors {
            if vector.len() == count && vector.capacity() == count {
                full = full.saturating_add(1);
            }
        }
        full
    }

    /// Puts a vector to the others, if there is a place for it and they then have space for at most so many items. Else it comes back,
    /// as it does where the list of them cannot grow.
    #[inline(always)]
    pub fn keep(&mut self, vector: Vec<T>, most: usize) -> Result<(), Vec<T>>
        ensures kept { OnOk result (self.new ≡ self.old + vec_capacity vector) }
        ensures bounded { OnOk result (self.new ≤ most) }
        ensures back { IfErr result (λ v. v ≡ vector) }
        ensures unchanged { OnErr result (self.new ≡ self.old) }
    {
        let capacity = vector.capacity();
        if self.vectors.len() >= SHELF_LIMIT || self.space > most || capacity > most - self.space {
            return Err(vector);
        }
        let Ok(()) = self.vectors.reserve(1) else {
            return Err(vector);
        };
        self.vectors.push_reserved(vector);
        self.space += capacity;
        Ok(())
    }

    /// The last vector, if it has space for so many items and for no more. None is taken for a result of no items.
    #[inline(always)]
    fn take_last(&mut self, capacity: usize) -> Option<Vec<T>>
        ensures { IfSome result (λ v. vec_capacity v ≡ capacity) }
    {
        let last = self.vectors.last()?;
        if capacity == 0 || last.capacity() != capacity {
            return None;
        }
        let vector = self.vectors.take_last();
        self.space -= capacity;
        Some(vector)
    }

    /// A vector for a result of so many items, with any items and any space: empty where none lies here.
    #[inline(never)]
    fn take(&mut self, capacity: usize) -> Vec<T> {
        if self.vectors.is_empty() {
            return Vec::new(self.allocator());
        }
        let place = place_of(&self.vectors, capacity);
        let vector = self.vectors.swap_remove(place);
        self.space -= vector.capacity();
        vector
    }
}

impl<T: Copy> Shelf<T> {
    /// An empty list for so many results: the one that was put back last, if one was.
    #[inline(always)]
    pub(crate) fn take_list(&mut self, count: usize) -> Result<Vec<Vec<T>>, AllocError>
        ensures empty { IfOk result (λ list. list.items ≡ []) }
        ensures len { IfOk result (λ list. vec_len list ≡ 0) }
        ensures room { IfOk result (λ list. count ≤ vec_capacity list) }
    {
        let empty = Vec::new(self.allocator());
        let mut list = mem::replace(&mut self.list, empty);
        list.reserve(count)?;
        Ok(list)
    }

    /// Puts a list of results back, without what is left of them, for the next joined run.
    #[inline(always)]
    pub fn put_list(&mut self, mut list: Vec<Vec<T>>)
        ensures { self.new ≡ self.old }
    {
        list.clear();
        self.list = list;
    }
}

// A kernel takes a vector off the shelf for each result: the last one, or one that is sought for many items.
impl<T: Copy> Source<T> for &mut Shelf<T> {
    #[inline(always)]
    fn vector(self, capacity: usize) -> Result<Vec<T>, AllocError> {
        if let Some(mut vector) = self.take_last(capacity) {
            vector.clear();
            return Ok(vector);
        }
        if capacity < WORTH_A_SEARCH {
            return Vec::with_capacity(self.allocator(), capacity);
        }
        Kept::new(self.take(capacity)).vector(capacity)
    }

    // Of few items none counts as ready, since which one lies last is known only when its turn comes.
    fn is_ready(&self, count: usize) -> bool {
        count >= WORTH_A_SEARCH && self.full_ones(count) > 0
    }

    fn ready(self, item: T, count: usize) -> Result<Vec<T>, AllocError> {
        if let Some(vector) = self.take_last(count) {
            return Kept::new(vector).ready(item, count);
        }
        if count < WORTH_A_SEARCH {
            return filled(self.allocator(), item, count);
        }
        Kept::new(self.take(count)).ready(item, count)
    }
}
