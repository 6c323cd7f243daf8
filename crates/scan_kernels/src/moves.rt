//! Lists that are made of items at other places: those that an index reads, and those that it moves.

ghost use Rattle.std.specs.Prelude.{◌≡◌, ◌+◌, ◌<◌, ◌≤◌, ◌^◌, length, take, drop, All};
ghost use Rattle.scan_kernels.specs.Gathered.{gathered};
ghost use Rattle.scan_kernels.specs.Indices.{HoldsEachPlaceOnce, IsPlaceOf};
ghost use Rattle.scan_kernels.specs.Permuted.{permuted};

use crate::place::place_of;
use crate::placewise::Placewise;
use std::alloc::AllocError;

/// For each index in order the item at its place. Each index is a place of the items.
#[derive(Copy)]
pub struct Gathered<'a, T> {
    pub items: &'a [T],
    pub index: &'a [i64],
}

// By hand, since a derived clone goes field by field, which takes the prover as long as a kernel.
impl<T: Copy> Clone for Gathered<'_, T> {
    fn clone(&self) -> Result<Self, AllocError> {
        Ok(*self)
    }
}

impl<T: Copy> Placewise<T> for Gathered<'_, T> {
    ghost Fits = { λ l. All (IsPlaceOf (length l.items.now)) l.index.now };

    ghost items = { λ l. gathered l.index.now l.items.now };

    #[inline(always)]
    fn count(&self) -> usize {
        self.index.len()
    }

    #[inline(always)]
    fn at(&self, place: usize) -> T {
        self.items[place_of(self.index[place])]
    }
}

/// The item at place i goes to the place that the index holds at i. There are as many indices as items, and the index holds each
/// of its places once.
#[derive(Copy)]
pub struct Permuted<'a, T> {
    pub items: &'a [T],
    pub index: &'a [i64],
}

// By hand, since a derived clone goes field by field, which takes the prover as long as a kernel.
impl<T: Copy> Clone for Permuted<'_, T> {
    fn clone(&self) -> Result<Self, AllocError> {
        Ok(*self)
    }
}

impl<T: Copy> Permuted<'_, T> {
    /// How many items there are.
    pub fn count(self) -> usize
        requires same_length { length self.index.now ≡ length self.items.now }
        requires each_once { HoldsEachPlaceOnce self.index.now }
        ensures { result ≡ length (permuted self.entry.index.now self.entry.items.now) }
    {
        self.items.len()
    }

    /// Writes the items from a place on, as many as the part has: one pass over the whole index, which takes what falls into
    /// the part.
    pub fn write(self, start: usize, part: &mut [T])
        requires same_length { length self.index.now ≡ length self.items.now }
        requires each_once { HoldsEachPlaceOnce self.index.now }
        requires within { start + length part.old ≤ length (permuted self.index.now self.items.now) }
        requires small { start + length part.old < 2 ^ 64 }
        ensures { part.new ≡ take (length part.old) (drop start (permuted self.entry.index.now self.entry.items.now)) }
    {
        for i in 0..self.index.len() {
            let behind = behind(place_of(self.index[i]), start);
            if behind < part.len() {
                part[behind] = self.items[i];
            }
        }
    }
}

/// How far a place lies behind the start of a part. One that lies before it is further behind than any part is long.
#[inline(always)]
pub(crate) fn behind(place: usize, start: usize) -> usize
    ensures later { start ≤ place → start + result ≡ place }
    ensures before { place < start → 2 ^ 64 ≤ start + result }
{
    place.wrapping_sub(start)
}
