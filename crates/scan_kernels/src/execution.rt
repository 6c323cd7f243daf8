//! How a kernel is run: in threads of a runtime, or in the calling thread alone.
//!
//! A policy has a method for each kind of work that goes by chunks. All types of a method are known ones, since what is handed
//! to threads may rest on no bound of a type parameter.

ghost use Rattle.std.specs.Prelude.{◌≡◌, ◌+◌, ◌<◌, ◌≤◌, ◌^◌, length, take, drop, vec_len, vec_capacity, All};
ghost use Rattle.std.specs.Thread.{IsSync};
ghost use Rattle.segment_desc.specs.Appended.{Appends};
ghost use Rattle.scan_kernels.specs.RowLists.{AreAsLong, AreMade};
ghost use Rattle.scan_kernels.specs.Lists.{FitBools, FitInts, bools_of, ints_of};

use crate::in_order::{write_each_in_order, write_in_order};
use crate::in_threads::{
    write_bools_in_threads, write_each_bools_in_threads, write_each_ints_in_threads,
    write_ints_beside, write_ints_in_threads,
};
use crate::rows::{BoolRow, IntRow, write_ints};
use rayon::current_num_threads;
use segment_desc::append_reserved;
use std::marker::Sync;
use std::thread::Threads;

/// An execution policy, which a kernel takes first. Each runtime with threads is one, and so is `Sequential`. By any policy a
/// kernel answers the same.
pub trait Execution {
    /// What threads share of the policy.
    type Shared: Sync;

    /// How many chunks can be run at the same time. With a runtime that asks the system, which takes some microseconds.
    fn processors(&self) -> usize
        ensures { 1 ≤ result };

    /// Writes integers over a list of as many, in chunks of a size.
    fn write_ints(&self, row: IntRow<'_>, size: usize, list: &mut [i64])
        requires shared { IsSync Self.Shared.row }
        requires size { 0 < size }
        requires fits { FitInts row }
        requires long { length list.old ≡ length (ints_of row) }
        ensures { list.new ≡ ints_of row.entry };

    /// Writes the integers from a place on, as many as the part has, in chunks of a size, and meanwhile puts items behind others.
    fn write_ints_beside(
        &self,
        row: IntRow<'_>,
        size: usize,
        start: usize,
        part: &mut [i64],
        items: &[i64],
        made: &mut Vec<i64>,
    )
        requires shared { IsSync Self.Shared.row }
        requires size { 0 < size }
        requires fits { FitInts row }
        requires within { start + length part.old ≤ length (ints_of row) }
        requires small { start + length part.old < 2 ^ 64 }
        requires room { vec_len made.old + length items.now ≤ vec_capacity made.old }
        ensures part { part.new ≡ take (length part.old) (drop start (ints_of row.entry)) }
        ensures made { Appends made.old made.new items.entry.now };

    /// Writes truth values over a list of as many, in chunks of a size.
    fn write_bools(&self, row: BoolRow<'_>, size: usize, list: &mut [bool])
        requires shared { IsSync Self.Shared.row }
        requires size { 0 < size }
        requires fits { FitBools row }
        requires long { length list.old ≡ length (bools_of row) }
        ensures { list.new ≡ bools_of row.entry };

    /// Writes the integers of each row over the vector at its place, which has as many items, in chunks of so many vectors.
    fn write_each_ints(&self, rows: &[IntRow<'_>], size: usize, lists: &mut [Vec<i64>])
        requires shared { IsSync Self.Shared.row }
        requires size { 0 < size }
        requires fits { All FitInts rows.now }
        requires long { AreAsLong ints_of rows.now 0 lists.old }
        ensures { AreMade ints_of rows.now 0 lists.old lists.new };

    /// Writes the truth values of each row over the vector at its place, which has as many items, in chunks of so many vectors.
    fn write_each_bools(&self, rows: &[BoolRow<'_>], size: usize, lists: &mut [Vec<bool>])
        requires shared { IsSync Self.Shared.row }
        requires size { 0 < size }
        requires fits { All FitBools rows.now }
        requires long { AreAsLong bools_of rows.now 0 lists.old }
        ensures { AreMade bools_of rows.now 0 lists.old lists.new };
}

/// In threads that the runtime starts. A chunk whose thread cannot be started is run by the calling thread.
impl<R: Threads + Sync> Execution for R {
    type Shared = R;

    fn processors(&self) -> usize {
        current_num_threads(self)
    }

    fn write_ints(&self, row: IntRow<'_>, size: usize, list: &mut [i64]) {
        write_ints_in_threads(self, row, size, list)
    }

    fn write_ints_beside(
        &self,
        row: IntRow<'_>,
        size: usize,
        start: usize,
        part: &mut [i64],
        items: &[i64],
        made: &mut Vec<i64>,
    ) {
        write_ints_beside(self, row, size, start, part, items, made)
    }

    fn write_bools(&self, row: BoolRow<'_>, size: usize, list: &mut [bool]) {
        write_bools_in_threads(self, row, size, list)
    }

    fn write_each_ints(&self, rows: &[IntRow<'_>], size: usize, lists: &mut [Vec<i64>]) {
        write_each_ints_in_threads(self, rows, size, lists)
    }

    fn write_each_bools(&self, rows: &[BoolRow<'_>], size: usize, lists: &mut [Vec<bool>]) {
        write_each_bools_in_threads(self, rows, size, lists)
    }
}

/// The calling thread alone, one chunk after another. It needs no runtime, as where a program has none to give: in a library
/// that starts no threads.
#[derive(Clone, Copy, Debug)]
pub struct Sequential;

impl Execution for Sequential {
    type Shared = ();

    fn processors(&self) -> usize {
        1
    }

    fn write_ints(&self, row: IntRow<'_>, size: usize, list: &mut [i64]) {
        write_in_order(row, size, list)
    }

    fn write_ints_beside(
        &self,
        row: IntRow<'_>,
        _size: usize,
        start: usize,
        part: &mut [i64],
        items: &[i64],
        made: &mut Vec<i64>,
    ) {
        append_reserved(items, made);
        write_ints(row, start, part)
    }

    fn write_bools(&self, row: BoolRow<'_>, size: usize, list: &mut [bool]) {
        write_in_order(row, size, list)
    }

    fn write_each_ints(&self, rows: &[IntRow<'_>], size: usize, lists: &mut [Vec<i64>]) {
        write_each_in_order(rows, size, lists)
    }

    fn write_each_bools(&self, rows: &[BoolRow<'_>], size: usize, lists: &mut [Vec<bool>]) {
        write_each_in_order(rows, size, lists)
    }
}
