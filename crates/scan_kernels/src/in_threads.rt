//! Work by chunks in threads that a runtime starts.

ghost use Rattle.std.specs.Prelude.{◌≡◌, ◌+◌, ◌<◌, ◌≤◌, ◌^◌, length, take, drop, vec_len, vec_capacity, All};
ghost use Rattle.std.specs.Thread.{IsSync};
ghost use Rattle.segment_desc.specs.Appended.{Appends};
ghost use Rattle.scan_kernels.specs.RowLists.{AreAsLong, AreMade};
ghost use Rattle.scan_kernels.specs.Lists.{FitBools, FitInts, bools_of, ints_of};

use crate::in_turn::{
    are_few, write_bools_in_turn, write_each_bools_in_turn, write_each_ints_in_turn,
    write_ints_in_turn,
};
use crate::row_lists::write_lists;
use crate::rows::{BoolRow, IntRow, write_bools, write_ints};
use rayon::join_mut;
use rayon::prelude::*;
use segment_desc::append_reserved;
use std::thread::Threads;

/// Writes integers over a list of as many, in chunks of a size.
pub fn write_ints_in_threads<R: Threads + Sync>(
    rt: &R,
    row: IntRow<'_>,
    size: usize,
    list: &mut [i64],
)
    requires size { 0 < size }
    requires fits { FitInts row }
    requires long { length list.old ≡ length (ints_of row) }
    ensures { list.new ≡ ints_of row.entry }
{
    if are_few(list.len(), size) {
        return write_ints_in_turn(rt, row, size, 0, list);
    }
    par_chunks_mut_for_each(
        rt,
        list,
        size,
        |start: usize, part: &mut [i64]|
            requires { FitInts row × (start + length part.now ≤ length (ints_of row)) × (start + length part.now < 2 ^ 64) }
            ensures { part.new ≡ take (length part.old) (drop start (ints_of row.entry)) }
        {
            write_ints(row, start, part);
        },
    );
}

/// Writes the integers from a place on, as many as the part has, in few chunks of a size, and meanwhile puts items behind others in a
/// thread of its own.
pub fn write_ints_beside<R: Threads + Sync>(
    rt: &R,
    row: IntRow<'_>,
    size: usize,
    start: usize,
    part: &mut [i64],
    items: &[i64],
    made: &mut Vec<i64>,
)
    requires size { 0 < size }
    requires fits { FitInts row }
    requires within { start + length part.old ≤ length (ints_of row) }
    requires small { start + length part.old < 2 ^ 64 }
    requires room { vec_len made.old + length items.now ≤ vec_capacity made.old }
    ensures part { part.new ≡ take (length part.old) (drop start (ints_of row.entry)) }
    ensures made { Appends made.old made.new items.entry.now }
{
    let mut one = ||
        requires { vec_len made.now + length items.now ≤ vec_capacity made.now }
        ensures { Appends made.entry.now made.exit.now items.entry.now }
    { append_reserved(items, made) };
    let mut others = ||
        requires { IsSync R.row × (0 < size) × FitInts row × (start + length part.now ≤ length (ints_of row)) × (start + length part.now < 2 ^ 64) }
        ensures { part.exit.now ≡ take (length part.entry.now) (drop start (ints_of row.entry)) }
    { write_ints_in_turn(rt, row, size, start, part) };
    join_mut(rt, &mut one, &mut others);
}

/// Writes truth values over a list of as many, in chunks of a size.
pub fn write_bools_in_threads<R: Threads + Sync>(
    rt: &R,
    row: BoolRow<'_>,
    size: usize,
    list: &mut [bool],
)
    requires size { 0 < size }
    requires fits { FitBools row }
    requires long { length list.old ≡ length (bools_of row) }
    ensures { list.new ≡ bools_of row.entry }
{
    if are_few(list.len(), size) {
        return write_bools_in_turn(rt, row, size, 0, list);
    }
    par_chunks_mut_for_each(
        rt,
        list,
        size,
        |start: usize, part: &mut [bool]|
            requires { FitBools row × (start + length part.now ≤ length (bools_of row)) × (start + length part.now < 2 ^ 64) }
            ensures { part.new ≡ take (length part.old) (drop start (bools_of row.entry)) }
        {
            write_bools(row, start, part);
        },
    );
}

/// Writes the integers of the rows over vectors of as many, in chunks of so many vectors.
pub fn write_each_ints_in_threads<R: Threads + Sync>(
    rt: &R,
    rows: &[IntRow<'_>],
    size: usize,
    lists: &mut [Vec<i64>],
)
    requires size { 0 < size }
    requires fits { All FitInts rows.now }
    requires long { AreAsLong ints_of rows.now 0 lists.old }
    ensures { AreMade ints_of rows.now 0 lists.old lists.new }
{
    if are_few(lists.len(), size) {
        return write_each_ints_in_turn(rt, rows, size, 0, lists);
    }
    par_chunks_mut_for_each(
        rt,
        lists,
        size,
        |start: usize, part: &mut [Vec<i64>]|
            requires { All FitInts rows.now × AreAsLong ints_of rows.now start part.now }
            ensures { AreMade ints_of rows.entry.now start part.old part.new }
        {
            write_lists(rows, start, part);
        },
    );
}

/// Writes the truth values of the rows over vectors of as many, in chunks of so many vectors.
pub fn write_each_bools_in_threads<R: Threads + Sync>(
    rt: &R,
    rows: &[BoolRow<'_>],
    size: usize,
    lists: &mut [Vec<bool>],
)
    requires size { 0 < size }
    requires fits { All FitBools rows.now }
    requires long { AreAsLong bools_of rows.now 0 lists.old }
    ensures { AreMade bools_of rows.now 0 lists.old lists.new }
{
    if are_few(lists.len(), size) {
        return write_each_bools_in_turn(rt, rows, size, 0, lists);
    }
    par_chunks_mut_for_each(
        rt,
        lists,
        size,
        |start: usize, part: &mut [Vec<bool>]|
            requires { All FitBools rows.now × AreAsLong bools_of rows.now start part.now }
            ensures { AreMade bools_of rows.entry.now start part.old part.new }
        {
            write_lists(rows, start, part);
        },
    );
}
