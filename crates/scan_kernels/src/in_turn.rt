//! Work by few chunks in threads that the calling thread starts one after another: each chunk but the last in a thread of its own.
//!
//! Threads that start threads at the same time are given one processor, and one of them then waits there for milliseconds.

ghost use Rattle.std.specs.Prelude.{◌≡◌, ◌+◌, ◌<◌, ◌≤◌, ◌^◌, length, take, drop, All};
ghost use Rattle.std.specs.Thread.{IsSync};
ghost use Rattle.scan_kernels.specs.RowLists.{AreAsLong, AreMade};
ghost use Rattle.scan_kernels.specs.Lists.{FitBools, FitInts, bools_of, ints_of};

use crate::row_lists::write_lists;
use crate::rows::{BoolRow, IntRow, write_bools, write_ints};
use rayon::join_mut;
use std::marker::Sync;
use std::thread::Threads;

/// Up to how many chunks the calling thread starts their threads itself: each start takes it some ten microseconds.
pub(crate) const FEW_CHUNKS: usize = 16;

/// Whether so many items make few chunks of a size.
pub(crate) fn are_few(count: usize, size: usize) -> bool
    requires { 0 < size }
{
    count.div_ceil(size) <= FEW_CHUNKS
}

/// Writes the integers from a place on, as many as the part has, in chunks of a size.
#[cycle(ints)]
pub(crate) fn write_ints_in_turn<R: Threads + Sync>(
    rt: &R,
    row: IntRow<'_>,
    size: usize,
    start: usize,
    part: &mut [i64],
)
    requires size { 0 < size }
    requires fits { FitInts row }
    requires within { start + length part.old ≤ length (ints_of row) }
    requires small { start + length part.old < 2 ^ 64 }
    ensures { part.new ≡ take (length part.old) (drop start (ints_of row.entry)) }
{
    if part.len() <= size {
        write_ints(row, start, part);
        return;
    }
    let (first, rest) = part.split_at_mut(size);
    write_both_ints(rt, row, size, start, first, start + size, rest);
}

/// Writes a chunk in a thread of its own, and meanwhile those behind it, which begin at a place.
#[cycle(ints)]
fn write_both_ints<R: Threads + Sync>(
    rt: &R,
    row: IntRow<'_>,
    size: usize,
    start: usize,
    first: &mut [i64],
    next: usize,
    rest: &mut [i64],
)
    requires size { 0 < size }
    requires fits { FitInts row }
    requires within { start + length first.old ≤ length (ints_of row) }
    requires small { start + length first.old < 2 ^ 64 }
    requires within_rest { next + length rest.old ≤ length (ints_of row) }
    requires small_rest { next + length rest.old < 2 ^ 64 }
    ensures first { first.new ≡ take (length first.old) (drop start (ints_of row.entry)) }
    ensures rest { rest.new ≡ take (length rest.old) (drop next (ints_of row.entry)) }
{
    let mut one = ||
        requires { FitInts row × (start + length first.now ≤ length (ints_of row)) × (start + length first.now < 2 ^ 64) }
        ensures { first.exit.now ≡ take (length first.entry.now) (drop start (ints_of row.entry)) }
    { write_ints(row, start, first) };
    let mut others = ||
        requires { IsSync R.row × (0 < size) × FitInts row × (next + length rest.now ≤ length (ints_of row)) × (next + length rest.now < 2 ^ 64) }
        ensures { rest.exit.now ≡ take (length rest.entry.now) (drop next (ints_of row.entry)) }
    { write_ints_in_turn(rt, row, size, next, rest) };
    join_mut(rt, &mut one, &mut others);
}

/// Writes the truth values from a place on, as many as the part has, in chunks of a size.
#[cycle(bools)]
pub(crate) fn write_bools_in_turn<R: Threads + Sync>(
    rt: &R,
    row: BoolRow<'_>,
    size: usize,
    start: usize,
    part: &mut [bool],
)
    requires size { 0 < size }
    requires fits { FitBools row }
    requires within { start + length part.old ≤ length (bools_of row) }
    requires small { start + length part.old < 2 ^ 64 }
    ensures { part.new ≡ take (length part.old) (drop start (bools_of row.entry)) }
{
    if part.len() <= size {
        write_bools(row, start, part);
        return;
    }
    let (first, rest) = part.split_at_mut(size);
    write_both_bools(rt, row, size, start, first, start + size, rest);
}

/// Writes a chunk in a thread of its own, and meanwhile those behind it, which begin at a place.
#[cycle(bools)]
fn write_both_bools<R: Threads + Sync>(
    rt: &R,
    row: BoolRow<'_>,
    size: usize,
    start: usize,
    first: &mut [bool],
    next: usize,
    rest: &mut [bool],
)
    requires size { 0 < size }
    requires fits { FitBools row }
    requires within { start + length first.old ≤ length (bools_of row) }
    requires small { start + length first.old < 2 ^ 64 }
    requires within_rest { next + length rest.old ≤ length (bools_of row) }
    requires small_rest { next + length rest.old < 2 ^ 64 }
    ensures first { first.new ≡ take (length first.old) (drop start (bools_of row.entry)) }
    ensures rest { rest.new ≡ take (length rest.old) (drop next (bools_of row.entry)) }
{
    let mut one = ||
        requires { FitBools row × (start + length first.now ≤ length (bools_of row)) × (start + length first.now < 2 ^ 64) }
        ensures { first.exit.now ≡ take (length first.entry.now) (drop start (bools_of row.entry)) }
    { write_bools(row, start, first) };
    let mut others = ||
        requires { IsSync R.row × (0 < size) × FitBools row × (next + length rest.now ≤ length (bools_of row)) × (next + length rest.now < 2 ^ 64) }
        ensures { rest.exit.now ≡ take (length rest.entry.now) (drop next (bools_of row.entry)) }
    { write_bools_in_turn(rt, row, size, next, rest) };
    join_mut(rt, &mut one, &mut others);
}

/// Writes the rows of integers from a place on over vectors of as many items, as many as there are vectors, in chunks of so many.
#[cycle(each_ints)]
pub(crate) fn write_each_ints_in_turn<R: Threads + Sync>(
    rt: &R,
    rows: &[IntRow<'_>],
    size: usize,
    start: usize,
    lists: &mut [Vec<i64>],
)
    requires size { 0 < size }
    requires fits { All FitInts rows.now }
    requires long { AreAsLong ints_of rows.now start lists.old }
    ensures { AreMade ints_of rows.now start lists.old lists.new }
{
    if lists.len() <= size {
        write_lists(rows, start, lists);
        return;
    }
    let (first, rest) = lists.split_at_mut(size);
    write_each_both_ints(rt, rows, size, start, first, start + size, rest);
}

/// Writes a chunk in a thread of its own, and meanwhile those behind it, which begin at a place.
#[cycle(each_ints)]
fn write_each_both_ints<R: Threads + Sync>(
    rt: &R,
    rows: &[IntRow<'_>],
    size: usize,
    start: usize,
    first: &mut [Vec<i64>],
    next: usize,
    rest: &mut [Vec<i64>],
)
    requires size { 0 < size }
    requires fits { All FitInts rows.now }
    requires long { AreAsLong ints_of rows.now start first.old }
    requires long_rest { AreAsLong ints_of rows.now next rest.old }
    ensures first { AreMade ints_of rows.now start first.old first.new }
    ensures rest { AreMade ints_of rows.now next rest.old rest.new }
{
    let mut one = ||
        requires { All FitInts rows.now × AreAsLong ints_of rows.now start first.now }
        ensures { AreMade ints_of rows.entry.now start first.entry.now first.exit.now }
    { write_lists(rows, start, first) };
    let mut others = ||
        requires { IsSync R.row × (0 < size) × All FitInts rows.now × AreAsLong ints_of rows.now next rest.now }
        ensures { AreMade ints_of rows.entry.now next rest.entry.now rest.exit.now }
    { write_each_ints_in_turn(rt, rows, size, next, rest) };
    join_mut(rt, &mut one, &mut others);
}

/// Writes the rows of truth values from a place on over vectors of as many items, as many as there are vectors, in chunks of so many.
#[cycle(each_bools)]
pub(crate) fn write_each_bools_in_turn<R: Threads + Sync>(
    rt: &R,
    rows: &[BoolRow<'_>],
    size: usize,
    start: usize,
    lists: &mut [Vec<bool>],
)
    requires size { 0 < size }
    requires fits { All FitBools rows.now }
    requires long { AreAsLong bools_of rows.now start lists.old }
    ensures { AreMade bools_of rows.now start lists.old lists.new }
{
    if lists.len() <= size {
        write_lists(rows, start, lists);
        return;
    }
    let (first, rest) = lists.split_at_mut(size);
    write_each_both_bools(rt, rows, size, start, first, start + size, rest);
}

/// Writes a chunk in a thread of its own, and meanwhile those behind it, which begin at a place.
#[cycle(each_bools)]
fn write_each_both_bools<R: Threads + Sync>(
    rt: &R,
    rows: &[BoolRow<'_>],
    size: usize,
    start: usize,
    first: &mut [Vec<bool>],
    next: usize,
    rest: &mut [Vec<bool>],
)
    requires size { 0 < size }
    requires fits { All FitBools rows.now }
    requires long { AreAsLong bools_of rows.now start first.old }
    requires long_rest { AreAsLong bools_of rows.now next rest.old }
    ensures first { AreMade bools_of rows.now start first.old first.new }
    ensures rest { AreMade bools_of rows.now next rest.old rest.new }
{
    let mut one = ||
        requires { All FitBools rows.now × AreAsLong bools_of rows.now start first.now }
        ensures { AreMade bools_of rows.entry.now start first.entry.now first.exit.now }
    { write_lists(rows, start, first) };
    let mut others = ||
        requires { IsSync R.row × (0 < size) × All FitBools rows.now × AreAsLong bools_of rows.now next rest.now }
        ensures { AreMade bools_of rows.entry.now next rest.entry.now rest.exit.now }
    { write_each_bools_in_turn(rt, rows, size, next, rest) };
    join_mut(rt, &mut one, &mut others);
}
