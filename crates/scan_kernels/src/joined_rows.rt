//! A joined run whose results are written as rows, by chunks of parts, where that pays.

ghost use Rattle.std.specs.Prelude.{◌≡◌, ◌<◌, length, map, All, IfOk, IfSome};
ghost use Rattle.segment_desc.specs.Appended.{IsExact};
ghost use Rattle.scan_kernels.specs.Lists.{FitBools, FitInts, bools_of, ints_of};
ghost use Rattle.scan_kernels.specs.Metering.{CountsRun};
ghost use Rattle.scan_kernels.specs.Parts.{parts_made};
ghost use Rattle.scan_kernels.specs.RowLists.{AreAsLong};

use crate::chunks::{WRITES_PAY, joined_size, may_go_by_chunks};
use crate::execution::Execution;
use crate::kernel::JoinedKernel;
use crate::meter::Meter;
use crate::row::Row;
use crate::rows::{BoolRow, IntRow};
use crate::shelf::{Shelf, WORTH_A_SEARCH};
use crate::source::Source;
use segment_desc::OutOfMemory;
use std::alloc::{AllocError, Global};

/// A kernel whose results are integers, each of which can be written by itself.
pub trait IntKernel<'a, P>: JoinedKernel<P, Item = i64> {
    /// The result of a part as a row.
    fn row(self, part: &P) -> IntRow<'a>
        requires { Self.Takes self part.now }
        ensures fits { FitInts result }
        ensures items { ints_of result ≡ Self.makes self part.now };
}

/// A kernel whose results are truth values, each of which can be written by itself.
pub trait BoolKernel<'a, P>: JoinedKernel<P, Item = bool> {
    /// The result of a part as a row.
    fn row(self, part: &P) -> BoolRow<'a>
        requires { Self.Takes self part.now }
        ensures fits { FitBools result }
        ensures items { bools_of result ≡ Self.makes self part.now };
}

/// The results of all parts as rows, if there is memory for their list.
pub(crate) fn int_rows<'a, P, K: IntKernel<'a, P>>(
    alloc: Global,
    kernel: K,
    parts: &[P],
) -> Option<Vec<IntRow<'a>>>
    requires { All (K.Takes kernel) parts.now }
    ensures fits { IfSome result (λ rows. All FitInts rows.items) }
    ensures items { IfSome result (λ rows. map ints_of rows.items ≡ map (K.makes kernel) parts.now) }
{
    let mut rows = Vec::with_capacity(alloc, parts.len()).ok()?;
    for part in parts {
        rows.push_reserved(kernel.row(part));
    }
    Some(rows)
}

/// How many items the rows have, or as many as can be told.
pub(crate) fn total<R: Row>(rows: &[R]) -> usize
    requires { All R.Fits rows.now }
{
    let mut total: usize = 0;
    for row in rows {
        total = total.saturating_add(row.count());
    }
    total
}

/// How many of the rows have so many items.
fn alike<R: Row>(rows: &[R], count: usize) -> usize
    requires { All R.Fits rows.now }
{
    let mut alike: usize = 0;
    for row in rows {
        if row.count() == count {
            alike = alike.saturating_add(1);
        }
    }
    alike
}

/// Whether a vector lies on the shelf for each row of so many items that one is sought; shorter rows need none. As few lie there, at most
/// 65 rows are compared with all others.
fn lie_ready<R: Row>(shelf: &Shelf<R::Item>, rows: &[R]) -> bool
    requires { All R.Fits rows.now }
{
    for row in rows {
        let count = row.count();
        if count >= WORTH_A_SEARCH && shelf.full_ones(count) < alike(rows, count) {
            return false;
        }
    }
    true
}

/// How many of the rows make a chunk, if they go by chunks.
fn rows_of_a_chunk<R: Row>(
    execution: &impl Execution,
    shelf: &Shelf<R::Item>,
    meter: &Meter,
    rows: &[R],
) -> Option<usize>
    requires { All R.Fits rows.now }
    ensures { IfSome result (λ size. 0 < size) }
{
    let total = total(rows);
    let pays = total >= WRITES_PAY && lie_ready(shelf, rows);
    joined_size(execution, meter, rows.len(), total, pays)
}

/// A vector of as many items, which are to be written over.
fn ready<R: Row>(shelf: &mut Shelf<R::Item>, count: usize) -> Result<Vec<R::Item>, AllocError>
    ensures long { IfOk result (λ v. length v.items ≡ count) }
    ensures exact { IfOk result (λ v. IsExact v) }
{
    shelf.ready(R::blank(), count)
}

/// A vector for each row, with as many items.
fn lists<R: Row>(shelf: &mut Shelf<R::Item>, rows: &[R]) -> Result<Vec<Vec<R::Item>>, AllocError>
    requires { All R.Fits rows.now }
    ensures long { IfOk result (λ lists. AreAsLong R.items rows.now 0 lists.items) }
    ensures count { IfOk result (λ lists. length lists.items ≡ length rows.now) }
    ensures exact { IfOk result (λ lists. All IsExact lists.items) }
{
    let mut lists = Vec::with_capacity(shelf.allocator(), rows.len())?;
    for row in rows {
        lists.push_reserved(ready::<R>(shelf, row.count())?);
    }
    Ok(lists)
}

/// The rows of the parts, and how many of them make a chunk, if they go by chunks.
fn chunked_ints<'a, P, K: IntKernel<'a, P>>(
    execution: &impl Execution,
    shelf: &Shelf<i64>,
    meter: &Meter,
    kernel: K,
    parts: &[P],
) -> Option<(Vec<IntRow<'a>>, usize)>
    requires { All (K.Takes kernel) parts.now }
    ensures size { IfSome result (λ chunked. 0 < chunked.1) }
    ensures fits { IfSome result (λ chunked. All FitInts chunked.0.items) }
    ensures items { IfSome result (λ chunked. map ints_of chunked.0.items ≡ map (K.makes kernel) parts.now) }
{
    if !may_go_by_chunks(meter, shelf.space()) {
        return None;
    }
    let rows = int_rows(shelf.allocator(), kernel, parts)?;
    let size = rows_of_a_chunk(execution, shelf, meter, &rows)?;
    Some((rows, size))
}

/// The integers of each row, in a vector of its own, by chunks of so many rows.
fn int_lists_by_chunks(
    execution: &impl Execution,
    shelf: &mut Shelf<i64>,
    rows: &[IntRow<'_>],
    size: usize,
) -> Result<Vec<Vec<i64>>, AllocError>
    requires size { 0 < size }
    requires fits { All FitInts rows.now }
    ensures items { IfOk result (λ made. parts_made made.items ≡ map ints_of rows.now) }
    ensures exact { IfOk result (λ made. All IsExact made.items) }
{
    let mut lists = lists(shelf, rows)?;
    execution.write_each_ints(rows, size, &mut lists);
    Ok(lists)
}

/// `run_joined` of a kernel of integers, whose results take vectors off a shelf, in threads where that pays: by chunks of whole parts.
pub fn run_joined_ints<'a, P, K: IntKernel<'a, P>>(
    execution: &impl Execution,
    shelf: &mut Shelf<i64>,
    meter: &mut Meter,
    kernel: K,
    parts: &[P],
) -> Result<Vec<Vec<i64>>, OutOfMemory>
    requires { All (K.Takes kernel) parts.now }
    ensures parts { IfOk result (λ made. parts_made made.items ≡ map (K.makes kernel) parts.now) }
    ensures exact { IfOk result (λ made. All IsExact made.items) }
    ensures counted { CountsRun result meter.old meter.new }
{
    let made = match chunked_ints(execution, shelf, meter, kernel, parts) {
        Some((rows, size)) => int_lists_by_chunks(execution, shelf, &rows, size)?,
        None => kernel.run_each(shelf, parts)?,
    };
    meter.raise();
    Ok(made)
}

/// The results of all parts as rows, if there is memory for their list.
fn bool_rows<'a, P, K: BoolKernel<'a, P>>(
    alloc: Global,
    kernel: K,
    parts: &[P],
) -> Option<Vec<BoolRow<'a>>>
    requires { All (K.Takes kernel) parts.now }
    ensures fits { IfSome result (λ rows. All FitBools rows.items) }
    ensures items { IfSome result (λ rows. map bools_of rows.items ≡ map (K.makes kernel) parts.now) }
{
    let mut rows = Vec::with_capacity(alloc, parts.len()).ok()?;
    for part in parts {
        rows.push_reserved(kernel.row(part));
    }
    Some(rows)
}

/// The rows of the parts, and how many of them make a chunk, if they go by chunks.
fn chunked_bools<'a, P, K: BoolKernel<'a, P>>(
    execution: &impl Execution,
    shelf: &Shelf<bool>,
    meter: &Meter,
    kernel: K,
    parts: &[P],
) -> Option<(Vec<BoolRow<'a>>, usize)>
    requires { All (K.Takes kernel) parts.now }
    ensures size { IfSome result (λ chunked. 0 < chunked.1) }
    ensures fits { IfSome result (λ chunked. All FitBools chunked.0.items) }
    ensures items { IfSome result (λ chunked. map bools_of chunked.0.items ≡ map (K.makes kernel) parts.now) }
{
    if !may_go_by_chunks(meter, shelf.space()) {
        return None;
    }
    let rows = bool_rows(shelf.allocator(), kernel, parts)?;
    let size = rows_of_a_chunk(execution, shelf, meter, &rows)?;
    Some((rows, size))
}

/// The truth values of each row, in a vector of its own, by chunks of so many rows.
fn bool_lists_by_chunks(
    execution: &impl Execution,
    shelf: &mut Shelf<bool>,
    rows: &[BoolRow<'_>],
    size: usize,
) -> Result<Vec<Vec<bool>>, AllocError>
    requires size { 0 < size }
    requires fits { All FitBools rows.now }
    ensures items { IfOk result (λ made. parts_made made.items ≡ map bools_of rows.now) }
    ensures exact { IfOk result (λ made. All IsExact made.items) }
{
    let mut lists = lists(shelf, rows)?;
    execution.write_each_bools(rows, size, &mut lists);
    Ok(lists)
}

/// `run_joined` of a kernel of truth values, whose results take vectors off a shelf, in threads where that pays: by chunks of whole
/// parts.
pub fn run_joined_bools<'a, P, K: BoolKernel<'a, P>>(
    execution: &impl Execution,
    shelf: &mut Shelf<bool>,
    meter: &mut Meter,
    kernel: K,
    parts: &[P],
) -> Result<Vec<Vec<bool>>, OutOfMemory>
    requires { All (K.Takes kernel) parts.now }
    ensures parts { IfOk result (λ made. parts_made made.items ≡ map (K.makes kernel) parts.now) }
    ensures exact { IfOk result (λ made. All IsExact made.items) }
    ensures counted { CountsRun result meter.old meter.new }
{
    let made = match chunked_bools(execution, shelf, meter, kernel, parts) {
        Some((rows, size)) => bool_lists_by_chunks(execution, shelf, &rows, size)?,
        None => kernel.run_each(shelf, parts)?,
    };
    meter.raise();
    Ok(made)
}
