//! Work by chunks in the calling thread, one chunk after another.

ghost use Rattle.std.specs.Prelude.{◌≡◌, ◌+◌, ◌<◌, ◌≤◌, length, All};
ghost use Rattle.scan_kernels.specs.RowLists.{AreAsLong, AreMade};

use crate::row::Row;
use crate::row_lists::write_lists;

/// Writes the items of a row over a list of as many, in chunks of a size.
pub fn write_in_order<R: Row>(row: R, size: usize, list: &mut [R::Item])
    requires size { 0 < size }
    requires fits { R.Fits row }
    requires long { length list.old ≡ length (R.items row) }
    ensures { list.new ≡ R.items row }
{
    let mut start = 0;
    while start < list.len() {
        let end = end_of(start, size, list.len());
        row.write(start, &mut list[start..end]);
        start = end;
    }
}

/// Writes the items of the rows over vectors of as many, in chunks of so many vectors.
pub fn write_each_in_order<R: Row>(rows: &[R], size: usize, lists: &mut [Vec<R::Item>])
    requires size { 0 < size }
    requires fits { All R.Fits rows.now }
    requires long { AreAsLong R.items rows.now 0 lists.old }
    ensures { AreMade R.items rows.now 0 lists.old lists.new }
{
    let mut start = 0;
    while start < lists.len() {
        let end = end_of(start, size, lists.len());
        write_lists(rows, start, &mut lists[start..end]);
        start = end;
    }
}

/// Where the chunk that begins at a place of a list ends.
pub(crate) fn end_of(start: usize, size: usize, length: usize) -> usize
    requires size { 0 < size }
    requires place { start < length }
    ensures behind { start < result }
    ensures within { result ≤ length }
    ensures short { result ≤ start + size }
{
    if size < length - start {
        start + size
    } else {
        length
    }
}
