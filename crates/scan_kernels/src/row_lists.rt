//! Several lists that kernels make, each written over a vector of its own: the parts of a joined run.

ghost use Rattle.std.specs.Prelude.{◌≡◌, length, vec_capacity, All};
ghost use Rattle.scan_kernels.specs.RowLists.{AreAsLong, AreMade};

use crate::row::Row;

/// Writes the items of a row over a vector of as many.
fn write_list<R: Row>(row: R, list: &mut Vec<R::Item>)
    requires fits { R.Fits row }
    requires long { length list.old.items ≡ length (R.items row) }
    ensures items { list.new.items ≡ R.items row }
    ensures space { vec_capacity list.new ≡ vec_capacity list.old }
{
    row.write(0, list);
}

/// Writes the rows from a place on over vectors of as many items, as many as there are vectors.
pub fn write_lists<R: Row>(rows: &[R], start: usize, lists: &mut [Vec<R::Item>])
    requires fits { All R.Fits rows.now }
    requires long { AreAsLong R.items rows.now start lists.old }
    ensures { AreMade R.items rows.now start lists.old lists.new }
{
    for i in 0..lists.len() {
        write_list(rows[start + i], &mut lists[i]);
    }
}
