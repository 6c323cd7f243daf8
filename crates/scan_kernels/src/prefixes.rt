//! The scan of all items, written part by part: each part begins from what the items before it come to.

ghost use Rattle.std.specs.Prelude.{◌≡◌, ◌+◌, ◌≤◌, length, take, drop};
ghost use Rattle.item_operations.specs.BooleanScans.{combine_b, unit_b};
ghost use Rattle.item_operations.specs.IntegerScans.{combine_z, unit_z};
ghost use Rattle.scan_kernels.specs.Segmented.{scanned};

use crate::choices::{by_name, by_scan_b, by_scan_z};
use crate::scans_in_parts::{folded, write_scanned};
use item_operations::{Combine, ScanB, ScanZ};

/// What the operation makes of the items before each: the exclusive scan of all.
#[derive(Clone, Copy)]
pub struct Prefixes<'a, O, T> {
    pub op: O,
    pub items: &'a [T],
}

impl<O, T> Prefixes<'_, O, T> {
    /// How many items there are.
    pub fn count(&self) -> usize
        ensures { result ≡ length self.now.items.now }
    {
        self.items.len()
    }
}

/// Writes a scan of integers from a place on, as much of it as the part has.
pub fn write_prefix_ints(list: Prefixes<'_, ScanZ, i64>, start: usize, part: &mut [i64])
    requires { start + length part.old ≤ length list.items.now }
    ensures { part.new ≡ take (length part.old) (drop start (scanned (combine_z list.entry.op) (unit_z list.entry.op) list.entry.items.now)) }
{
    let Prefixes { op, items } = list;
    by_scan_z!(op, write_prefixes(op, items, start, part))
}

/// Writes a scan of truth values from a place on, as much of it as the part has.
pub fn write_prefix_bools(list: Prefixes<'_, ScanB, bool>, start: usize, part: &mut [bool])
    requires { start + length part.old ≤ length list.items.now }
    ensures { part.new ≡ take (length part.old) (drop start (scanned (combine_b list.entry.op) (unit_b list.entry.op) list.entry.items.now)) }
{
    let Prefixes { op, items } = list;
    by_scan_b!(op, write_prefixes(op, items, start, part))
}

/// Writes the scan from a place on, as much of it as the part has.
#[inline(always)]
fn write_prefixes<O: Combine>(op: O, items: &[O::Item], start: usize, part: &mut [O::Item])
    requires { start + length part.old ≤ length items.now }
    ensures { part.new ≡ take (length part.old) (drop start (scanned (O.combined op) (O.unit_of op) items.now)) }
{
    let (before, behind) = items.split_at(start);
    let (own, _) = behind.split_at(part.len());
    write_scanned(op, folded(op, op.unit(), before), own, part);
}
