//! Kernels that go item by item, or scan, and write their result over an operand, in the calling thread. They take no memory.

ghost use Rattle.std.specs.Prelude.{◌≡◌, List, Some, length, map, slice_get, All};
ghost use Rattle.item_operations.specs.IntegerOps.{IsAllowed, alter_z, apply_z};
ghost use Rattle.item_operations.specs.IntegerScans.{combine_z, unit_z};
ghost use Rattle.scan_kernels.specs.Elementwise.{item_by_item};
ghost use Rattle.scan_kernels.specs.Metering.{raised};
ghost use Rattle.scan_kernels.specs.Segmented.{scanned};

use crate::choices::{by_name, by_scan_z, by_z1, by_z2};
use crate::meter::Meter;
use item_operations::{Combine, ScanZ, Z1, Z2};

/// What becomes of each item of a list: an operation with its other operand, lent.
pub trait Overwrite<T> {
    /// What the items must meet.
    ghost Fits: { Self → List T → Type 0 };

    /// What becomes of the items.
    ghost after: { Self → List T → List T };

    /// What becomes of the item at a place.
    fn at(&self, place: usize, item: T) -> T
        requires { (items : List T) × Fits self.now items × (slice_get items place ≡ Some item) }
        ensures { (items : List T) → Fits self.now items → slice_get items place ≡ Some item
            → slice_get (after self.now items) place ≡ Some result };
}

/// Writes over each item of a list what becomes of it.
#[inline(always)]
pub(crate) fn write_over<T: Copy, L: Overwrite<T>>(change: &L, list: &mut [T])
    requires fits { L.Fits change.now list.old }
    requires long { length (L.after change.now list.old) ≡ length list.old }
    ensures { list.new ≡ L.after change.now list.old }
{
    for i in 0..list.len() {
        list[i] = change.at(i, list[i]);
    }
}

/// The operation on each integer.
#[derive(Clone, Copy)]
struct Alter {
    op: Z1,
}

impl Overwrite<i64> for Alter {
    ghost Fits = { λ l items. Unit {0} };

    ghost after = { λ l items. map (alter_z l.op) items };

    #[inline(always)]
    fn at(&self, _place: usize, item: i64) -> i64 {
        self.op.apply(item)
    }
}

/// The operation on each integer and the one at its place of a second vector.
#[derive(Clone, Copy)]
struct ApplyBefore<'a> {
    op: Z2,
    right: &'a [i64],
}

impl Overwrite<i64> for ApplyBefore<'_> {
    ghost Fits = { λ l items. (length items ≡ length l.right.now) × All (IsAllowed l.op) l.right.now };

    ghost after = { λ l items. item_by_item (apply_z l.op) items l.right.now };

    #[inline(always)]
    #[tactic(auto, using(crate::proofs::Placed::paired_long))]
    fn at(&self, place: usize, item: i64) -> i64 {
        self.op.apply(item, self.right[place])
    }
}

/// The operation on the integer at the place of a first vector and each integer.
#[derive(Clone, Copy)]
struct ApplyBehind<'a> {
    op: Z2,
    left: &'a [i64],
}

impl Overwrite<i64> for ApplyBehind<'_> {
    ghost Fits = { λ l items. (length l.left.now ≡ length items) × All (IsAllowed l.op) items };

    ghost after = { λ l items. item_by_item (apply_z l.op) l.left.now items };

    #[inline(always)]
    #[tactic(auto, using(crate::proofs::Placed::paired_long))]
    fn at(&self, place: usize, item: i64) -> i64 {
        self.op.apply(self.left[place], item)
    }
}

/// Writes over each item of a list what the items before it come to.
#[inline(always)]
fn scan_over<O: Combine>(op: O, list: &mut [O::Item])
    ensures { list.new ≡ scanned (O.combined op) (O.unit_of op) list.old }
{
    let mut so_far = op.unit();
    for i in 0..list.len() {
        let item = list[i];
        list[i] = so_far;
        so_far = op.combine(so_far, item);
    }
}

/// `map1_z` in the calling thread, whose result is written over the vector.
#[inline(never)]
pub fn map1_z_over(meter: &mut Meter, op: Z1, a: &mut [i64])
    ensures map { a.new ≡ map (alter_z op) a.old }
    ensures counted { meter.new ≡ raised meter.old }
{
    by_z1!(op, write_over(&Alter { op }, a));
    meter.raise();
}

/// `scan_whole_z` in the calling thread, whose result is written over the vector.
#[inline(never)]
pub fn scan_whole_z_over(meter: &mut Meter, op: ScanZ, a: &mut [i64])
    ensures scan { a.new ≡ scanned (combine_z op) (unit_z op) a.old }
    ensures counted { meter.new ≡ raised meter.old }
{
    by_scan_z!(op, scan_over(op, a));
    meter.raise();
}

/// `map2_z` in the calling thread, whose result is written over the first vector.
#[tactic(auto, using(crate::proofs::Placed::paired_long))]
#[inline(never)]
pub fn map2_z_over_first(meter: &mut Meter, op: Z2, a: &mut [i64], b: &[i64])
    requires same_length { length a.old ≡ length b.now }
    requires allowed { All (IsAllowed op) b.now }
    ensures map { a.new ≡ item_by_item (apply_z op) a.old b.now }
    ensures counted { meter.new ≡ raised meter.old }
{
    by_z2!(op, write_over(&ApplyBefore { op, right: b }, a));
    meter.raise();
}

/// `map2_z` in the calling thread, whose result is written over the second vector.
#[tactic(auto, using(crate::proofs::Placed::paired_long))]
#[inline(never)]
pub fn map2_z_over_second(meter: &mut Meter, op: Z2, a: &[i64], b: &mut [i64])
    requires same_length { length a.now ≡ length b.old }
    requires allowed { All (IsAllowed op) b.old }
    ensures map { b.new ≡ item_by_item (apply_z op) a.now b.old }
    ensures counted { meter.new ≡ raised meter.old }
{
    by_z2!(op, write_over(&ApplyBehind { op, left: a }, b));
    meter.raise();
}
