//! What kernels make item by item, as values: an operation with its operands, which are lent.

ghost use Rattle.std.specs.Prelude.{◌≡◌, if◌then◌else◌, length, map, All};
ghost use Rattle.item_operations.specs.BooleanOps.{alter_b, apply_b};
ghost use Rattle.item_operations.specs.IntegerOps.{IsAllowed, alter_z, apply_z, compares};
ghost use Rattle.scan_kernels.specs.Elementwise.{as_number, is_true, item_by_item, selected};

use crate::placewise::Placewise;
use item_operations::{B1, B2, Cmp, Z1, Z2};
use std::alloc::AllocError;

/// The operation on each integer.
#[derive(Clone, Copy)]
pub struct AlteredInts<'a> {
    pub op: Z1,
    pub items: &'a [i64],
}

impl Placewise<i64> for AlteredInts<'_> {
    ghost Fits = { λ l. Unit {0} };

    ghost items = { λ l. map (alter_z l.op) l.items.now };

    #[inline(always)]
    fn count(&self) -> usize {
        self.items.len()
    }

    #[inline(always)]
    fn at(&self, place: usize) -> i64 {
        self.op.apply(self.items[place])
    }
}

/// The operation on each truth value.
#[derive(Clone, Copy)]
pub struct AlteredBools<'a> {
    pub op: B1,
    pub items: &'a [bool],
}

impl Placewise<bool> for AlteredBools<'_> {
    ghost Fits = { λ l. Unit {0} };

    ghost items = { λ l. map (alter_b l.op) l.items.now };

    #[inline(always)]
    fn count(&self) -> usize {
        self.items.len()
    }

    #[inline(always)]
    fn at(&self, place: usize) -> bool {
        self.op.apply(self.items[place])
    }
}

/// The operation on the two integers at each place of two vectors of one length.
#[derive(Clone, Copy)]
pub struct AppliedInts<'a> {
    pub op: Z2,
    pub left: &'a [i64],
    pub right: &'a [i64],
}

impl Placewise<i64> for AppliedInts<'_> {
    ghost Fits = { λ l. (length l.left.now ≡ length l.right.now) × All (IsAllowed l.op) l.right.now };

    ghost items = { λ l. item_by_item (apply_z l.op) l.left.now l.right.now };

    #[inline(always)]
    #[tactic(auto, using(crate::proofs::Placed::paired_long))]
    fn count(&self) -> usize {
        self.left.len()
    }

    #[inline(always)]
    #[tactic(auto, using(crate::proofs::Placed::paired_long))]
    fn at(&self, place: usize) -> i64 {
        self.op.apply(self.left[place], self.right[place])
    }
}

/// The operation on the two truth values at each place of two vectors of one length.
#[derive(Clone, Copy)]
pub struct AppliedBools<'a> {
    pub op: B2,
    pub left: &'a [bool],
    pub right: &'a [bool],
}

impl Placewise<bool> for AppliedBools<'_> {
    ghost Fits = { λ l. length l.left.now ≡ length l.right.now };

    ghost items = { λ l. item_by_item (apply_b l.op) l.left.now l.right.now };

    #[inline(always)]
    #[tactic(auto, using(crate::proofs::Placed::paired_long))]
    fn count(&self) -> usize {
        self.left.len()
    }

    #[inline(always)]
    #[tactic(auto, using(crate::proofs::Placed::paired_long))]
    fn at(&self, place: usize) -> bool {
        self.op.apply(self.left[place], self.right[place])
    }
}

/// Whether the comparison holds of the two integers at each place of two vectors of one length.
#[derive(Clone, Copy)]
pub struct Compared<'a> {
    pub op: Cmp,
    pub left: &'a [i64],
    pub right: &'a [i64],
}

impl Placewise<bool> for Compared<'_> {
    ghost Fits = { λ l. length l.left.now ≡ length l.right.now };

    ghost items = { λ l. item_by_item (compares l.op) l.left.now l.right.now };

    #[inline(always)]
    #[tactic(auto, using(crate::proofs::Placed::paired_long))]
    fn count(&self) -> usize {
        self.left.len()
    }

    #[inline(always)]
    #[tactic(auto, using(crate::proofs::Placed::paired_long))]
    fn at(&self, place: usize) -> bool {
        self.op.apply(self.left[place], self.right[place])
    }
}

/// Integers as truth values.
#[derive(Clone, Copy)]
pub struct Truths<'a> {
    pub items: &'a [i64],
}

impl Placewise<bool> for Truths<'_> {
    ghost Fits = { λ l. Unit {0} };

    ghost items = { λ l. map is_true l.items.now };

    #[inline(always)]
    fn count(&self) -> usize {
        self.items.len()
    }

    #[inline(always)]
    fn at(&self, place: usize) -> bool {
        is_true(self.items[place])
    }
}

/// Whether an integer is not 0.
fn is_true(x: i64) -> bool
    ensures { result ≡ is_true x }
{
    x != 0
}

/// Truth values as integers.
#[derive(Clone, Copy)]
pub struct Numbers<'a> {
    pub items: &'a [bool],
}

impl Placewise<i64> for Numbers<'_> {
    ghost Fits = { λ l. Unit {0} };

    ghost items = { λ l. map as_number l.items.now };

    #[inline(always)]
    fn count(&self) -> usize {
        self.items.len()
    }

    #[inline(always)]
    fn at(&self, place: usize) -> i64 {
        as_number(self.items[place])
    }
}

/// 1 for true, and 0 for false.
fn as_number(x: bool) -> i64
    ensures { result ≡ as_number x }
{
    i64::from(x)
}

/// At each place the item of the first vector where the flag is set, else that of the second. All three have one length.
#[derive(Copy)]
pub struct Selected<'a, T> {
    pub flags: &'a [bool],
    pub set: &'a [T],
    pub unset: &'a [T],
}

// By hand, since a derived clone goes field by field, which takes the prover as long as a kernel.
impl<T: Copy> Clone for Selected<'_, T> {
    fn clone(&self) -> Result<Self, AllocError> {
        Ok(*self)
    }
}

impl<T: Copy> Placewise<T> for Selected<'_, T> {
    ghost Fits = { λ l. (length l.flags.now ≡ length l.set.now) × (length l.flags.now ≡ length l.unset.now) };

    ghost items = { λ l. selected l.flags.now l.set.now l.unset.now };

    #[inline(always)]
    #[tactic(auto, using(crate::proofs::Placed::chosen_long))]
    fn count(&self) -> usize {
        self.flags.len()
    }

    #[inline(always)]
    #[tactic(auto, using(crate::proofs::Placed::chosen_long))]
    fn at(&self, place: usize) -> T {
        either(self.flags[place], self.set[place], self.unset[place])
    }
}

// Both items are read, so that the loop has no branch.
fn either<T: Copy>(flag: bool, x: T, y: T) -> T
    ensures { result ≡ (if flag then x else y) }
{
    if flag { x } else { y }
}
