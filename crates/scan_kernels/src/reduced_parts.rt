//! The reductions of parts that each lie by themselves, as a list of which each item can be told by itself.

ghost use Rattle.std.specs.Prelude.{map};
ghost use Rattle.item_operations.specs.BooleanScans.{combine_b, unit_b};
ghost use Rattle.item_operations.specs.IntegerScans.{combine_z, unit_z};
ghost use Rattle.scan_kernels.specs.Segmented.{reduced};

use crate::choices::{by_name, by_scan_b, by_scan_z};
use crate::placewise::Placewise;
use crate::reduce::reduce_segment;
use item_operations::{ScanB, ScanZ};

/// What the operation makes of each part, which is one segment.
#[derive(Clone, Copy)]
pub struct ReducedParts<'a, O, T> {
    pub op: O,
    pub parts: &'a [&'a [T]],
}

impl Placewise<i64> for ReducedParts<'_, ScanZ, i64> {
    ghost Fits = { λ l. Unit {0} };

    ghost items = { λ l. map (λ p. reduced (combine_z l.op) (unit_z l.op) p.now) l.parts.now };

    fn count(&self) -> usize {
        self.parts.len()
    }

    fn at(&self, place: usize) -> i64 {
        let op = self.op;
        let items = self.parts[place];
        by_scan_z!(op, reduce_segment(op, items))
    }
}

impl Placewise<bool> for ReducedParts<'_, ScanB, bool> {
    ghost Fits = { λ l. Unit {0} };

    ghost items = { λ l. map (λ p. reduced (combine_b l.op) (unit_b l.op) p.now) l.parts.now };

    fn count(&self) -> usize {
        self.parts.len()
    }

    fn at(&self, place: usize) -> bool {
        let op = self.op;
        let items = self.parts[place];
        by_scan_b!(op, reduce_segment(op, items))
    }
}
