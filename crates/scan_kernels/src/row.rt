//! What each row of a kernel's result offers, whatever its items are: what goes over rows is written once for both kinds.

ghost use Rattle.std.specs.Prelude.{◌≡◌, ◌+◌, ◌<◌, ◌≤◌, ◌^◌, List, length, take, drop};
ghost use Rattle.scan_kernels.specs.Lists.{FitBools, FitInts, bools_of, ints_of};

use crate::rows::{BoolRow, IntRow, count_bools, count_ints, write_bools, write_ints};

/// A list that a kernel makes, each part of which can be written by itself.
pub trait Row: Copy {
    /// What it holds.
    type Item: Copy;

    /// What the operands must meet.
    ghost Fits: { Self → Type 0 };

    /// The items.
    ghost items: { Self → List Self.Item };

    /// How many items there are.
    fn count(self) -> usize
        requires { Fits self }
        ensures { result ≡ length (items self) };

    /// Writes the items from a place on, as many as the part has.
    fn write(self, start: usize, part: &mut [Self::Item])
        requires fits { Fits self }
        requires within { start + length part.old ≤ length (items self) }
        requires small { start + length part.old < 2 ^ 64 }
        ensures { part.new ≡ take (length part.old) (drop start (items self)) };

    /// What stands in a vector until it is written over.
    fn blank() -> Self::Item;
}

impl Row for IntRow<'_> {
    type Item = i64;

    ghost Fits = { FitInts };

    ghost items = { ints_of };

    fn count(self) -> usize {
        count_ints(self)
    }

    fn write(self, start: usize, part: &mut [i64]) {
        write_ints(self, start, part)
    }

    fn blank() -> i64 {
        0
    }
}

impl Row for BoolRow<'_> {
    type Item = bool;

    ghost Fits = { FitBools };

    ghost items = { bools_of };

    fn count(self) -> usize {
        count_bools(self)
    }

    fn write(self, start: usize, part: &mut [bool]) {
        write_bools(self, start, part)
    }

    fn blank() -> bool {
        false
    }
}
