//! Laws of the definitions that the contracts cite: each function does nothing, and its contract is the law.

ghost use Rattle.std.specs.Prelude.{◌≡◌, false};
ghost use Rattle.scan_kernels.specs.Pairs.{join_pairs};
ghost use Rattle.scan_kernels.specs.Prefixes.{ScansEach, ScansPrefixes};
ghost use Rattle.item_operations.specs.IntegerScans.{combine_z, unit_z};
ghost use Rattle.item_operations.specs.BooleanScans.{combine_b, unit_b};

use item_operations::{ScanB, ScanZ};

/// A scan of integers has as many items as its operand, and item i of it is the reduction of the first i items.
pub fn scans_reduce_prefixes_z(op: ScanZ)
    ensures each { ScansEach (combine_z op) (unit_z op) }
    ensures prefixes { ScansPrefixes (combine_z op) (unit_z op) }
{}

/// The same for truth values.
pub fn scans_reduce_prefixes_b(op: ScanB)
    ensures each { ScansEach (combine_b op) (unit_b op) }
    ensures prefixes { ScansPrefixes (combine_b op) (unit_b op) }
{}

/// Parts of a segmented scan of integers may be joined in any order, and a part in which nothing stands changes none.
pub fn pairs_join_z(op: ScanZ, p: (bool, i64), q: (bool, i64), r: (bool, i64))
    ensures associative { join_pairs (combine_z op) (join_pairs (combine_z op) p q) r
        ≡ join_pairs (combine_z op) p (join_pairs (combine_z op) q r) }
    ensures left_unit { join_pairs (combine_z op) (false, unit_z op) p ≡ p }
    ensures right_unit { join_pairs (combine_z op) p (false, unit_z op) ≡ p }
{}

/// The same for truth values.
pub fn pairs_join_b(op: ScanB, p: (bool, bool), q: (bool, bool), r: (bool, bool))
    ensures associative { join_pairs (combine_b op) (join_pairs (combine_b op) p q) r
        ≡ join_pairs (combine_b op) p (join_pairs (combine_b op) q r) }
    ensures left_unit { join_pairs (combine_b op) (false, unit_b op) p ≡ p }
    ensures right_unit { join_pairs (combine_b op) p (false, unit_b op) ≡ p }
{}
