//! Each kernel as a value on operands that lie in parts, some of them empty or with empty segments: one run is counted for all
//! parts.

ghost use Rattle.std.specs.Prelude.{◌≡◌, length, sum, All};
ghost use Rattle.item_operations.specs.IntegerOps.{IsAllowed};

mod elementwise;
mod segments;
mod shelves;
mod wholes;

use scan_kernels::{Z2, divisors_ok};
use segment_desc::Segd;
use std::process::Abort;

/// Asserts that the two vectors of each part have the same length.
fn assert_paired<T>(rt: &impl Abort, parts: &[(&[T], &[T])])
    ensures { All (λ p. length p.0.now ≡ length p.1.now) parts.now }
{
    for part in parts {
        assert!(rt; part.0.len() == part.1.len());
    }
}

/// Asserts that the first vector of each part can be divided by the second.
fn assert_divisible(rt: &impl Abort, parts: &[(&[i64], &[i64])])
    ensures { All (λ p. (length p.0.now ≡ length p.1.now) × All (IsAllowed Z2.Div) p.1.now) parts.now }
{
    for part in parts {
        assert!(rt; part.0.len() == part.1.len());
        assert!(rt; divisors_ok(part.1));
    }
}

/// Asserts that each part has as many flags as items in each of its vectors.
fn assert_choices<T>(rt: &impl Abort, parts: &[(&[bool], &[T], &[T])])
    ensures { All (λ p. (length p.0.now ≡ length p.1.now) × (length p.0.now ≡ length p.2.now)) parts.now }
{
    for part in parts {
        assert!(rt; part.0.len() == part.1.len());
        assert!(rt; part.0.len() == part.2.len());
    }
}

/// Asserts that the segments of each part have all its items.
fn assert_totals<T>(rt: &impl Abort, parts: &[(&[T], &Segd)])
    ensures { All (λ p. sum p.1.now ≡ length p.0.now) parts.now }
{
    for part in parts {
        assert!(rt; part.1.total() == part.0.len());
    }
}

/// Asserts that each part has a value for each segment.
fn assert_counts<T>(rt: &impl Abort, parts: &[(&[T], &Segd)])
    ensures { All (λ p. length p.1.now ≡ length p.0.now) parts.now }
{
    for part in parts {
        assert!(rt; part.1.count() == part.0.len());
    }
}

/// Asserts that each part has a start and a stride for each segment.
fn assert_starts(rt: &impl Abort, parts: &[(&[i64], &[i64], &Segd)])
    ensures { All (λ p. (length p.2.now ≡ length p.0.now) × (length p.2.now ≡ length p.1.now)) parts.now }
{
    for part in parts {
        assert!(rt; part.2.count() == part.0.len());
        assert!(rt; part.2.count() == part.1.len());
    }
}
