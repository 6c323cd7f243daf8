//! What the shapes of calls ask of their operands together, each with its fault where it does not hold. The tests of second
//! operands and of indices are those that the kernels offer, and their answers are what the kernels want to know.

ghost use Rattle.std.specs.Prelude.{[], ◌≡◌, ◌∷◌, length, sum, true, All, IfOk, OnOk};
ghost use Rattle.std.specs.List.{list_all};
ghost use Rattle.item_operations.specs.IntegerOps.{IsAllowed, IsDivisor, IsShift};
ghost use Rattle.scan_kernels.specs.Indices.{HoldsEachPlaceOnce, IsPlaceOf, LieWithin, PermuteSegments};
ghost use Rattle.cvl_calls.specs.Outcomes.{GivesBy, check};
ghost use Rattle.cvl_calls.specs.Conditions.{has_all, has_each, holds_each_place, is_divisor, is_place, is_shift, lies_within, permutes, same_length, seconds};

use crate::stop::Stop;
use cvl_text::{Fault, Z2};
use permute_kernels::{are_places_by, in_range_by, is_permutation_by, is_whole_permutation_by};
use scan_kernels::{Execution, Meter, divisors_ok, shifts_ok};
use segment_desc::Segd;
use std::alloc::Global;

/// Two vectors are as long as one another.
pub(crate) fn same_length(m: usize, n: usize) -> Result<(), Fault>
    ensures fault { result ≡ same_length m n }
    ensures holds { OnOk result (m ≡ n) }
{
    if m == n {
        Ok(())
    } else {
        Err(Fault::WrongLength)
    }
}

/// The segments have all items together.
pub(crate) fn has_all(segments: &Segd, items: usize) -> Result<(), Fault>
    ensures fault { result ≡ has_all segments.now items }
    ensures holds { OnOk result (sum segments.now ≡ items) }
{
    if segments.total() == items {
        Ok(())
    } else {
        Err(Fault::BadSegments)
    }
}

/// There is a segment for each item.
pub(crate) fn has_each(segments: &Segd, items: usize) -> Result<(), Fault>
    ensures fault { result ≡ has_each segments.now items }
    ensures holds { OnOk result (length segments.now ≡ items) }
{
    if segments.count() == items {
        Ok(())
    } else {
        Err(Fault::BadSegments)
    }
}

/// The operation takes each of the second operands.
pub(crate) fn seconds(op: Z2, ys: &[i64]) -> Result<(), Fault>
    ensures fault { result ≡ seconds op ys.now }
    ensures holds { OnOk result (All (IsAllowed op) ys.now) }
{
    match op {
        Z2::Div => divisors(ys),
        Z2::Mod => divisors(ys),
        Z2::Lsh => shifts(ys),
        Z2::Rsh => shifts(ys),
        Z2::Add => Ok(()),
        Z2::Sub => Ok(()),
        Z2::Mul => Ok(()),
        Z2::Max => Ok(()),
        Z2::Min => Ok(()),
        Z2::And => Ok(()),
        Z2::Ior => Ok(()),
        Z2::Xor => Ok(()),
    }
}

fn divisors(ys: &[i64]) -> Result<(), Fault>
    ensures fault { result ≡ check (list_all is_divisor ys.now) Fault.ZeroDivisor }
    ensures holds { OnOk result (All IsDivisor ys.now) }
{
    if divisors_ok(ys) {
        Ok(())
    } else {
        Err(Fault::ZeroDivisor)
    }
}

fn shifts(ys: &[i64]) -> Result<(), Fault>
    ensures fault { result ≡ check (list_all is_shift ys.now) Fault.BadShift }
    ensures holds { OnOk result (All IsShift ys.now) }
{
    if shifts_ok(ys) {
        Ok(())
    } else {
        Err(Fault::BadShift)
    }
}

/// The index holds each place of each segment once.
pub(crate) fn permutes(
    execution: &impl Execution,
    alloc: Global,
    meter: &Meter,
    places: &[i64],
    segments: &Segd,
) -> Result<(), Stop>
    requires { sum segments.now ≡ length places.now }
    ensures fault { GivesBy true (λ u. u) result (check (permutes segments.now places.now) Fault.BadIndex) }
    ensures holds { OnOk result (PermuteSegments segments.now places.now) }
{
    let each = is_permutation_by(execution, alloc, meter, places, segments)?;
    if each {
        Ok(())
    } else {
        Err(Stop::Fault(Fault::BadIndex))
    }
}

/// The index holds each of its own places once.
pub(crate) fn permutes_whole(
    execution: &impl Execution,
    alloc: Global,
    meter: &Meter,
    places: &[i64],
) -> Result<(), Stop>
    ensures fault { GivesBy true (λ u. u) result (check (holds_each_place places.now) Fault.BadIndex) }
    ensures holds { OnOk result (HoldsEachPlaceOnce places.now) }
{
    let each = is_whole_permutation_by(execution, alloc, meter, places)?;
    if each {
        Ok(())
    } else {
        Err(Stop::Fault(Fault::BadIndex))
    }
}

/// The index holds places of a list of so many items.
pub(crate) fn within(
    execution: &impl Execution,
    meter: &Meter,
    places: &[i64],
    items: usize,
) -> Result<(), Fault>
    ensures fault { result ≡ check (list_all (is_place items) places.now) Fault.BadIndex }
    ensures holds { OnOk result (All (IsPlaceOf items) places.now) }
{
    if are_places_by(execution, meter, places, items) {
        Ok(())
    } else {
        Err(Fault::BadIndex)
    }
}

/// Each segment of the index holds places of the segment of the source that has its number.
pub(crate) fn lies_within(
    execution: &impl Execution,
    meter: &Meter,
    places: &[i64],
    source: &Segd,
    by: &Segd,
) -> Result<(), Fault>
    requires counts { length source.now ≡ length by.now }
    requires total { sum by.now ≡ length places.now }
    ensures fault { result ≡ check (lies_within source.now by.now places.now) Fault.BadIndex }
    ensures holds { OnOk result (LieWithin source.now by.now places.now) }
{
    if in_range_by(execution, meter, places, source, by) {
        Ok(())
    } else {
        Err(Fault::BadIndex)
    }
}
