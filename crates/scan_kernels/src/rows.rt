//! The lists that kernels make, as one type for each kind of item: what an execution policy writes by chunks. Each part of such a
//! list can be written by itself.

ghost use Rattle.std.specs.Prelude.{◌≡◌, ◌+◌, ◌<◌, ◌≤◌, ◌^◌, length, take, drop};
ghost use Rattle.scan_kernels.specs.Lists.{FitBools, FitInts, bools_of, ints_of};

use crate::carries::CarriedOver;
use crate::choices::{by_b1, by_b2, by_comparison, by_name, by_z1, by_z2};
use crate::chunks_marked::ChunksMarked;
use crate::chunks_within::ChunksWithin;
use crate::fills::{Repeated, Rising};
use crate::fills_by_segments::{Distributed, RisingSegments};
use crate::lists::{
    AlteredBools, AlteredInts, AppliedBools, AppliedInts, Compared, Numbers, Selected, Truths,
};
use crate::marks::Marked;
use crate::moves::{Gathered, Permuted};
use crate::moves_by_segments::{GatheredSegments, PermutedSegments};
use crate::packs::PackedWhole;
use crate::packs_by_chunks::Packed;
use crate::placewise::{Placewise, write_from};
use crate::prefixes::{Prefixes, write_prefix_bools, write_prefix_ints};
use crate::reduced_parts::ReducedParts;
use crate::reductions::{
    ReducedBools, ReducedInts, count_reduced_bools, count_reduced_ints, write_reduced_bools,
    write_reduced_ints,
};
use crate::scans_in_parts::{Scanned, write_scanned_bools, write_scanned_ints};
use crate::segmentwise::{Segmentwise, write_segments};
use crate::set_flags::{SetNumbers, count_set_numbers, write_set_numbers};
use item_operations::{B1, B2, Cmp, ScanB, ScanZ, Z1, Z2};

/// Integers that a kernel makes.
#[derive(Clone, Copy)]
pub enum IntRow<'a> {
    Altered(AlteredInts<'a>),
    Applied(AppliedInts<'a>),
    Gathered(Gathered<'a, i64>),
    Numbers(Numbers<'a>),
    Permuted(Permuted<'a, i64>),
    Selected(Selected<'a, i64>),
    Reduced(ReducedInts<'a>),
    ReducedParts(ReducedParts<'a, ScanZ, i64>),
    CarriedOver(CarriedOver<'a, ScanZ, i64>),
    Scanned(Scanned<'a, ScanZ, i64>),
    Prefixes(Prefixes<'a, ScanZ, i64>),
    Repeated(Repeated<i64>),
    Rising(Rising),
    Distributed(Distributed<'a, i64>),
    RisingSegments(RisingSegments<'a>),
    GatheredSegments(GatheredSegments<'a, i64>),
    PermutedSegments(PermutedSegments<'a, i64>),
    SetNumbers(SetNumbers<'a>),
    Packed(Packed<'a, i64>),
    PackedWhole(PackedWhole<'a, i64>),
}

/// How many integers there are.
#[tactic(auto, using(crate::proofs::Placed::paired_long, crate::proofs::Placed::chosen_long, crate::proofs::Carried::scan_long, crate::proofs::Carried::prefixes_long))]
pub fn count_ints(row: IntRow<'_>) -> usize
    requires { FitInts row }
    ensures { result ≡ length (ints_of row.entry) }
{
    match row {
        IntRow::Altered(list) => list.count(),
        IntRow::Applied(list) => list.count(),
        IntRow::Gathered(list) => list.count(),
        IntRow::Numbers(list) => list.count(),
        IntRow::Permuted(list) => list.count(),
        IntRow::Selected(list) => list.count(),
        IntRow::Reduced(list) => count_reduced_ints(list),
        IntRow::ReducedParts(list) => list.count(),
        IntRow::CarriedOver(list) => list.count(),
        IntRow::Scanned(list) => list.count(),
        IntRow::Prefixes(list) => list.count(),
        IntRow::Repeated(list) => list.count(),
        IntRow::Rising(list) => list.count(),
        IntRow::Distributed(list) => list.count(),
        IntRow::RisingSegments(list) => list.count(),
        IntRow::GatheredSegments(list) => list.count(),
        IntRow::PermutedSegments(list) => list.count(),
        IntRow::SetNumbers(list) => count_set_numbers(list),
        IntRow::Packed(list) => list.count(),
        IntRow::PackedWhole(list) => list.count(),
    }
}

/// Writes the integers from a place on, as many as the part has.
#[tactic(auto, using(crate::proofs::Carried::scan_long, crate::proofs::Carried::prefixes_long))]
pub fn write_ints(row: IntRow<'_>, start: usize, part: &mut [i64])
    requires fits { FitInts row }
    requires within { start + length part.old ≤ length (ints_of row) }
    requires small { start + length part.old < 2 ^ 64 }
    ensures { part.new ≡ take (length part.old) (drop start (ints_of row.entry)) }
{
    match row {
        IntRow::Altered(list) => write_altered_ints(list, start, part),
        IntRow::Applied(list) => write_applied_ints(list, start, part),
        IntRow::Gathered(list) => write_from(&list, start, part),
        IntRow::Numbers(list) => write_from(&list, start, part),
        IntRow::Permuted(list) => list.write(start, part),
        IntRow::Selected(list) => write_from(&list, start, part),
        IntRow::Reduced(list) => write_reduced_ints(list, start, part),
        IntRow::ReducedParts(list) => write_from(&list, start, part),
        IntRow::CarriedOver(list) => write_from(&list, start, part),
        IntRow::Scanned(list) => write_scanned_ints(list, start, part),
        IntRow::Prefixes(list) => write_prefix_ints(list, start, part),
        IntRow::Repeated(list) => write_from(&list, start, part),
        IntRow::Rising(list) => write_from(&list, start, part),
        IntRow::Distributed(list) => write_segments(&list, start, part),
        IntRow::RisingSegments(list) => write_segments(&list, start, part),
        IntRow::GatheredSegments(list) => write_segments(&list, start, part),
        IntRow::PermutedSegments(list) => write_segments(&list, start, part),
        IntRow::SetNumbers(list) => write_set_numbers(list, start, part),
        IntRow::Packed(list) => write_segments(&list, start, part),
        IntRow::PackedWhole(list) => list.write(start, part),
    }
}

fn write_altered_ints(list: AlteredInts<'_>, start: usize, part: &mut [i64])
    requires within { start + length part.old ≤ length (ints_of (IntRow.Altered list)) }
    requires small { start + length part.old < 2 ^ 64 }
    ensures { part.new ≡ take (length part.old) (drop start (ints_of (IntRow.Altered list.entry))) }
{
    let AlteredInts { op, items } = list;
    by_z1!(op, write_from(&AlteredInts { op, items }, start, part))
}

fn write_applied_ints(list: AppliedInts<'_>, start: usize, part: &mut [i64])
    requires fits { FitInts (IntRow.Applied list) }
    requires within { start + length part.old ≤ length (ints_of (IntRow.Applied list)) }
    requires small { start + length part.old < 2 ^ 64 }
    ensures { part.new ≡ take (length part.old) (drop start (ints_of (IntRow.Applied list.entry))) }
{
    let AppliedInts { op, left, right } = list;
    by_z2!(
        op,
        write_from(&AppliedInts { op, left, right }, start, part)
    )
}

/// Truth values that a kernel makes.
#[derive(Clone, Copy)]
pub enum BoolRow<'a> {
    Altered(AlteredBools<'a>),
    Applied(AppliedBools<'a>),
    Compared(Compared<'a>),
    Gathered(Gathered<'a, bool>),
    Permuted(Permuted<'a, bool>),
    Truths(Truths<'a>),
    Selected(Selected<'a, bool>),
    Reduced(ReducedBools<'a>),
    ReducedParts(ReducedParts<'a, ScanB, bool>),
    CarriedOver(CarriedOver<'a, ScanB, bool>),
    Scanned(Scanned<'a, ScanB, bool>),
    Prefixes(Prefixes<'a, ScanB, bool>),
    Repeated(Repeated<bool>),
    Distributed(Distributed<'a, bool>),
    GatheredSegments(GatheredSegments<'a, bool>),
    PermutedSegments(PermutedSegments<'a, bool>),
    Packed(Packed<'a, bool>),
    PackedWhole(PackedWhole<'a, bool>),
    Marked(Marked<'a>),
    ChunksMarked(ChunksMarked<'a>),
    ChunksWithin(ChunksWithin<'a>),
}

/// How many truth values there are.
#[tactic(auto, using(crate::proofs::Placed::paired_long, crate::proofs::Placed::chosen_long, crate::proofs::Carried::scan_long, crate::proofs::Carried::prefixes_long))]
pub fn count_bools(row: BoolRow<'_>) -> usize
    requires { FitBools row }
    ensures { result ≡ length (bools_of row.entry) }
{
    match row {
        BoolRow::Altered(list) => list.count(),
        BoolRow::Applied(list) => list.count(),
        BoolRow::Compared(list) => list.count(),
        BoolRow::Gathered(list) => list.count(),
        BoolRow::Permuted(list) => list.count(),
        BoolRow::Truths(list) => list.count(),
        BoolRow::Selected(list) => list.count(),
        BoolRow::Reduced(list) => count_reduced_bools(list),
        BoolRow::ReducedParts(list) => list.count(),
        BoolRow::CarriedOver(list) => list.count(),
        BoolRow::Scanned(list) => list.count(),
        BoolRow::Prefixes(list) => list.count(),
        BoolRow::Repeated(list) => list.count(),
        BoolRow::Distributed(list) => list.count(),
        BoolRow::GatheredSegments(list) => list.count(),
        BoolRow::PermutedSegments(list) => list.count(),
        BoolRow::Packed(list) => list.count(),
        BoolRow::PackedWhole(list) => list.count(),
        BoolRow::Marked(list) => list.count(),
        BoolRow::ChunksMarked(list) => list.count(),
        BoolRow::ChunksWithin(list) => list.count(),
    }
}

/// Writes the truth values from a place on, as many as the part has.
#[tactic(auto, using(crate::proofs::Carried::scan_long, crate::proofs::Carried::prefixes_long))]
pub fn write_bools(row: BoolRow<'_>, start: usize, part: &mut [bool])
    requires fits { FitBools row }
    requires within { start + length part.old ≤ length (bools_of row) }
    requires small { start + length part.old < 2 ^ 64 }
    ensures { part.new ≡ take (length part.old) (drop start (bools_of row.entry)) }
{
    match row {
        BoolRow::Altered(list) => write_altered_bools(list, start, part),
        BoolRow::Applied(list) => write_applied_bools(list, start, part),
        BoolRow::Compared(list) => write_compared(list, start, part),
        BoolRow::Gathered(list) => write_from(&list, start, part),
        BoolRow::Permuted(list) => list.write(start, part),
        BoolRow::Truths(list) => write_from(&list, start, part),
        BoolRow::Selected(list) => write_from(&list, start, part),
        BoolRow::Reduced(list) => write_reduced_bools(list, start, part),
        BoolRow::ReducedParts(list) => write_from(&list, start, part),
        BoolRow::CarriedOver(list) => write_from(&list, start, part),
        BoolRow::Scanned(list) => write_scanned_bools(list, start, part),
        BoolRow::Prefixes(list) => write_prefix_bools(list, start, part),
        BoolRow::Repeated(list) => write_from(&list, start, part),
        BoolRow::Distributed(list) => write_segments(&list, start, part),
        BoolRow::GatheredSegments(list) => write_segments(&list, start, part),
        BoolRow::PermutedSegments(list) => write_segments(&list, start, part),
        BoolRow::Packed(list) => write_segments(&list, start, part),
        BoolRow::PackedWhole(list) => list.write(start, part),
        BoolRow::Marked(list) => write_segments(&list, start, part),
        BoolRow::ChunksMarked(list) => write_from(&list, start, part),
        BoolRow::ChunksWithin(list) => write_from(&list, start, part),
    }
}

fn write_altered_bools(list: AlteredBools<'_>, start: usize, part: &mut [bool])
    requires within { start + length part.old ≤ length (bools_of (BoolRow.Altered list)) }
    requires small { start + length part.old < 2 ^ 64 }
    ensures { part.new ≡ take (length part.old) (drop start (bools_of (BoolRow.Altered list.entry))) }
{
    let AlteredBools { op, items } = list;
    by_b1!(op, write_from(&AlteredBools { op, items }, start, part))
}

fn write_applied_bools(list: AppliedBools<'_>, start: usize, part: &mut [bool])
    requires fits { FitBools (BoolRow.Applied list) }
    requires within { start + length part.old ≤ length (bools_of (BoolRow.Applied list)) }
    requires small { start + length part.old < 2 ^ 64 }
    ensures { part.new ≡ take (length part.old) (drop start (bools_of (BoolRow.Applied list.entry))) }
{
    let AppliedBools { op, left, right } = list;
    by_b2!(
        op,
        write_from(&AppliedBools { op, left, right }, start, part)
    )
}

fn write_compared(list: Compared<'_>, start: usize, part: &mut [bool])
    requires fits { FitBools (BoolRow.Compared list) }
    requires within { start + length part.old ≤ length (bools_of (BoolRow.Compared list)) }
    requires small { start + length part.old < 2 ^ 64 }
    ensures { part.new ≡ take (length part.old) (drop start (bools_of (BoolRow.Compared list.entry))) }
{
    let Compared { op, left, right } = list;
    by_comparison!(op, write_from(&Compared { op, left, right }, start, part))
}
