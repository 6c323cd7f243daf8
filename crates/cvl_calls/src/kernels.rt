//! Kernels over what a call lends: the items of either type, and one segment where no segment list is named.
//! Most are inlined: out of line each has a place for its answer in the frame of `run`, which is cleared at each call.

ghost use Rattle.std.specs.Prelude.{[], ◌≡◌, ◌∷◌, IfOk};
ghost use Rattle.scan_kernels.specs.Metering.{CountsRun};
ghost use Rattle.cvl_calls.specs.Judging.{IsReady, made};
ghost use Rattle.cvl_calls.specs.Outcomes.{effect_of};

use crate::judged::Judged;
use crate::operands::Vector;
use crate::product::Product;
use crate::spare::Spare;
use crate::stored::{stored_bools, stored_ints};
use permute_kernels::{
    back_permute_b, back_permute_z, gather_b, gather_z, pack_b, pack_z, permute_b, permute_whole_b,
    permute_whole_z, permute_z,
};
use scan_kernels::{Execution, Meter, distribute_b, distribute_z};
use segment_desc::{OutOfMemory, Segd};

/// Each item as often as its segment is long.
#[inline(always)]
pub(crate) fn distributed(
    execution: &impl Execution,
    spare: &mut Spare,
    meter: &mut Meter,
    items: Vector<'_>,
    segments: &Segd,
) -> Result<Product, OutOfMemory>
    requires { IsReady (Judged.Distribute items segments) }
    ensures makes { IfOk result (λ product. effect_of product ≡ made (Judged.Distribute items.entry segments.entry)) }
    ensures counted { CountsRun result meter.old meter.new }
{
    match items {
        Vector::Ints(xs) => stored_ints(distribute_z(execution, spare, meter, xs, segments)),
        Vector::Bools(xs) => stored_bools(distribute_b(execution, spare, meter, xs, segments)),
    }
}

/// Each item at the place that the index holds beside it, in its segment.
pub(crate) fn permuted_segments(
    execution: &impl Execution,
    spare: &mut Spare,
    meter: &mut Meter,
    items: Vector<'_>,
    places: &[i64],
    segments: &Segd,
) -> Result<Product, OutOfMemory>
    requires { IsReady (Judged.PermuteSegments items places segments) }
    ensures makes { IfOk result (λ product. effect_of product ≡ made (Judged.PermuteSegments items.entry places.entry segments.entry)) }
    ensures counted { CountsRun result meter.old meter.new }
{
    match items {
        Vector::Ints(xs) => stored_ints(permute_z(execution, spare, meter, xs, places, segments)),
        Vector::Bools(xs) => stored_bools(permute_b(execution, spare, meter, xs, places, segments)),
    }
}

/// Each item at the place that the index holds beside it.
pub(crate) fn permuted(
    execution: &impl Execution,
    spare: &mut Spare,
    meter: &mut Meter,
    items: Vector<'_>,
    places: &[i64],
) -> Result<Product, OutOfMemory>
    requires { IsReady (Judged.Permute items places) }
    ensures makes { IfOk result (λ product. effect_of product ≡ made (Judged.Permute items.entry places.entry)) }
    ensures counted { CountsRun result meter.old meter.new }
{
    match items {
        Vector::Ints(xs) => stored_ints(permute_whole_z(execution, spare, meter, xs, places)),
        Vector::Bools(xs) => stored_bools(permute_whole_b(execution, spare, meter, xs, places)),
    }
}

/// For each index the item at its place, in the segment of the source that has the index's number.
#[inline(always)]
pub(crate) fn gathered_segments(
    execution: &impl Execution,
    spare: &mut Spare,
    meter: &mut Meter,
    items: Vector<'_>,
    source: &Segd,
    places: &[i64],
    by: &Segd,
) -> Result<Product, OutOfMemory>
    requires { IsReady (Judged.GatherSegments items source places by) }
    ensures makes { IfOk result (λ product. effect_of product ≡ made (Judged.GatherSegments items.entry source.entry places.entry by.entry)) }
    ensures counted { CountsRun result meter.old meter.new }
{
    match items {
        Vector::Ints(xs) => stored_ints(back_permute_z(
            execution, spare, meter, xs, source, places, by,
        )),
        Vector::Bools(xs) => stored_bools(back_permute_b(
            execution, spare, meter, xs, source, places, by,
        )),
    }
}

/// For each index the item at its place.
pub(crate) fn gathered(
    execution: &impl Execution,
    spare: &mut Spare,
    meter: &mut Meter,
    items: Vector<'_>,
    places: &[i64],
) -> Result<Product, OutOfMemory>
    requires { IsReady (Judged.Gather items places) }
    ensures makes { IfOk result (λ product. effect_of product ≡ made (Judged.Gather items.entry places.entry)) }
    ensures counted { CountsRun result meter.old meter.new }
{
    match items {
        Vector::Ints(xs) => stored_ints(gather_z(execution, spare, meter, xs, places)),
        Vector::Bools(xs) => stored_bools(gather_b(execution, spare, meter, xs, places)),
    }
}

/// The items whose flag is set, in order.
#[inline(always)]
pub(crate) fn packed(
    execution: &impl Execution,
    spare: &mut Spare,
    meter: &mut Meter,
    items: Vector<'_>,
    flags: &[bool],
) -> Result<Product, OutOfMemory>
    requires { IsReady (Judged.Pack items flags) }
    ensures makes { IfOk result (λ product. effect_of product ≡ made (Judged.Pack items.entry flags.entry)) }
    ensures counted { CountsRun result meter.old meter.new }
{
    match items {
        Vector::Ints(xs) => stored_ints(pack_z(execution, spare, meter, xs, flags)),
        Vector::Bools(xs) => stored_bools(pack_b(execution, spare, meter, xs, flags)),
    }
}

/// The same where segments have all items: the packed segments, joined, are the pack of all items.
#[inline(always)]
pub(crate) fn packed_segments(
    execution: &impl Execution,
    spare: &mut Spare,
    meter: &mut Meter,
    items: Vector<'_>,
    flags: &[bool],
    segments: &Segd,
) -> Result<Product, OutOfMemory>
    requires { IsReady (Judged.PackSegments items flags segments) }
    ensures makes { IfOk result (λ product. effect_of product ≡ made (Judged.PackSegments items.entry flags.entry segments.entry)) }
    ensures counted { CountsRun result meter.old meter.new }
{
    packed(execution, spare, meter, items, flags)
}
