//! What is made of a call in which no fault was found.

ghost use Rattle.std.specs.Prelude.{◌≡◌, IfOk, IsOk};
ghost use Rattle.cvl_calls.specs.Judging.{IsReady, made, word_of};
ghost use Rattle.cvl_calls.specs.Outcomes.{Counts, effect_of};
ghost use Rattle.cvl_calls.specs.Runs.{TakesNoMemory, runs_kernel};

use crate::judged::Judged;
use crate::kernels::*;
use crate::plain::*;
use crate::product::Product;
use crate::spare::Spare;
use crate::stored::{stored_bools, stored_ints};
use cvl_text::Reply;
use permute_kernels::packed_lengths;
use scan_kernels::{
    Execution, Meter, compare2, index, index_whole, map1_b, map1_z, map2_b, map2_z, number,
    reduce_b, reduce_whole_b, reduce_whole_z, reduce_z, repeat_b, repeat_z, scan_b, scan_whole_b,
    scan_whole_z, scan_z, select_b, select_z, truth,
};
use segment_desc::OutOfMemory;
use std::alloc::Global;

/// Makes what is left to be done of a call: one kernel run, by which the meter rises, or a copy or an answer without one.
pub fn run(
    execution: &impl Execution,
    alloc: Global,
    meter: &mut Meter,
    judged: Judged<'_>,
) -> Result<Product, OutOfMemory>
    requires { IsReady judged }
    ensures makes { IfOk result (λ product. effect_of product ≡ made judged.entry) }
    ensures counted { Counts (runs_kernel (word_of judged.entry)) result meter.old meter.new }
    ensures answered { TakesNoMemory (word_of judged.entry) → IsOk result }
{
    run_with(execution, alloc, meter, &mut Spare::new(alloc), judged)
}

/// `run`, and the result of a kernel takes a vector that was kept, if that is as large as it must be and no larger.
pub fn run_with(
    execution: &impl Execution,
    alloc: Global,
    meter: &mut Meter,
    spare: &mut Spare,
    judged: Judged<'_>,
) -> Result<Product, OutOfMemory>
    requires { IsReady judged }
    ensures makes { IfOk result (λ product. effect_of product ≡ made judged.entry) }
    ensures counted { Counts (runs_kernel (word_of judged.entry)) result meter.old meter.new }
    ensures answered { TakesNoMemory (word_of judged.entry) → IsOk result }
{
    match judged {
        Judged::SetInts(xs) => copied_ints(spare, xs),
        Judged::SetBools(xs) => copied_bools(spare, xs),
        Judged::Get(value) => replied(value),
        Judged::Mov(value) => copied(value),
        Judged::Free => Ok(Product::Free),
        Judged::Alo(count) => zeros(alloc, count),
        Judged::Len(count) => Ok(Product::Reply(Reply::Int(count))),
        Judged::MakeSegs(lengths, total) => segments_of(alloc, lengths, total),
        Judged::LenSegs(segments) => lengths_of(alloc, segments),
        Judged::MapInts(op, xs, ys) => stored_ints(map2_z(execution, spare, meter, op, xs, ys)),
        Judged::Compare(op, xs, ys) => stored_bools(compare2(execution, spare, meter, op, xs, ys)),
        Judged::MapBools(op, xs, ys) => stored_bools(map2_b(execution, spare, meter, op, xs, ys)),
        Judged::AlterInts(op, xs) => stored_ints(map1_z(execution, spare, meter, op, xs)),
        Judged::AlterBools(op, xs) => stored_bools(map1_b(execution, spare, meter, op, xs)),
        Judged::TruthsOf(xs) => stored_bools(truth(execution, spare, meter, xs)),
        Judged::NumbersOf(xs) => stored_ints(number(execution, spare, meter, xs)),
        Judged::SelectInts(flags, xs, ys) => stored_ints(select_z(
            execution, spare, meter, flags, xs, ys,
        )),
        Judged::SelectBools(flags, xs, ys) => stored_bools(select_b(
            execution, spare, meter, flags, xs, ys,
        )),
        Judged::ScanInts(op, xs) => stored_ints(scan_whole_z(execution, spare, meter, op, xs)),
        Judged::ScanIntSegments(op, xs, segments) => stored_ints(scan_z(
            execution, spare, meter, op, xs, segments,
        )),
        Judged::ScanBools(op, xs) => stored_bools(scan_whole_b(execution, spare, meter, op, xs)),
        Judged::ScanBoolSegments(op, xs, segments) => stored_bools(scan_b(
            execution, spare, meter, op, xs, segments,
        )),
        Judged::ReduceInts(op, xs) => Ok(Product::Reply(Reply::Int(reduce_whole_z(
            execution, meter, op, xs,
        )))),
        Judged::ReduceBools(op, xs) => Ok(Product::Reply(Reply::Bool(reduce_whole_b(
            execution, meter, op, xs,
        )))),
        Judged::ReduceIntSegments(op, xs, segments) => stored_ints(reduce_z(
            execution, spare, meter, op, xs, segments,
        )),
        Judged::ReduceBoolSegments(op, xs, segments) => stored_bools(reduce_b(
            execution, spare, meter, op, xs, segments,
        )),
        Judged::RepeatInt(x, count) => stored_ints(repeat_z(execution, spare, meter, x, count)),
        Judged::RepeatBool(x, count) => stored_bools(repeat_b(execution, spare, meter, x, count)),
        Judged::Distribute(items, segments) => distributed(
            execution, spare, meter, items, segments,
        ),
        Judged::Index(start, stride, count) => stored_ints(index_whole(
            execution, spare, meter, start, stride, count,
        )),
        Judged::IndexSegments(starts, strides, segments) => stored_ints(index(
            execution, spare, meter, starts, strides, segments,
        )),
        Judged::Permute(items, places) => permuted(execution, spare, meter, items, places),
        Judged::PermuteSegments(items, places, segments) => permuted_segments(
            execution, spare, meter, items, places, segments,
        ),
        Judged::Gather(items, places) => gathered(execution, spare, meter, items, places),
        Judged::GatherSegments(items, source, places, by) => gathered_segments(
            execution, spare, meter, items, source, places, by,
        ),
        Judged::Pack(items, flags) => packed(execution, spare, meter, items, flags),
        Judged::PackSegments(items, flags, segments) => packed_segments(
            execution, spare, meter, items, flags, segments,
        ),
        Judged::PackLengths(flags, segments) => stored_ints(packed_lengths(
            execution, spare, meter, flags, segments,
        )),
        Judged::Ext(x) => Ok(Product::Reply(Reply::Int(x))),
        Judged::Rep(xs, place, x) => replaced(spare, xs, place, x),
    }
}
