//! The kernels that are timed, and over which segments.

use crate::inputs::Inputs;
use crate::runs::{
    Failure, run_add, run_distribute, run_gather, run_in_range, run_index, run_is_permutation,
    run_pack, run_reduce, run_scan, run_scatter,
};
use scan_kernels::{Execution, Meter};
use std::alloc::Global;
use std::thread::Threads;

/// A kernel over one of the inputs.
#[derive(Clone, Copy)]
pub enum Case {
    Add,
    Scan,
    SegmentedScan,
    SegmentedReduce,
    Distribute,
    Index,
    SingleScan,
    SingleReduce,
    SingleDistribute,
    SingleIndex,
    Gather,
    Scatter,
    IsPermutation,
    InRange,
    Pack,
    PackAll,
    PackNone,
}

/// In the order of the rows.
pub const CASES: [Case; 17] = [
    Case::Add,
    Case::Scan,
    Case::SegmentedScan,
    Case::SegmentedReduce,
    Case::Distribute,
    Case::Index,
    Case::SingleScan,
    Case::SingleReduce,
    Case::SingleDistribute,
    Case::SingleIndex,
    Case::Gather,
    Case::Scatter,
    Case::IsPermutation,
    Case::InRange,
    Case::Pack,
    Case::PackAll,
    Case::PackNone,
];

impl Case {
    /// The name of the row.
    pub fn name(self) -> &'static str {
        match self {
            Case::Add => "add",
            Case::Scan => "scan",
            Case::SegmentedScan => "segscan",
            Case::SegmentedReduce => "segreduce",
            Case::Distribute => "distribute",
            Case::Index => "index",
            Case::SingleScan => "segscan-of-1",
            Case::SingleReduce => "segreduce-of-1",
            Case::SingleDistribute => "distribute-of-1",
            Case::SingleIndex => "index-of-1",
            Case::Gather => "gather",
            Case::Scatter => "scatter",
            Case::IsPermutation => "is-permutation",
            Case::InRange => "in-range",
            Case::Pack => "pack",
            Case::PackAll => "pack-all",
            Case::PackNone => "pack-none",
        }
    }

    /// One run of the kernel.
    pub fn run<R: Alloc<A = Global> + Threads + Execution<Shared = R> + Sync>(
        self,
        rt: &R,
        meter: &mut Meter,
        inputs: &Inputs,
    ) -> Result<Vec<i64>, Failure> {
        let left = &inputs.left;
        let right = &inputs.right;
        match self {
            Case::Add => run_add(rt, meter, left, right),
            Case::Scan => run_scan(rt, meter, left, &inputs.whole),
            Case::SegmentedScan => run_scan(rt, meter, left, &inputs.mixed),
            Case::SegmentedReduce => run_reduce(rt, meter, left, &inputs.mixed),
            Case::Distribute => run_distribute(rt, meter, left, &inputs.mixed),
            Case::Index => run_index(rt, meter, left, right, &inputs.mixed),
            Case::SingleScan => run_scan(rt, meter, left, &inputs.single),
            Case::SingleReduce => run_reduce(rt, meter, left, &inputs.single),
            Case::SingleDistribute => run_distribute(rt, meter, left, &inputs.single),
            Case::SingleIndex => run_index(rt, meter, left, right, &inputs.single),
            Case::Gather => run_gather(rt, meter, left, &inputs.index, &inputs.whole),
            Case::Scatter => run_scatter(rt, meter, left, &inputs.index, &inputs.whole),
            Case::IsPermutation => run_is_permutation(rt, &inputs.index, &inputs.whole),
            Case::InRange => run_in_range(rt, &inputs.index, &inputs.whole),
            Case::Pack => run_pack(rt, meter, left, &inputs.flags),
            Case::PackAll => run_pack(rt, meter, left, &inputs.all),
            Case::PackNone => run_pack(rt, meter, left, &inputs.none),
        }
    }
}
