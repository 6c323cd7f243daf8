//! The rows of kernels in chunks: each kernel into fresh memory and over a vector that was kept, and each test of an index, in one
//! thread and by a runtime with threads, whose processors were counted. The ways take turns of a few runs, of which the first are not
//! timed, and of each the least time counts.

use crate::inputs::Inputs;
use crate::runs::Failure;
use permute_kernels::{
    are_places_by, back_permute_z, gather_z, in_range_by, is_permutation_by,
    is_whole_permutation_by, pack_z, permute_whole_z, permute_z,
};
use scan_kernels::{
    Execution, Kept, Meter, ScanZ, Sequential, Z2, distribute_z, index_whole, map2_z,
    reduce_whole_z, reduce_z, scan_whole_z, scan_z, select_z,
};
use segment_desc::{LIMIT, Segd};
use std::alloc::Global;
use std::rt::Clock;
use std::time::Instant;
use std::{io, mem};

/// How many items the vectors have.
const SIZES: [u32; 6] = [65_536, 131_072, 262_144, 524_288, 1_000_000, 16_000_000];

/// How many turns each way has.
const TURNS: u32 = 5;

/// How many runs a turn has that are timed.
const IN_A_ROW: u32 = 6;

/// How many runs come before those. One thread is faster than by itself where it comes first behind threads, over a million items by
/// up to a third: perhaps since these leave the operands in the caches of all processors.
const NOT_TIMED: u32 = 3;

/// A kernel over one of the inputs, or a test of an index.
#[derive(Clone, Copy)]
enum Row {
    Add,
    Select,
    Scan,
    SegmentedScan,
    Reduce,
    SegmentedReduce,
    Gather,
    SegmentedGather,
    Permute,
    SegmentedPermute,
    Pack,
    Distribute,
    Index,
    Permutation,
    SegmentedPermutation,
    Places,
    SegmentedPlaces,
}

/// In the order of the rows.
const ROWS: [Row; 17] = [
    Row::Add,
    Row::Select,
    Row::Scan,
    Row::SegmentedScan,
    Row::Reduce,
    Row::SegmentedReduce,
    Row::Gather,
    Row::SegmentedGather,
    Row::Permute,
    Row::SegmentedPermute,
    Row::Pack,
    Row::Distribute,
    Row::Index,
    Row::Permutation,
    Row::SegmentedPermutation,
    Row::Places,
    Row::SegmentedPlaces,
];

impl Row {
    fn name(self) -> &'static str {
        match self {
            Row::Add => "add",
            Row::Select => "select",
            Row::Scan => "scan",
            Row::SegmentedScan => "segscan",
            Row::Reduce => "reduce",
            Row::SegmentedReduce => "segreduce",
            Row::Gather => "gather",
            Row::SegmentedGather => "seggather",
            Row::Permute => "permute",
            Row::SegmentedPermute => "segpermute",
            Row::Pack => "pack",
            Row::Distribute => "distribute",
            Row::Index => "index",
            Row::Permutation => "permutation",
            Row::SegmentedPermutation => "segpermutation",
            Row::Places => "places",
            Row::SegmentedPlaces => "segplaces",
        }
    }

    /// Where it puts what it makes; a test makes nothing, and is timed once.
    fn memory(self, fresh: bool) -> Option<&'static str> {
        match self {
            Row::Permutation | Row::SegmentedPermutation | Row::Places | Row::SegmentedPlaces => {
                if fresh { None } else { Some("test") }
            }
            _ => Some(if fresh { "fresh" } else { "kept" }),
        }
    }

    /// One run, whose result lies where the last one lay.
    fn run(
        self,
        execution: &impl Execution,
        meter: &mut Meter,
        inputs: &Inputs,
        kept: Vec<i64>,
    ) -> Result<Vec<i64>, Failure> {
        let (items, flags) = (inputs.left.as_slice(), inputs.flags.as_slice());
        match self {
            Row::Add => add(execution, meter, items, &inputs.right, kept),
            Row::Select => select(execution, meter, flags, items, &inputs.right, kept),
            Row::Scan => Ok(scan_whole_z(execution, Kept::new(kept), meter, ScanZ::Add, items)?),
            Row::SegmentedScan => scan(execution, meter, items, &inputs.mixed, kept),
            Row::Reduce => {
                // A sum that nobody reads is not made.
                match reduce_whole_z(execution, meter, ScanZ::Add, items) {
                    0 => Err(Failure::Uneven),
                    _ => Ok(kept),
                }
            }
            Row::SegmentedReduce => reduce(execution, meter, items, &inputs.mixed, kept),
            Row::Gather => gather(execution, meter, items, &inputs.index, kept),
            Row::SegmentedGather => gather_within(execution, meter, items, inputs, kept),
            Row::Permute => permute(execution, meter, items, &inputs.index, kept),
            Row::SegmentedPermute => permute_within(execution, meter, items, inputs, kept),
            Row::Pack => pack(execution, meter, items, flags, kept),
            Row::Distribute => distribute(execution, meter, items, &inputs.mixed, kept),
            Row::Index => index(execution, meter, items.len(), kept),
            Row::Permutation => {
                let alloc = *kept.allocator();
                passed(
                    is_whole_permutation_by(execution, alloc, meter, &inputs.index)?,
                    kept,
                )
            }
            Row::SegmentedPermutation => permutes(
                execution,
                meter,
                &inputs.inner,
                &inputs.mixed,
                kept,
            ),
            Row::Places => passed(
                are_places_by(execution, meter, &inputs.index, items.len()),
                kept,
            ),
            Row::SegmentedPlaces => lie_within(
                execution,
                meter,
                &inputs.inner,
                &inputs.mixed,
                kept,
            ),
        }
    }
}

fn add(
    execution: &impl Execution,
    meter: &mut Meter,
    left: &[i64],
    right: &[i64],
    kept: Vec<i64>,
) -> Result<Vec<i64>, Failure> {
    if left.len() != right.len() {
        return Err(Failure::Uneven);
    }
    Ok(map2_z(execution, Kept::new(kept), meter, Z2::Add, left, right)?)
}

fn select(
    execution: &impl Execution,
    meter: &mut Meter,
    flags: &[bool],
    set: &[i64],
    unset: &[i64],
    kept: Vec<i64>,
) -> Result<Vec<i64>, Failure> {
    if flags.len() != set.len() || flags.len() != unset.len() {
        return Err(Failure::Uneven);
    }
    Ok(select_z(execution, Kept::new(kept), meter, flags, set, unset)?)
}

fn scan(
    execution: &impl Execution,
    meter: &mut Meter,
    items: &[i64],
    segments: &Segd,
    kept: Vec<i64>,
) -> Result<Vec<i64>, Failure> {
    if segments.total() != items.len() {
        return Err(Failure::Uneven);
    }
    Ok(scan_z(
        execution,
        Kept::new(kept),
        meter,
        ScanZ::Add,
        items,
        segments,
    )?)
}

fn reduce(
    execution: &impl Execution,
    meter: &mut Meter,
    items: &[i64],
    segments: &Segd,
    kept: Vec<i64>,
) -> Result<Vec<i64>, Failure> {
    if segments.total() != items.len() {
        return Err(Failure::Uneven);
    }
    Ok(reduce_z(
        execution,
        Kept::new(kept),
        meter,
        ScanZ::Add,
        items,
        segments,
    )?)
}

// With the test of its index, as a call makes it.
fn gather(
    execution: &impl Execution,
    meter: &mut Meter,
    items: &[i64],
    index: &[i64],
    kept: Vec<i64>,
) -> Result<Vec<i64>, Failure> {
    if !are_places_by(execution, meter, index, items.len()) {
        return Err(Failure::Uneven);
    }
    Ok(gather_z(execution, Kept::new(kept), meter, items, index)?)
}

// With the test of its index, as a call makes it.
fn gather_within(
    execution: &impl Execution,
    meter: &mut Meter,
    items: &[i64],
    inputs: &Inputs,
    kept: Vec<i64>,
) -> Result<Vec<i64>, Failure> {
    let (index, segments) = (inputs.inner.as_slice(), &inputs.mixed);
    if segments.total() != items.len()
        || segments.total() != index.len()
        || !in_range_by(execution, meter, index, segments, segments)
    {
        return Err(Failure::Uneven);
    }
    Ok(back_permute_z(
        execution,
        Kept::new(kept),
        meter,
        items,
        segments,
        index,
        segments,
    )?)
}

// With the test of its index, as a call makes it.
fn permute(
    execution: &impl Execution,
    meter: &mut Meter,
    items: &[i64],
    index: &[i64],
    kept: Vec<i64>,
) -> Result<Vec<i64>, Failure> {
    let permutes = is_whole_permutation_by(execution, *kept.allocator(), meter, index)?;
    if !permutes || index.len() != items.len() {
        return Err(Failure::Uneven);
    }
    Ok(permute_whole_z(execution, Kept::new(kept), meter, items, index)?)
}

// With the test of its index, as a call makes it.
fn permute_within(
    execution: &impl Execution,
    meter: &mut Meter,
    items: &[i64],
    inputs: &Inputs,
    kept: Vec<i64>,
) -> Result<Vec<i64>, Failure> {
    let (index, segments) = (inputs.inner.as_slice(), &inputs.mixed);
    if index.len() != items.len()
        || segments.total() != index.len()
        || !is_permutation_by(execution, *kept.allocator(), meter, index, segments)?
    {
        return Err(Failure::Uneven);
    }
    Ok(permute_z(execution, Kept::new(kept), meter, items, index, segments)?)
}

fn pack(
    execution: &impl Execution,
    meter: &mut Meter,
    items: &[i64],
    flags: &[bool],
    kept: Vec<i64>,
) -> Result<Vec<i64>, Failure> {
    if flags.len() != items.len() {
        return Err(Failure::Uneven);
    }
    Ok(pack_z(execution, Kept::new(kept), meter, items, flags)?)
}

// The first items, as many as there are segments.
fn distribute(
    execution: &impl Execution,
    meter: &mut Meter,
    items: &[i64],
    segments: &Segd,
    kept: Vec<i64>,
) -> Result<Vec<i64>, Failure> {
    let Some(values) = items.get(..segments.count()) else {
        return Err(Failure::Uneven);
    };
    Ok(distribute_z(execution, Kept::new(kept), meter, values, segments)?)
}

fn index(
    execution: &impl Execution,
    meter: &mut Meter,
    count: usize,
    kept: Vec<i64>,
) -> Result<Vec<i64>, Failure> {
    if count > LIMIT {
        return Err(Failure::Uneven);
    }
    Ok(index_whole(execution, Kept::new(kept), meter, 3, 5, count)?)
}

// A test that fails is no row.
fn passed(holds: bool, kept: Vec<i64>) -> Result<Vec<i64>, Failure> {
    if holds {
        Ok(kept)
    } else {
        Err(Failure::Uneven)
    }
}

fn permutes(
    execution: &impl Execution,
    meter: &Meter,
    index: &[i64],
    segments: &Segd,
    kept: Vec<i64>,
) -> Result<Vec<i64>, Failure> {
    if segments.total() != index.len() {
        return Err(Failure::Uneven);
    }
    let alloc = *kept.allocator();
    passed(
        is_permutation_by(execution, alloc, meter, index, segments)?,
        kept,
    )
}

fn lie_within(
    execution: &impl Execution,
    meter: &Meter,
    index: &[i64],
    segments: &Segd,
    kept: Vec<i64>,
) -> Result<Vec<i64>, Failure> {
    if segments.total() != index.len() {
        return Err(Failure::Uneven);
    }
    passed(
        in_range_by(execution, meter, index, segments, segments),
        kept,
    )
}

/// The time of one run, in nanoseconds. A fresh result is one for which nothing is kept.
fn time(
    rt: &impl Clock,
    execution: &impl Execution,
    row: Row,
    inputs: &Inputs,
    fresh: bool,
    made: &mut Vec<i64>,
) -> io::Result<u32> {
    let mut meter = Meter::new();
    let alloc = *made.allocator();
    let mut kept = mem::replace(made, Vec::new(alloc));
    if fresh {
        kept = Vec::new(alloc);
    }
    let start = Instant::now(rt)?;
    *made = row.run(execution, &mut meter, inputs, kept)?;
    Ok(u32::try_from(start.elapsed(rt)?.as_nanos()).unwrap_or(u32::MAX))
}

/// The least time of a few runs, one behind the other, in nanoseconds: threads that start behind a run in one thread begin later, since
/// the system has let the other processors rest.
fn least_in_a_row(
    rt: &impl Clock,
    execution: &impl Execution,
    row: Row,
    inputs: &Inputs,
    fresh: bool,
    made: &mut Vec<i64>,
) -> io::Result<u32> {
    for _repeat in 0..NOT_TIMED {
        time(rt, execution, row, inputs, fresh, made)?;
    }
    let mut least = u32::MAX;
    for _repeat in 0..IN_A_ROW {
        least = least.min(time(rt, execution, row, inputs, fresh, made)?);
    }
    Ok(least)
}

/// The least time of one run in one thread and in threads, in nanoseconds. They take turns.
fn least<R: Alloc<A = Global> + Clock>(
    rt: &R,
    threads: &impl Execution,
    row: Row,
    inputs: &Inputs,
    fresh: bool,
) -> io::Result<(u32, u32)> {
    let mut made = Vec::new(rt.alloc());
    let mut least = (u32::MAX, u32::MAX);
    for _turn in 0..TURNS {
        let alone = least_in_a_row(rt, &Sequential, row, inputs, fresh, &mut made)?;
        let together = least_in_a_row(rt, threads, row, inputs, fresh, &mut made)?;
        least = (least.0.min(alone), least.1.min(together));
    }
    Ok(least)
}

/// Prints for a kernel over so many items, for each kind of memory, the nanoseconds of a run in one thread, and by a policy with threads.
fn print_rows<R: Alloc<A = Global> + Clock + Print>(
    rt: &R,
    policy: &impl Execution,
    row: Row,
    size: u32,
    inputs: &Inputs,
) -> io::Result<()> {
    for fresh in [false, true] {
        if let Some(memory) = row.memory(fresh) {
            let (alone, threads) = least(rt, policy, row, inputs, fresh)?;
            let name = row.name();
            println!(rt; "chunks\t{name}/{memory}/{size}\tone thread\t{alone}")?;
            println!(rt; "chunks\t{name}/{memory}/{size}\tthreads\t{threads}")?;
        }
    }
    Ok(())
}

/// Prints the rows of the kernels whose names begin with these words, for each number of items. Whether there are such kernels.
pub fn rows<R: Alloc<A = Global> + Clock + Print>(
    rt: &R,
    policy: &impl Execution,
    words: &str,
) -> io::Result<bool> {
    let mut any = false;
    for size in SIZES {
        let inputs = Inputs::new(rt.alloc(), size)?;
        for row in &ROWS {
            if row.name().starts_with(words) {
                print_rows(rt, policy, *row, size, &inputs)?;
                any = true;
            }
        }
    }
    Ok(any)
}
