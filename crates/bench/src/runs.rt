//! One run of each kernel. The kernel's condition is tested before.

ghost use Rattle.std.specs.Prelude.{◌≡◌, length, IfOk};

use permute_kernels::{back_permute_z, in_range, is_permutation, pack_z, permute_z};
use scan_kernels::{Execution, Meter, ScanZ, Z2, distribute_z, index, map2_z, reduce_z, scan_z};
use segment_desc::{OutOfMemory, Segd};
use std::alloc::Global;
use std::io;
use std::io::ErrorKind;
use std::thread::Threads;

/// Why a kernel did not run. It is small, so that the times are those of the kernels.
#[derive(Clone, Copy)]
pub enum Failure {
    /// The input does not meet the kernel's condition.
    Uneven,
    OutOfMemory,
}

impl From<OutOfMemory> for Failure {
    fn from(_want: OutOfMemory) -> Failure {
        Failure::OutOfMemory
    }
}

impl From<Failure> for io::Error {
    fn from(failure: Failure) -> io::Error {
        io::Error::from(match failure {
            Failure::Uneven => ErrorKind::InvalidInput,
            Failure::OutOfMemory => ErrorKind::OutOfMemory,
        })
    }
}

pub fn run_add<R: Alloc<A = Global> + Threads + Execution<Shared = R> + Sync>(
    rt: &R,
    meter: &mut Meter,
    left: &[i64],
    right: &[i64],
) -> Result<Vec<i64>, Failure> {
    if left.len() != right.len() {
        return Err(Failure::Uneven);
    }
    Ok(map2_z(rt, rt.alloc(), meter, Z2::Add, left, right)?)
}

pub fn run_scan<R: Alloc<A = Global> + Threads + Execution<Shared = R> + Sync>(
    rt: &R,
    meter: &mut Meter,
    items: &[i64],
    segments: &Segd,
) -> Result<Vec<i64>, Failure> {
    if segments.total() != items.len() {
        return Err(Failure::Uneven);
    }
    Ok(scan_z(rt, rt.alloc(), meter, ScanZ::Add, items, segments)?)
}

pub fn run_reduce<R: Alloc<A = Global> + Threads + Execution<Shared = R> + Sync>(
    rt: &R,
    meter: &mut Meter,
    items: &[i64],
    segments: &Segd,
) -> Result<Vec<i64>, Failure> {
    if segments.total() != items.len() {
        return Err(Failure::Uneven);
    }
    Ok(reduce_z(rt, rt.alloc(), meter, ScanZ::Add, items, segments)?)
}

// The first of the values, one for each segment.
fn values_for<'a>(values: &'a [i64], segments: &Segd) -> Result<&'a [i64], Failure>
    ensures { IfOk result (λ taken. length taken.now ≡ length segments.now) }
{
    if values.len() < segments.count() {
        return Err(Failure::Uneven);
    }
    Ok(values.split_at(segments.count()).0)
}

pub fn run_distribute<R: Alloc<A = Global> + Threads + Execution<Shared = R> + Sync>(
    rt: &R,
    meter: &mut Meter,
    values: &[i64],
    segments: &Segd,
) -> Result<Vec<i64>, Failure> {
    let values = values_for(values, segments)?;
    Ok(distribute_z(rt, rt.alloc(), meter, values, segments)?)
}

pub fn run_index<R: Alloc<A = Global> + Threads + Execution<Shared = R> + Sync>(
    rt: &R,
    meter: &mut Meter,
    starts: &[i64],
    strides: &[i64],
    segments: &Segd,
) -> Result<Vec<i64>, Failure> {
    let starts = values_for(starts, segments)?;
    let strides = values_for(strides, segments)?;
    Ok(index(rt, rt.alloc(), meter, starts, strides, segments)?)
}

// With the test of its index, as a call makes it.
pub fn run_gather<R: Alloc<A = Global> + Threads + Execution<Shared = R> + Sync>(
    rt: &R,
    meter: &mut Meter,
    items: &[i64],
    index: &[i64],
    whole: &Segd,
) -> Result<Vec<i64>, Failure> {
    if whole.total() != items.len() || whole.total() != index.len() {
        return Err(Failure::Uneven);
    }
    if !in_range(index, whole, whole) {
        return Err(Failure::Uneven);
    }
    Ok(back_permute_z(rt, rt.alloc(), meter, items, whole, index, whole)?)
}

// With the test of its index, as a call makes it.
pub fn run_scatter<R: Alloc<A = Global> + Threads + Execution<Shared = R> + Sync>(
    rt: &R,
    meter: &mut Meter,
    items: &[i64],
    index: &[i64],
    whole: &Segd,
) -> Result<Vec<i64>, Failure> {
    if whole.total() != index.len() || index.len() != items.len() {
        return Err(Failure::Uneven);
    }
    let permutes = is_permutation(rt.alloc(), index, whole)?;
    if !permutes {
        return Err(Failure::Uneven);
    }
    Ok(permute_z(rt, rt.alloc(), meter, items, index, whole)?)
}

// The test of an index alone.
pub fn run_is_permutation<R: Alloc<A = Global>>(
    rt: &R,
    index: &[i64],
    whole: &Segd,
) -> Result<Vec<i64>, Failure> {
    if whole.total() != index.len() || !is_permutation(rt.alloc(), index, whole)? {
        return Err(Failure::Uneven);
    }
    Ok(Vec::new(rt.alloc()))
}

// The test of an index alone.
pub fn run_in_range<R: Alloc<A = Global>>(
    rt: &R,
    index: &[i64],
    whole: &Segd,
) -> Result<Vec<i64>, Failure> {
    if whole.total() != index.len() || !in_range(index, whole, whole) {
        return Err(Failure::Uneven);
    }
    Ok(Vec::new(rt.alloc()))
}

pub fn run_pack<R: Alloc<A = Global> + Threads + Execution<Shared = R> + Sync>(
    rt: &R,
    meter: &mut Meter,
    items: &[i64],
    flags: &[bool],
) -> Result<Vec<i64>, Failure> {
    if flags.len() != items.len() {
        return Err(Failure::Uneven);
    }
    Ok(pack_z(rt, rt.alloc(), meter, items, flags)?)
}
