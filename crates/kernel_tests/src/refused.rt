//! Kernels and tests of indices of which a growth is refused. `refused/run.sh` runs these tests once for each growth that they
//! ask for between the lines `begin` and `end`, and has it refused. By themselves the tests see none refused.
//!
//! A refused growth comes to a want of memory, with the meter as it was. Else the items are those that the kernel makes.

mod moves;
mod segments;
mod wholes;

use scan_kernels::Meter;
use segment_desc::OutOfMemory;
use std::process::Abort;

/// The growths of what comes next are counted, and one may be refused.
fn begin<R: Abort + Print>(rt: &R) {
    println!(rt; "begin").expect(rt, "output");
}

/// And those of what comes next are not. Asserts that a kernel made these items and counted itself, or neither.
fn end<T: Copy + PartialEq, R: Abort + Print>(
    rt: &R,
    meter: &mut Meter,
    made: Result<Vec<T>, OutOfMemory>,
    wanted: &[T],
) {
    println!(rt; "end").expect(rt, "output");
    let runs = meter.runs();
    *meter = Meter::new();
    match made {
        Ok(made) => assert!(rt; made.as_slice() == wanted && runs == 1),
        Err(OutOfMemory) => assert!(rt; runs == 0),
    }
}
