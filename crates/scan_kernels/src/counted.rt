//! A runtime whose processors were counted once.

ghost use Rattle.std.specs.Prelude.{◌≡◌};

use crate::execution::Execution;
use crate::in_threads::{
    write_bools_in_threads, write_each_bools_in_threads, write_each_ints_in_threads,
    write_ints_beside, write_ints_in_threads,
};
use crate::rows::{BoolRow, IntRow};
use rayon::current_num_threads;
use std::marker::Sync;
use std::thread::Threads;

/// A runtime with threads that was asked once how many chunks it can run at the same time. By the runtime itself each kernel that may
/// go by chunks asks the system, which takes 5 to 45 microseconds.
#[derive(Drop)]
pub struct Counted<R> {
    runtime: R,
    processors: usize,
}

impl<R: Threads + Sync> Counted<R> {
    /// Asks the runtime how many chunks it can run at the same time, and keeps both.
    pub fn new(runtime: R) -> Counted<R>
        ensures { result.runtime ≡ runtime }
    {
        let processors = current_num_threads(&runtime);
        Counted {
            runtime,
            processors,
        }
    }
}

impl<R> Counted<R> {
    /// The runtime.
    pub fn runtime(&self) -> &R
        ensures { result.now ≡ self.now.runtime }
    {
        &self.runtime
    }
}

impl<R: Threads + Sync> Execution for Counted<R> {
    type Shared = R;

    fn processors(&self) -> usize {
        self.processors.max(1)
    }

    fn write_ints(&self, row: IntRow<'_>, size: usize, list: &mut [i64]) {
        write_ints_in_threads(&self.runtime, row, size, list)
    }

    fn write_ints_beside(
        &self,
        row: IntRow<'_>,
        size: usize,
        start: usize,
        part: &mut [i64],
        items: &[i64],
        made: &mut Vec<i64>,
    ) {
        write_ints_beside(&self.runtime, row, size, start, part, items, made)
    }

    fn write_bools(&self, row: BoolRow<'_>, size: usize, list: &mut [bool]) {
        write_bools_in_threads(&self.runtime, row, size, list)
    }

    fn write_each_ints(&self, rows: &[IntRow<'_>], size: usize, lists: &mut [Vec<i64>]) {
        write_each_ints_in_threads(&self.runtime, rows, size, lists)
    }

    fn write_each_bools(&self, rows: &[BoolRow<'_>], size: usize, lists: &mut [Vec<bool>]) {
        write_each_bools_in_threads(&self.runtime, rows, size, lists)
    }
}
