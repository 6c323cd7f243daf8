//! The program over memory.

use scan_kernels::Execution;
use script_main::{ReadSource, WriteSink, run_program};
use std::alloc::{Alloc, AllocError, Global};
use std::io;
use std::io::Read;
use std::sync::Wait;
use std::thread::Threads;

/// How many bytes of a script a read gives at most, one run after the other: the answer is to be the same.
pub const STEPS: [usize; 4] = [1, 2, 7, 100_000];

/// A reader of a script that gives at most `step` bytes a call.
#[derive(Drop)]
struct Pieces<'a> {
    bytes: &'a [u8],
    step: usize,
}

impl Read for Pieces<'_> {
    fn read(&mut self, buffer: &mut [u8]) -> io::Result<usize> {
        let count = self.bytes.len().min(self.step).min(buffer.len());
        buffer[..count].copy_from_slice(&self.bytes[..count]);
        self.bytes = &self.bytes[count..];
        Ok(count)
    }
}

/// What the program wrote, and its exit status.
#[derive(Drop)]
pub struct Ran {
    pub text: Vec<u8>,
    pub status: u8,
}

/// Runs the program with these arguments, which spaces part, on a script, of which a read gives at most `step` bytes.
pub fn run<R: Alloc<A = Global> + Threads + Wait + Execution<Shared = R> + Sync>(
    rt: &R,
    arguments: &str,
    script: &[u8],
    step: usize,
) -> Result<Ran, AllocError> {
    let mut words = Vec::new(rt.alloc());
    for word in arguments.split(' ') {
        words.push(word.to_string(rt.alloc())?)?;
    }
    let mut text = Vec::new(rt.alloc());
    let mut source = ReadSource::new(Pieces {
        bytes: script,
        step,
    });
    let mut sink = WriteSink::new(&mut text);
    let status = run_program(rt, rt.alloc(), &words, &mut source, &mut sink);
    Ok(Ran { text, status })
}
