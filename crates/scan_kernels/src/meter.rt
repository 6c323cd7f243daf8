ghost use Rattle.std.specs.Prelude.{◌≡◌, ◌≤◌};
ghost use Rattle.scan_kernels.specs.Metering.{raised};

use std::marker::Model;

/// How many items a chunk has where a meter is made without a number of its own.
pub const DEFAULT_CHUNK: usize = 4_096;

/// Counts the kernel runs, and says how many items a chunk has where a kernel goes by chunks.
#[derive(Drop)]
pub struct Meter {
    runs: u64,
    chunk: usize,
}

impl Model for Meter {
    ghost use Rattle.std.specs.Prelude.{◌<◌, ◌≤◌, ◌^◌};
    ghost use Rattle.scan_kernels.specs.Metering.{Metered};

    ghost Value = { Metered };

    ghost view = { λ m. record { runs = m.runs; chunk = m.chunk } };

    ghost invariant = { λ m. (m.runs < 2 ^ 64) × (1 ≤ m.chunk) };
}

impl Meter {
    /// A meter that has counted no run, with chunks of `DEFAULT_CHUNK` items.
    pub fn new() -> Meter
        ensures { result ≡ record { runs = 0; chunk = DEFAULT_CHUNK } }
    {
        Meter::with_chunk(DEFAULT_CHUNK)
    }

    /// A meter that has counted no run, with chunks of so many items, at least one.
    pub fn with_chunk(chunk: usize) -> Meter
        requires { 1 ≤ chunk }
        ensures { result ≡ record { runs = 0; chunk = chunk } }
    {
        Meter { runs: 0, chunk }
    }

    /// How many runs were counted.
    pub fn runs(&self) -> u64
        ensures { result ≡ self.now.runs }
    {
        self.runs
    }

    /// How many items a chunk has.
    pub fn chunk(&self) -> usize
        ensures chunk { result ≡ self.now.chunk }
        ensures at_least_one { 1 ≤ result }
    {
        self.chunk
    }

    /// Counts one more run. The greatest number stays, and so does the chunk.
    pub fn raise(&mut self)
        ensures { self.new ≡ raised self.old }
    {
        self.runs = self.runs.saturating_add(1);
    }
}
