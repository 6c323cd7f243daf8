//! What a script is read from and what its text is written to.

ghost use Rattle.std.specs.Prelude.{[], ◌≡◌, ◌<◌, ◌≤◌, ◌-◌, ◌^◌, ℕ, List, Option, true, length, IsErr, OnOk, OnErr};
ghost use Rattle.std.specs.Io.{ReadsAtMost, WritesAtMost};
ghost use Rattle.std.specs.Io.KnownBytes.{ReadConsumes, WriteAppends};
ghost use Rattle.script_lines.specs.Streams.{Awaits, HasBegun, StaysUnless, IsReadBound, IsWriteBound, failure_limit};

use std::io::{self, ErrorKind, Read, Write};

/// How many bytes are read at a time.
pub(crate) const BLOCK: usize = 65536;

/// How often a read or a write is tried that signals interrupt.
const TRIES: u32 = 1000;

/// A read or a write failed.
#[derive(Clone, Copy, Debug, PartialEq, Eq)]
pub struct Failed;

/// What bytes are read from: at most 2^63 - 1 in all.
pub trait Source {
    /// The bytes that are left, where they are known.
    ghost rest: { Self → Option (List ℕ) };

    /// At most how many bytes are left.
    ghost limit: { Self → ℕ };

    /// How many reads have failed.
    ghost failures: { Self → ℕ };

    /// Whether it can be read, which a read that did not fail leaves true.
    ghost can_read: { Self → Type 0 };

    /// Reads some bytes into the front of the buffer and answers how many, none only at the end.
    fn read(&mut self, buffer: &mut [u8]) -> Result<usize, Failed>
        requires some { 0 < length buffer.old }
        requires ready { can_read self.old }
        ensures bound { IsReadBound result buffer.new (limit self.old) (limit self.new) }
        ensures len { length buffer.new ≡ length buffer.old }
        ensures bytes { ReadConsumes (rest self.old) (rest self.new) result buffer.new }
        ensures counted { StaysUnless result (failures self.old) (failures self.new) }
        ensures ready { OnOk result (can_read self.new) };

    /// No more is left than line numbers can count.
    ghost limited: { (s : Self) → limit s < 2 ^ 63 };
}

/// What bytes are written to.
pub trait Sink {
    /// The bytes that were written, where they are known.
    ghost written: { Self → Option (List ℕ) };

    /// How many writes have failed.
    ghost failures: { Self → ℕ };

    /// Whether it can be written, which a write that did not fail leaves true.
    ghost can_write: { Self → Type 0 };

    /// Writes some of the bytes from the front, at least one, and answers how many.
    fn write(&mut self, bytes: &[u8]) -> Result<usize, Failed>
        requires some { 0 < length bytes.now }
        requires ready { can_write self.old }
        ensures bound { IsWriteBound result bytes.now }
        ensures bytes { WriteAppends (written self.old) (written self.new) result bytes.now }
        ensures counted { StaysUnless result (failures self.old) (failures self.new) }
        ensures ready { OnOk result (can_write self.new) };
}

/// Writes all bytes. Where a write fails, a beginning of them is written.
pub fn write_all<W: Sink>(writer: &mut W, bytes: &[u8]) -> Result<(), Failed>
    requires { W.can_write writer.old }
    ensures bytes { OnOk result (Awaits (W.written writer.old) (W.written writer.new) [] bytes.now) }
    ensures begun { OnErr result (HasBegun (W.written writer.old) (W.written writer.new) bytes.now) }
    ensures counted { OnOk result (W.failures writer.new ≡ W.failures writer.old) }
    ensures failed { OnErr result (W.failures writer.old < W.failures writer.new) }
    ensures ready { OnOk result (W.can_write writer.new) }
{
    let mut rest = bytes;
    while !rest.is_empty() {
        match writer.write(rest) {
            Ok(count) => rest = &rest[count..],
            Err(failed) => return Err(failed),
        }
    }
    Ok(())
}

/// Whether a signal interrupted what was tried.
fn was_interrupted(tried: &io::Result<usize>) -> bool
    ensures { result ≡ true → IsErr tried.now }
{
    match tried {
        Ok(_) => false,
        Err(error) => error.kind() == ErrorKind::Interrupted,
    }
}

/// Reads, and again where a signal interrupted the read.
fn read_again<R: Read>(reader: &mut R, buffer: &mut [u8]) -> io::Result<usize>
    ensures bound { ReadsAtMost result buffer.new }
    ensures len { length buffer.new ≡ length buffer.old }
    ensures bytes { ReadConsumes (R.remaining reader.old) (R.remaining reader.new) result buffer.new }
{
    for _ in 1..TRIES {
        let tried = reader.read(buffer);
        if !was_interrupted(&tried) {
            return tried;
        }
    }
    reader.read(buffer)
}

/// Writes, and again where a signal interrupted the write.
fn write_again<W: Write>(writer: &mut W, bytes: &[u8]) -> io::Result<usize>
    ensures bound { WritesAtMost result bytes.now }
    ensures bytes { WriteAppends (W.contents writer.old) (W.contents writer.new) result bytes.now }
{
    for _ in 1..TRIES {
        let tried = writer.write(bytes);
        if !was_interrupted(&tried) {
            return tried;
        }
    }
    writer.write(bytes)
}

/// A reader of std, which gives at most 2^63 - 1 bytes: a read beyond that fails.
#[derive(Drop)]
pub struct ReadSource<R> {
    reader: R,
    left: u64,
    failures: u64,
    ghost limited: { left < 2 ^ 63 },
}

impl<R: Read> ReadSource<R> {
    /// The reader with no failure counted.
    pub fn new(reader: R) -> Self
        ensures rest { ⟦<ReadSource<R> as Source>⟧.rest result ≡ R.remaining reader }
        ensures limit { ⟦<ReadSource<R> as Source>⟧.limit result ≡ 2 ^ 63 - 1 }
        ensures failures { ⟦<ReadSource<R> as Source>⟧.failures result ≡ 0 }
        ensures ready { ⟦<ReadSource<R> as Source>⟧.can_read result }
    {
        ReadSource {
            reader,
            left: i64::MAX as u64,
            failures: 0,
        }
    }
}

impl<R: Read> Source for ReadSource<R> {
    ghost rest = { λ s. R.remaining s.reader };

    ghost limit = { λ s. s.left };

    ghost failures = { λ s. s.failures };

    ghost can_read = { λ s. s.failures < failure_limit };

    ghost limited = { λ s. s.limited };

    fn read(&mut self, buffer: &mut [u8]) -> Result<usize, Failed> {
        if self.left < buffer.len() as u64 {
            self.failures += 1;
            return Err(Failed);
        }
        match read_again(&mut self.reader, buffer) {
            Ok(count) => {
                self.left -= count as u64;
                Ok(count)
            }
            Err(_) => {
                self.failures += 1;
                Err(Failed)
            }
        }
    }
}

/// A writer of std. A write that takes no byte counts as a failure.
#[derive(Drop)]
pub struct WriteSink<W> {
    writer: W,
    failures: u64,
}

impl<W: Write> WriteSink<W> {
    /// The writer with no failure counted.
    pub fn new(writer: W) -> Self
        ensures written { ⟦<WriteSink<W> as Sink>⟧.written result ≡ W.contents writer }
        ensures failures { ⟦<WriteSink<W> as Sink>⟧.failures result ≡ 0 }
        ensures ready { ⟦<WriteSink<W> as Sink>⟧.can_write result }
    {
        WriteSink {
            writer,
            failures: 0,
        }
    }
}

impl<W: Write> Sink for WriteSink<W> {
    ghost written = { λ s. W.contents s.writer };

    ghost failures = { λ s. s.failures };

    ghost can_write = { λ s. s.failures < failure_limit };

    fn write(&mut self, bytes: &[u8]) -> Result<usize, Failed> {
        match write_again(&mut self.writer, bytes) {
            Ok(0) => {
                self.failures += 1;
                Err(Failed)
            }
            Ok(count) => Ok(count),
            Err(_) => {
                self.failures += 1;
                Err(Failed)
            }
        }
    }
}
