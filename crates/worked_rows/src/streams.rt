//! A reader and a writer over memory that move a few bytes at a time and fail where they are told.

use std::io;
use std::io::{ErrorKind, Read, Write};

/// Gives at most `step` bytes a call, and fails at the call of number `fails`, counted from 0.
#[derive(Drop)]
pub struct Pieces<'a> {
    pub bytes: &'a [u8],
    pub step: usize,
    pub fails: Option<u64>,
}

impl Read for Pieces<'_> {
    fn read(&mut self, buffer: &mut [u8]) -> io::Result<usize> {
        if self.fails == Some(0) {
            return Err(io::Error::from(ErrorKind::Other));
        }
        self.fails = self.fails.map(|calls| calls.saturating_sub(1));
        let count = self.bytes.len().min(self.step).min(buffer.len());
        buffer[..count].copy_from_slice(&self.bytes[..count]);
        self.bytes = &self.bytes[count..];
        Ok(count)
    }
}

/// What happens at a write when no more bytes are taken.
#[derive(Clone, Copy, PartialEq, Eq)]
pub enum Full {
    Fails,
    TakesNone,
}

/// Takes at most `step` bytes a call, and `left` in all.
#[derive(Drop)]
pub struct Short {
    pub taken: Vec<u8>,
    pub step: usize,
    pub left: usize,
    pub full: Full,
}

impl Write for Short {
    fn write(&mut self, bytes: &[u8]) -> io::Result<usize> {
        let count = bytes.len().min(self.step).min(self.left);
        if count == 0 && self.full == Full::Fails {
            return Err(io::Error::from(ErrorKind::Other));
        }
        self.taken.extend_from_slice(&bytes[..count])?;
        self.left -= count;
        Ok(count)
    }

    fn flush(&mut self) -> io::Result<()> {
        Ok(())
    }
}

/// A stream at which signals interrupt each other call.
#[derive(Drop)]
pub struct Interrupted<S> {
    pub stream: S,
    pub passes: bool,
}

impl Read for Interrupted<Pieces<'_>> {
    fn read(&mut self, buffer: &mut [u8]) -> io::Result<usize> {
        self.passes = !self.passes;
        if self.passes {
            return Err(io::Error::from(ErrorKind::Interrupted));
        }
        self.stream.read(buffer)
    }
}

impl Write for Interrupted<&mut Short> {
    fn write(&mut self, bytes: &[u8]) -> io::Result<usize> {
        self.passes = !self.passes;
        if self.passes {
            return Err(io::Error::from(ErrorKind::Interrupted));
        }
        self.stream.write(bytes)
    }

    fn flush(&mut self) -> io::Result<()> {
        Ok(())
    }
}
