//! A block of an input.

ghost use Rattle.std.specs.Prelude.{[], ◌∷◌, ◌≡◌, ◌+◌, OnOk, IfOk, MatchResult, length};
ghost use Rattle.std.specs.Io.KnownBytes.{Consumes, IsAtEnd, Keeps};
ghost use Rattle.script_lines.specs.Streams.{StaysUnless};
ghost use Rattle.script_lines.specs.Walks.{Cuts};

use crate::streams::{BLOCK, Failed, Source};
use memchr::memchr;
use segment_desc::OutOfMemory;
use std::alloc::Global;
use std::marker::Model;

/// A block that was read: a line of it, and the rest behind that line.
#[derive(Drop)]
pub(crate) struct Block {
    bytes: Vec<u8>,
    /// Where the line begins and ends.
    line: usize,
    line_end: usize,
    /// Where the rest begins and ends.
    rest: usize,
    rest_end: usize,
}

impl Model for Block {
    ghost use Rattle.std.specs.Prelude.{◌<◌, ◌≤◌, length};
    ghost use Rattle.std.specs.List.{slice_range};
    ghost use Rattle.script_lines.specs.Walks.{Cut};

    ghost Value = { Cut };

    ghost view = { λ b. record { line = slice_range b.bytes.items b.line b.line_end; rest = slice_range b.bytes.items b.rest b.rest_end } };

    ghost invariant = { λ b. (b.line ≤ b.line_end) × (b.line_end ≤ length b.bytes.items) × (b.rest ≤ b.rest_end) × (b.rest_end ≤ length b.bytes.items) × (0 < length b.bytes.items) };
}

impl Block {
    /// A block of which nothing is read.
    pub(crate) fn new(alloc: Global) -> Result<Block, OutOfMemory>
        ensures { IfOk result (λ block. block.rest ≡ []) }
    {
        Ok(Block {
            bytes: vec![in alloc; 0u8; BLOCK]?,
            line: 0,
            line_end: 0,
            rest: 0,
            rest_end: 0,
        })
    }

    /// The line.
    pub(crate) fn line(&self) -> &[u8]
        ensures { result.now ≡ self.now.line }
    {
        &self.bytes[self.line..self.line_end]
    }

    /// The rest behind the line.
    pub(crate) fn rest(&self) -> &[u8]
        ensures { result.now ≡ self.now.rest }
    {
        &self.bytes[self.rest..self.rest_end]
    }

    /// Goes to the next line, if a line feed ends it in the rest.
    pub(crate) fn advance(&mut self) -> bool
        ensures { Cuts result self.old self.new }
    {
        let Some(length) = memchr(b'\n', &self.bytes[self.rest..self.rest_end]) else {
            return false;
        };
        self.line = self.rest;
        self.line_end = self.rest + length;
        self.rest = self.line_end + 1;
        true
    }

    /// Reads the next block in the place of this one, and answers how many bytes it has.
    pub(crate) fn read<R: Source>(&mut self, reader: &mut R) -> Result<usize, Failed>
        requires { R.can_read reader.old }
        ensures bytes { MatchResult result
            (λ count. Consumes (R.rest reader.old) (R.rest reader.new) self.new.rest × (count ≡ 0 → IsAtEnd (R.rest reader.new)))
            (λ _. Keeps (R.rest reader.old) (R.rest reader.new)) }
        ensures count { IfOk result (λ count. (count ≡ length self.new.rest) × (R.limit reader.new + count ≡ R.limit reader.old)) }
        ensures counted { StaysUnless result (R.failures reader.old) (R.failures reader.new) }
        ensures ready { OnOk result (R.can_read reader.new) }
    {
        match reader.read(&mut self.bytes) {
            Ok(count) => {
                self.rest = 0;
                self.rest_end = count;
                Ok(count)
            }
            Err(failed) => Err(failed),
        }
    }

    /// Puts a line feed in the place of the rest.
    pub(crate) fn feed(&mut self)
        ensures { self.new.rest ≡ 10 ∷ [] }
    {
        self.bytes[0] = b'\n';
        self.rest = 0;
        self.rest_end = 1;
    }
}
