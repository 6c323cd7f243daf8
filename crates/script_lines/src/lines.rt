//! The lines of an input, one after the other.

ghost use Rattle.std.specs.Prelude.{[], ◌∷◌, ◌++◌, ◌≡◌, ◌<◌, ◌≤◌, ◌+◌, ◌^◌, ℕ, List, Ok, true, false, OnOk, OnErr, IfOk, length, cond};
ghost use Rattle.script_lines.specs.Scripts.{IsOneLine};
ghost use Rattle.script_lines.specs.Walks.{unwalked, line_at, halt_at, Advances, HasWalked, Fills, CountsReads, GoesOn, IsCountable};

use crate::block::Block;
use crate::fault::InputFault;
use crate::line::{LineFault, keep_rest};
use crate::streams::Source;
use segment_desc::OutOfMemory;
use std::alloc::Global;
use std::marker::Model;
use std::mem;

/// The lines of an input, of which some are gone through.
///
/// A line is lent from the block where it lies in it; only one that began in an earlier block is joined.
#[derive(Drop)]
pub struct Lines {
    block: Block,
    /// What is read of the next line in earlier blocks.
    partial: Vec<u8>,
    /// The line, if it began in an earlier block.
    joined: Vec<u8>,
    /// How many lines were gone to.
    number: u64,
    /// Whether no more is to be read.
    ended: bool,
}

impl Model for Lines {
    ghost use Rattle.std.specs.Prelude.{◌++◌};
    ghost use Rattle.script_lines.specs.Scripts.{IsOneLine};
    ghost use Rattle.script_lines.specs.Walks.{Walk, Place, line_at};

    ghost Value = { Place };

    ghost view = { λ l. record {
      walk = record { unread = l.partial.items ++ l.block.rest; number = l.number; ended = l.ended };
      line = line_at l.joined.items l.block.line;
    } };

    ghost invariant = { λ l. IsOneLine l.partial.items };
}

/// Why the line of this number is not gone through.
fn halt_at(number: u64, fault: LineFault) -> InputFault
    ensures { result ≡ halt_at number fault }
{
    match fault {
        LineFault::Bad => InputFault::BadLine(number),
        LineFault::OutOfMemory => InputFault::OutOfMemory,
    }
}

/// Joins what is read of a line in earlier blocks, if there is any, and its end.
fn join(partial: &mut Vec<u8>, joined: &mut Vec<u8>, end: &[u8]) -> Result<(), OutOfMemory>
    requires { joined.old.items ≡ [] }
    ensures line { OnOk result (line_at joined.new.items end.now ≡ partial.old.items ++ end.now) }
    ensures none { OnOk result (partial.new.items ≡ []) }
    ensures err { OnErr result (partial.new.items ≡ partial.old.items) }
{
    if partial.is_empty() {
        return Ok(());
    }
    partial.extend_from_slice(end)?;
    mem::swap(partial, joined);
    Ok(())
}

/// Forgets the line that was joined, if one was. The next such line takes its space.
fn forget(partial: &mut Vec<u8>, joined: &mut Vec<u8>)
    ensures partial { partial.new.items ≡ partial.old.items }
    ensures joined { joined.new.items ≡ [] }
{
    if joined.is_empty() {
        return;
    }
    joined.clear();
    if partial.is_empty() {
        mem::swap(partial, joined);
    }
}

/// At the end of an input, where this is its last line: puts a line feed behind it, unless it is empty.
fn end_line(partial: &[u8], block: &mut Block) -> bool
    ensures { cond result ((0 < length partial.now) × (block.new.rest ≡ 10 ∷ [])) ((partial.now ≡ []) × (block.new ≡ block.old)) }
{
    if partial.is_empty() {
        return false;
    }
    block.feed();
    true
}

impl Lines {
    /// The lines of an input of which nothing is read.
    pub fn new(alloc: Global) -> Result<Lines, OutOfMemory>
        ensures { IfOk result (λ lines. lines.walk ≡ unwalked) }
    {
        Ok(Lines {
            block: Block::new(alloc)?,
            partial: Vec::new(alloc),
            joined: Vec::new(alloc),
            number: 0,
            ended: false,
        })
    }

    /// The line.
    pub(crate) fn current(&self) -> &[u8]
        ensures { result.now ≡ self.now.line }
    {
        if self.joined.is_empty() {
            self.block.line()
        } else {
            &self.joined
        }
    }

    /// How many lines were gone to.
    pub(crate) fn number(&self) -> u64
        ensures { result ≡ self.now.walk.number }
    {
        self.number
    }

    /// Whether no more is to be read.
    pub(crate) fn ended(&self) -> bool
        ensures { result ≡ self.now.walk.ended }
    {
        self.ended
    }

    /// Why the line is not gone through.
    pub(crate) fn halt(&self, fault: LineFault) -> InputFault
        ensures { result ≡ halt_at self.now.walk.number fault }
    {
        halt_at(self.number, fault)
    }

    /// Goes to the next line, if a line feed ends it in what was read.
    pub(crate) fn advance(&mut self) -> Result<bool, OutOfMemory>
        requires { self.old.walk.number ≤ 2 ^ 63 }
        ensures { IfOk result (λ some. Advances some self.old.walk self.new) }
    {
        forget(&mut self.partial, &mut self.joined);
        if !self.block.advance() {
            return Ok(false);
        }
        join(&mut self.partial, &mut self.joined, self.block.line())?;
        self.number += 1;
        Ok(true)
    }

    /// Reads more, where no whole line is left of what was read: false at the end.
    pub(crate) fn fill<R: Source>(&mut self, reader: &mut R) -> Result<bool, InputFault>
        requires one_line { IsOneLine self.old.walk.unread }
        requires number { self.old.walk.number ≤ 2 ^ 63 }
        requires readable { R.can_read reader.old }
        ensures fills { (input : List ℕ) (first : List (List ℕ)) → HasWalked input (R.rest reader.old) first self.old.walk
            → Fills result input first (R.rest reader.new) self.new.walk }
        ensures goes_on { result ≡ Ok true → GoesOn self.old.walk (R.limit reader.old) self.new.walk (R.limit reader.new) }
        ensures number { self.new.walk.number ≡ self.old.walk.number }
        ensures counted { CountsReads result (R.failures reader.old) (R.failures reader.new) }
        ensures readable { OnOk result (R.can_read reader.new) }
    {
        if self.ended {
            return Ok(false);
        }
        if let Err(fault) = keep_rest(&mut self.partial, self.block.rest()) {
            return Err(halt_at(self.number + 1, fault));
        }
        match self.block.read(reader) {
            Ok(0) => {
                self.ended = true;
                Ok(end_line(&self.partial, &mut self.block))
            }
            Ok(_) => Ok(true),
            Err(_) => Err(InputFault::Read),
        }
    }
}
