//! Calls that are read once and left again and again.

ghost use Rattle.std.specs.Prelude.{◌≡◌, [], ◌∷◌, ◌++◌, ℕ, length, map, IfOk, IfErr, IfSome, IfNone, OnOk, OnErr, Some, None};
ghost use Rattle.cvl_text.specs.Tasks.{task_of};
ghost use Rattle.cvl_port.specs.Lines.{line_task};
ghost use Rattle.cvl_port.specs.Posts.{AnswersBlock, AnswersPost, AreNotCopied, IsNotCopied, IsNotRead, prepared_task, prepared_tasks};
ghost use Rattle.cvl_port.specs.Ports.{KeepsRest, KeepsAllButPrepared, Prepares};
ghost use Rattle.cvl_port.specs.declared.fault.PostFault.TheVariants.{NotPrepared};

use crate::copying::copy;
use crate::fault::PostFault;
use crate::port::Port;
use cvl_text::{Call, ReadFault};
use std::alloc::Global;

/// The prepared call of a number.
#[inline(always)]
pub(crate) fn prepared(calls: &[Call], number: u64) -> Option<&Call>
    ensures found { IfSome result (λ call. prepared_task calls.now number ≡ Some (task_of call.now)) }
    ensures not_found { IfNone result (prepared_task calls.now number ≡ None) }
{
    calls.get(number as usize)
}

/// A copy of the prepared call of a number.
#[inline(always)]
pub(crate) fn copied(alloc: Global, calls: &[Call], number: u64) -> Result<Call, PostFault>
    ensures found { IfOk result (λ call. prepared_task calls.now number ≡ Some (task_of call)) }
    ensures not_found { IfErr result (IsNotCopied (prepared_task calls.now number)) }
{
    let Some(call) = prepared(calls, number) else {
        return Err(PostFault::NotPrepared);
    };
    match copy(alloc, call) {
        Ok(call) => Ok(call),
        Err(_) => Err(PostFault::OutOfMemory),
    }
}

/// Copies of the prepared calls of some numbers.
fn copies(alloc: Global, prepared: &[Call], numbers: &[u64]) -> Result<Vec<Call>, PostFault>
    ensures found { IfOk result (λ calls. prepared_tasks prepared.now numbers.now ≡ Some (map task_of calls.items)) }
    ensures not_found { IfErr result (AreNotCopied (prepared_tasks prepared.now numbers.now)) }
{
    let mut calls = Vec::new(alloc);
    for number in numbers {
        let call = copied(alloc, prepared, *number)?;
        let Ok(()) = calls.push(call) else {
            return Err(PostFault::OutOfMemory);
        };
    }
    Ok(calls)
}

impl Port {
    /// Keeps the call of a line, to be left again and again without reading it. Its number: they count from 0.
    pub fn prepare(&mut self, alloc: Global, line: &[u8]) -> Result<u64, ReadFault>
        ensures number { IfOk result (λ number. number ≡ length self.old.prepared.items) }
        ensures kept { OnOk result (Prepares (line_task line.now) self.old.prepared.items self.new.prepared.items) }
        ensures fault { IfErr result (IsNotRead (line_task line.now)) }
        ensures unchanged { OnErr result (self.new.prepared.items ≡ self.old.prepared.items) }
        ensures rest { KeepsAllButPrepared self.old self.new }
    {
        let call = Call::read(alloc, line)?;
        let number = self.prepared.len() as u64;
        let Ok(()) = self.prepared.push(call) else {
            return Err(ReadFault::OutOfMemory);
        };
        Ok(number)
    }

    /// Forgets all prepared calls.
    pub fn forget(&mut self)
        ensures none { self.new.prepared.items ≡ [] }
        ensures rest { KeepsAllButPrepared self.old self.new }
    {
        self.prepared.clear();
    }

    /// Leaves the prepared call of a number.
    pub fn post_prepared(&mut self, alloc: Global, number: u64) -> Result<(), PostFault>
        ensures answers { AnswersPost result NotPrepared (prepared_task self.old.prepared.items number) self.old.caller self.new.caller }
        ensures rest { KeepsRest self.old self.new }
    {
        let call = copied(alloc, &self.prepared, number)?;
        self.post(call)
    }

    /// Leaves the prepared calls of some numbers, as a block.
    pub fn post_prepared_block(&mut self, alloc: Global, numbers: &[u64]) -> Result<(), PostFault>
        ensures answers { AnswersBlock result NotPrepared (prepared_tasks self.old.prepared.items numbers.now) self.old.caller self.new.caller }
        ensures rest { KeepsRest self.old self.new }
    {
        let calls = copies(alloc, &self.prepared, numbers)?;
        self.post_block(calls)
    }
}
