ghost use Rattle.std.specs.Prelude.{◌≡◌, IfOk, IfErr, OnErr};
ghost use Rattle.call_history.specs.History.{Begins};
ghost use Rattle.combiner.specs.Standing.{IsIdle, Rests};
ghost use Rattle.combiner.specs.Says.{IsAnsweredTo, KeepsNotes};

use crate::answers::Polled;
use crate::caller::Caller;
use crate::calls::wait::FIRST_PAUSE;
use crate::shared::Shared;
use cvl_text::{Call, Reply};
use scan_kernels::{Execution, Sequential};
use std::alloc::Global;
use std::sync::Wait;
use std::thread::Threads;
use vector_memory::OutOfMemory;

impl Shared {
    /// Runs a call at once if the book is free, and serves what others left, and else leaves it, and asks and serves until it is
    /// answered: the place of its entry, counted from 0, and the reply. A caller whose last call was served by another leaves its
    /// call first, and tries for the book only if nobody serves it in some microseconds. For want of memory the call comes back,
    /// and stands in no history. Its kernels stay in its thread, and so do those of the calls that it serves.
    pub fn call(
        &self,
        rt: &(impl Threads + Wait + Sync),
        alloc: Global,
        caller: &mut Caller,
        call: Call,
    ) -> Result<(u64, Reply), (Call, OutOfMemory)>
        requires machine { caller.old.machine ≡ self.now }
        requires idle { IsIdle caller.old }
        ensures machine { caller.new.machine ≡ self.now }
        ensures number { caller.new.number ≡ caller.old.number }
        ensures bounds { caller.new.bounds ≡ caller.old.bounds }
        ensures idle { IsIdle caller.new }
        ensures later { Begins caller.old.seen caller.new.seen }
        ensures rests { Rests caller.new }
        ensures notes { KeepsNotes caller.old caller.new }
        ensures answered { IfOk result (λ answer. IsAnsweredTo call caller.old caller.new answer.0 answer.1) }
        ensures back { IfErr result (λ refused. refused.0 ≡ call) }
        ensures record_kept { OnErr result (caller.new.own ≡ caller.old.own) }
    {
        self.call_by(&Sequential, rt, alloc, caller, call)
    }

    /// `call`, by an execution policy for the kernels of the calls that it runs: by a runtime with threads those over large vectors go
    /// by chunks in threads.
    #[inline(always)]
    pub fn call_by(
        &self,
        execution: &impl Execution,
        rt: &impl Wait,
        alloc: Global,
        caller: &mut Caller,
        call: Call,
    ) -> Result<(u64, Reply), (Call, OutOfMemory)>
        requires machine { caller.old.machine ≡ self.now }
        requires idle { IsIdle caller.old }
        ensures machine { caller.new.machine ≡ self.now }
        ensures number { caller.new.number ≡ caller.old.number }
        ensures bounds { caller.new.bounds ≡ caller.old.bounds }
        ensures idle { IsIdle caller.new }
        ensures later { Begins caller.old.seen caller.new.seen }
        ensures rests { Rests caller.new }
        ensures notes { KeepsNotes caller.old caller.new }
        ensures answered { IfOk result (λ answer. IsAnsweredTo call caller.old caller.new answer.0 answer.1) }
        ensures back { IfErr result (λ refused. refused.0 ≡ call) }
        ensures record_kept { OnErr result (caller.new.own ≡ caller.old.own) }
    {
        match self.begin(execution, alloc, caller, call) {
            Polled::Answered { place, reply } => Ok((place, reply)),
            Polled::OutOfMemory(call) => Err((call, OutOfMemory)),
            Polled::Waiting => self.ask(execution, rt, alloc, caller, FIRST_PAUSE),
            Polled::Idle => unreachable!(),
            Polled::AnsweredBlock { .. } => unreachable!(),
            Polled::OutOfMemoryBlock(_) => unreachable!(),
        }
    }
}
