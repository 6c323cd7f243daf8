ghost use Rattle.std.specs.Prelude.{◌≡◌, IfOk, IfErr, OnErr};
ghost use Rattle.call_history.specs.History.{Begins};
ghost use Rattle.combiner.specs.Cases.{is_told};
ghost use Rattle.combiner.specs.Own.{IsToldAtLast};
ghost use Rattle.combiner.specs.Standing.{IsIdle, HasLeft, HasLeftABlock, HasLeftACall, Rests};
ghost use Rattle.combiner.specs.Says.{IsAnsweredAtLast, IsBlockAnsweredAtLast, IsBlockThatWasLeft, IsWhatWasLeft, KeepsNotes};

use crate::answers::{Combined, Polled};
use crate::caller::Caller;
use crate::shared::Shared;
use cvl_text::{Call, Reply};
use scan_kernels::{Execution, Sequential};
use std::alloc::Global;
use std::sync::Wait;
use std::thread::Threads;
use std::{hint, thread};
use vector_memory::OutOfMemory;

/// How many turns of its own loop a caller lets pass between two tries, at first: some microseconds. Each try takes the lines of
/// lock and words from the caller that serves, so tries are far apart.
pub(crate) const FIRST_PAUSE: u32 = 512;
/// And at most.
const LAST_PAUSE: u32 = 2048;

impl Shared {
    /// Asks and serves until the call that the caller left is answered: the place of its entry, counted from 0, and the reply.
    /// For want of memory the call comes back, and stands in no history. The kernels of calls that it serves stay in its thread.
    pub fn wait(
        &self,
        rt: &(impl Threads + Wait + Sync),
        alloc: Global,
        caller: &mut Caller,
    ) -> Result<(u64, Reply), (Call, OutOfMemory)>
        requires machine { caller.old.machine ≡ self.now }
        requires left { HasLeftACall caller.old }
        ensures machine { caller.new.machine ≡ self.now }
        ensures number { caller.new.number ≡ caller.old.number }
        ensures bounds { caller.new.bounds ≡ caller.old.bounds }
        ensures idle { IsIdle caller.new }
        ensures later { Begins caller.old.seen caller.new.seen }
        ensures rests { Rests caller.new }
        ensures notes { KeepsNotes caller.old caller.new }
        ensures answered { IfOk result (λ answer. IsAnsweredAtLast caller.old caller.new answer.0 answer.1) }
        ensures back { IfErr result (λ refused. IsWhatWasLeft caller.old refused.0) }
        ensures record_kept { OnErr result (caller.new.own ≡ caller.old.own) }
    {
        self.ask(&Sequential, rt, alloc, caller, 0)
    }

    /// `wait`, by an execution policy for the kernels of the calls that it serves.
    pub fn wait_by(
        &self,
        execution: &impl Execution,
        rt: &impl Wait,
        alloc: Global,
        caller: &mut Caller,
    ) -> Result<(u64, Reply), (Call, OutOfMemory)>
        requires machine { caller.old.machine ≡ self.now }
        requires left { HasLeftACall caller.old }
        ensures machine { caller.new.machine ≡ self.now }
        ensures number { caller.new.number ≡ caller.old.number }
        ensures bounds { caller.new.bounds ≡ caller.old.bounds }
        ensures idle { IsIdle caller.new }
        ensures later { Begins caller.old.seen caller.new.seen }
        ensures rests { Rests caller.new }
        ensures notes { KeepsNotes caller.old caller.new }
        ensures answered { IfOk result (λ answer. IsAnsweredAtLast caller.old caller.new answer.0 answer.1) }
        ensures back { IfErr result (λ refused. IsWhatWasLeft caller.old refused.0) }
        ensures record_kept { OnErr result (caller.new.own ≡ caller.old.own) }
    {
        self.ask(execution, rt, alloc, caller, 0)
    }

    /// `wait`, of a caller that first lets so many turns pass.
    pub(crate) fn ask(
        &self,
        execution: &impl Execution,
        rt: &impl Wait,
        alloc: Global,
        caller: &mut Caller,
        first: u32,
    ) -> Result<(u64, Reply), (Call, OutOfMemory)>
        requires machine { caller.old.machine ≡ self.now }
        requires left { HasLeftACall caller.old }
        ensures machine { caller.new.machine ≡ self.now }
        ensures number { caller.new.number ≡ caller.old.number }
        ensures bounds { caller.new.bounds ≡ caller.old.bounds }
        ensures idle { IsIdle caller.new }
        ensures later { Begins caller.old.seen caller.new.seen }
        ensures rests { Rests caller.new }
        ensures notes { KeepsNotes caller.old caller.new }
        ensures answered { IfOk result (λ answer. IsAnsweredAtLast caller.old caller.new answer.0 answer.1) }
        ensures back { IfErr result (λ refused. IsWhatWasLeft caller.old refused.0) }
        ensures record_kept { OnErr result (caller.new.own ≡ caller.old.own) }
    {
        match self.told_at_last(execution, rt, alloc, caller, first) {
            Polled::Answered { place, reply } => Ok((place, reply)),
            Polled::OutOfMemory(call) => Err((call, OutOfMemory)),
            Polled::Waiting => unreachable!(),
            Polled::Idle => unreachable!(),
            Polled::AnsweredBlock { .. } => unreachable!(),
            Polled::OutOfMemoryBlock(_) => unreachable!(),
        }
    }

    /// Asks and serves until the block that the caller left is answered: the place of its first entry, counted from 0, and the
    /// replies in order. For want of memory the calls come back, and stand in no history. The kernels of calls that it serves stay
    /// in its thread.
    pub fn wait_block(
        &self,
        rt: &(impl Threads + Wait + Sync),
        alloc: Global,
        caller: &mut Caller,
    ) -> Result<(u64, Vec<Reply>), (Vec<Call>, OutOfMemory)>
        requires machine { caller.old.machine ≡ self.now }
        requires left { HasLeftABlock caller.old }
        ensures machine { caller.new.machine ≡ self.now }
        ensures number { caller.new.number ≡ caller.old.number }
        ensures bounds { caller.new.bounds ≡ caller.old.bounds }
        ensures idle { IsIdle caller.new }
        ensures later { Begins caller.old.seen caller.new.seen }
        ensures rests { Rests caller.new }
        ensures notes { KeepsNotes caller.old caller.new }
        ensures answered { IfOk result (λ answer. IsBlockAnsweredAtLast caller.old caller.new answer.0 answer.1) }
        ensures back { IfErr result (λ refused. IsBlockThatWasLeft caller.old refused.0) }
        ensures record_kept { OnErr result (caller.new.own ≡ caller.old.own) }
    {
        self.wait_block_by(&Sequential, rt, alloc, caller)
    }

    /// `wait_block`, by an execution policy for the kernels of the calls that it serves.
    pub fn wait_block_by(
        &self,
        execution: &impl Execution,
        rt: &impl Wait,
        alloc: Global,
        caller: &mut Caller,
    ) -> Result<(u64, Vec<Reply>), (Vec<Call>, OutOfMemory)>
        requires machine { caller.old.machine ≡ self.now }
        requires left { HasLeftABlock caller.old }
        ensures machine { caller.new.machine ≡ self.now }
        ensures number { caller.new.number ≡ caller.old.number }
        ensures bounds { caller.new.bounds ≡ caller.old.bounds }
        ensures idle { IsIdle caller.new }
        ensures later { Begins caller.old.seen caller.new.seen }
        ensures rests { Rests caller.new }
        ensures notes { KeepsNotes caller.old caller.new }
        ensures answered { IfOk result (λ answer. IsBlockAnsweredAtLast caller.old caller.new answer.0 answer.1) }
        ensures back { IfErr result (λ refused. IsBlockThatWasLeft caller.old refused.0) }
        ensures record_kept { OnErr result (caller.new.own ≡ caller.old.own) }
    {
        match self.told_at_last(execution, rt, alloc, caller, 0) {
            Polled::AnsweredBlock { place, replies } => Ok((place, replies)),
            Polled::OutOfMemoryBlock(calls) => Err((calls, OutOfMemory)),
            Polled::Waiting => unreachable!(),
            Polled::Idle => unreachable!(),
            Polled::Answered { .. } => unreachable!(),
            Polled::OutOfMemory(_) => unreachable!(),
        }
    }

    /// Asks and serves, and first lets so many turns pass, until it is told what became of what the caller left.
    fn told_at_last(
        &self,
        execution: &impl Execution,
        rt: &impl Wait,
        alloc: Global,
        caller: &mut Caller,
        first: u32,
    ) -> Polled
        requires machine { caller.old.machine ≡ self.now }
        requires left { HasLeft caller.old }
        ensures machine { caller.new.machine ≡ self.now }
        ensures told { IsToldAtLast caller.old caller.new result }
        ensures rests { Rests caller.new }
    {
        let mut turns = first;
        for _ in rt.forever() {
            pause(turns);
            let told = self.poll(caller);
            if is_told(&told) {
                return told;
            }
            turns = match self.combine(execution, alloc, caller) {
                Combined::Busy => longer(turns),
                Combined::Served { .. } => 0,
            };
        }
        unreachable!()
    }
}

// Whether it tells what became of what was left.
fn is_told(told: &Polled) -> bool
    ensures { result ≡ is_told told.now }
{
    !matches!(told, Polled::Idle | Polled::Waiting)
}

// Lets so many turns pass, and hands the processor on where that is the longest pause.
pub(crate) fn pause(turns: u32) {
    for _ in 0..turns {
        hint::spin_loop();
    }
    if turns == LAST_PAUSE {
        thread::yield_now();
    }
}

// How many turns follow on so many, where another caller has the book: twice as many.
pub(crate) fn longer(turns: u32) -> u32 {
    if turns < FIRST_PAUSE {
        return FIRST_PAUSE;
    }
    if turns < LAST_PAUSE {
        return 2 * turns;
    }
    LAST_PAUSE
}
