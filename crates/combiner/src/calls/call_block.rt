ghost use Rattle.std.specs.Prelude.{◌≡◌, ◌≤◌, length, map, IfOk, IfErr, OnErr};
ghost use Rattle.cvl_text.specs.Answers.{answer_of};
ghost use Rattle.call_history.specs.Blocks.{block_limit};
ghost use Rattle.call_history.specs.History.{Begins};
ghost use Rattle.combiner.specs.Standing.{IsIdle, Rests};
ghost use Rattle.combiner.specs.Says.{IsBlockAnsweredTo, KeepsNotes};

use crate::caller::Caller;
use crate::own_block::{run_own_block, take_desk};
use crate::shared::Shared;
use cvl_text::{Call, Reply};
use scan_kernels::{Execution, Sequential};
use std::alloc::Global;
use std::sync::Wait;
use std::thread::Threads;
use vector_memory::OutOfMemory;

impl Shared {
    /// Runs a block of calls, 1 to `BLOCK_LIMIT`, which take effect together: it waits until the book is free, runs them at once,
    /// with no call of another caller between them, and serves what others left. Answers the place of the first entry, counted from
    /// 0, and the replies in order. A fault is a reply, and the block goes on. For want of memory at any of the calls all of them
    /// come back, stand in no history, and nothing has changed. Their kernels stay in the caller's thread.
    pub fn call_block(
        &self,
        rt: &(impl Threads + Wait + Sync),
        alloc: Global,
        caller: &mut Caller,
        calls: Vec<Call>,
    ) -> Result<(u64, Vec<Reply>), (Vec<Call>, OutOfMemory)>
        requires machine { caller.old.machine ≡ self.now }
        requires idle { IsIdle caller.old }
        requires few { (1 ≤ length calls.items) × (length calls.items ≤ block_limit) }
        ensures machine { caller.new.machine ≡ self.now }
        ensures number { caller.new.number ≡ caller.old.number }
        ensures bounds { caller.new.bounds ≡ caller.old.bounds }
        ensures idle { IsIdle caller.new }
        ensures later { Begins caller.old.seen caller.new.seen }
        ensures rests { Rests caller.new }
        ensures notes { KeepsNotes caller.old caller.new }
        ensures answered { IfOk result (λ answer.
            IsBlockAnsweredTo calls.items caller.old caller.new answer.0 (map answer_of answer.1.items)) }
        ensures back { IfErr result (λ refused. refused.0 ≡ calls) }
        ensures record_kept { OnErr result (caller.new.own ≡ caller.old.own) }
    {
        self.call_block_by(&Sequential, rt, alloc, caller, calls)
    }

    /// `call_block`, by an execution policy for the kernels of the calls that it runs.
    #[inline(always)]
    pub fn call_block_by(
        &self,
        execution: &impl Execution,
        rt: &impl Wait,
        alloc: Global,
        caller: &mut Caller,
        calls: Vec<Call>,
    ) -> Result<(u64, Vec<Reply>), (Vec<Call>, OutOfMemory)>
        requires machine { caller.old.machine ≡ self.now }
        requires idle { IsIdle caller.old }
        requires few { (1 ≤ length calls.items) × (length calls.items ≤ block_limit) }
        ensures machine { caller.new.machine ≡ self.now }
        ensures number { caller.new.number ≡ caller.old.number }
        ensures bounds { caller.new.bounds ≡ caller.old.bounds }
        ensures idle { IsIdle caller.new }
        ensures later { Begins caller.old.seen caller.new.seen }
        ensures rests { Rests caller.new }
        ensures notes { KeepsNotes caller.old caller.new }
        ensures answered { IfOk result (λ answer.
            IsBlockAnsweredTo calls.items caller.old caller.new answer.0 (map answer_of answer.1.items)) }
        ensures back { IfErr result (λ refused. refused.0 ≡ calls) }
        ensures record_kept { OnErr result (caller.new.own ≡ caller.old.own) }
    {
        let seat = &mut caller.seat;
        let desk = take_desk(&self.slots, rt, seat);
        run_own_block(
            execution,
            alloc,
            &self.slots,
            seat,
            self.callers,
            desk,
            calls,
        )
    }
}
