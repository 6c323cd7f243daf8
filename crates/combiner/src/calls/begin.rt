ghost use Rattle.std.specs.Prelude.{◌≡◌};
ghost use Rattle.combiner.specs.Own.{IsBegun};
ghost use Rattle.combiner.specs.Standing.{IsIdle, Rests};

use crate::answers::Polled;
use crate::caller::Caller;
use crate::own::run_own;
use crate::shared::Shared;
use cvl_text::Call;
use scan_kernels::Execution;
use std::alloc::Global;
use vector_memory::OutOfMemory;

impl Shared {
    /// Runs a call at once if the book is free, and serves what others left, and else leaves it: its caller then serves and asks. A
    /// caller whose last call was served by another leaves its call. It does not wait, and answers as `poll` does: `Waiting` where
    /// the call is left. For want of memory the call comes back, and stands in no history.
    #[inline(always)]
    pub fn begin(
        &self,
        execution: &impl Execution,
        alloc: Global,
        caller: &mut Caller,
        call: Call,
    ) -> Polled
        requires machine { caller.old.machine ≡ self.now }
        requires idle { IsIdle caller.old }
        ensures machine { caller.new.machine ≡ self.now }
        ensures begun { IsBegun call caller.old caller.new result }
        ensures rests { Rests caller.new }
    {
        if caller.leads {
            let seat = &mut caller.seat;
            if let Some(desk) = self.slots.step_lock(seat) {
                return match run_own(
                    execution,
                    alloc,
                    &self.slots,
                    seat,
                    self.callers,
                    desk,
                    call,
                ) {
                    Ok((place, reply)) => Polled::Answered { place, reply },
                    Err((call, OutOfMemory)) => Polled::OutOfMemory(call),
                };
            }
        }
        caller.leads = false;
        self.leave_call(caller, call);
        Polled::Waiting
    }
}
