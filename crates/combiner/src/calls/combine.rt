ghost use Rattle.std.specs.Prelude.{◌≡◌, ◌<◌, ◌≤◌};
ghost use Rattle.call_history.specs.History.{Begins};
ghost use Rattle.combiner.specs.Standing.{callers_of, Rests};
ghost use Rattle.combiner.specs.Cases.{OnBusy, OnServed, IfServed};
ghost use Rattle.combiner.specs.Says.{MeetsAnother, serving};
ghost use Rattle.combiner.specs.Serving.{ServesBatch};

use crate::answers::Combined;
use crate::caller::Caller;
use crate::pass::pass;
use crate::shared::Shared;
use scan_kernels::Execution;
use std::alloc::Global;

impl Shared {
    /// Serves all calls and blocks that are left, unless another caller has the book, which cannot be with one caller. It does not wait.
    /// They are one batch: planned in waves, and alike calls of a wave run as one kernel run. The calls of a block run one by one, at
    /// its place in its wave. The caller has then seen the whole history, and if it has left something, it is settled: its next poll
    /// tells what became of that.
    pub fn combine(
        &self,
        execution: &impl Execution,
        alloc: Global,
        caller: &mut Caller,
    ) -> Combined
        requires { caller.old.machine ≡ self.now }
        ensures machine { caller.new.machine ≡ self.now }
        ensures busy { OnBusy result (MeetsAnother caller.old caller.new) }
        ensures not_alone { OnBusy result (1 < callers_of self.now) }
        ensures served { IfServed result (λ calls waves kernels. caller.new ≡ serving caller.old caller.new.seen calls) }
        ensures later { OnServed result (Begins caller.old.seen caller.new.seen) }
        ensures batch { IfServed result
            (ServesBatch caller.old.bounds (callers_of self.now) caller.old.seen caller.new.seen) }
        ensures few_waves { IfServed result (λ calls waves kernels. waves ≤ calls) }
        ensures few { IfServed result (λ calls waves kernels. calls ≤ callers_of self.now) }
        ensures rests { Rests caller.new }
    {
        let Some((count, ran)) = pass(
            execution,
            alloc,
            &self.slots,
            &mut caller.seat,
            self.callers,
        ) else {
            return Combined::Busy;
        };
        caller.leads = true;
        Combined::Served {
            calls: count as u64,
            waves: ran.waves,
            kernels: ran.kernels,
        }
    }
}
