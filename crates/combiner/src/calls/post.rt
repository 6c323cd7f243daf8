ghost use Rattle.std.specs.Prelude.{◌≡◌, ◌≤◌, IfErr, OnOk, OnErr, length};
ghost use Rattle.call_history.specs.Blocks.{block_limit};
ghost use Rattle.call_history.specs.Fits.{IsLawfulJob};
ghost use Rattle.combiner.specs.Standing.{IsIdle, HasLeft};
ghost use Rattle.combiner.specs.Says.{leaving, leaving_block, leaving_job};

use crate::answers::{Occupied, OccupiedBlock};
use crate::caller::Caller;
use crate::shared::Shared;
use call_history::Job;
use cvl_text::Call;

impl Shared {
    /// Leaves a call, where nothing is left yet, and else hands it back. It does not wait.
    pub fn post(&self, caller: &mut Caller, call: Call) -> Result<(), Occupied>
        requires { caller.old.machine ≡ self.now }
        ensures machine { caller.new.machine ≡ self.now }
        ensures idle { OnOk result (IsIdle caller.old) }
        ensures left { OnOk result (caller.new ≡ leaving caller.old call) }
        ensures occupied { OnErr result (HasLeft caller.old) }
        ensures back { IfErr result (λ occupied. occupied.0 ≡ call) }
        ensures unchanged { OnErr result (caller.new ≡ caller.old) }
    {
        if !caller.seat.is_idle() {
            return Err(Occupied(call));
        }
        self.leave_call(caller, call);
        Ok(())
    }

    /// Leaves a block of calls, 1 to `BLOCK_LIMIT`, which take effect together, where nothing is left yet, and else hands it back.
    /// It does not wait.
    pub fn post_block(&self, caller: &mut Caller, calls: Vec<Call>) -> Result<(), OccupiedBlock>
        requires machine { caller.old.machine ≡ self.now }
        requires few { (1 ≤ length calls.items) × (length calls.items ≤ block_limit) }
        ensures machine { caller.new.machine ≡ self.now }
        ensures idle { OnOk result (IsIdle caller.old) }
        ensures left { OnOk result (caller.new ≡ leaving_block caller.old calls) }
        ensures occupied { OnErr result (HasLeft caller.old) }
        ensures back { IfErr result (λ occupied. occupied.0 ≡ calls) }
        ensures unchanged { OnErr result (caller.new ≡ caller.old) }
    {
        if !caller.seat.is_idle() {
            return Err(OccupiedBlock(calls));
        }
        self.leave(caller, Job::Many(calls));
        Ok(())
    }

    /// Leaves a call, of a caller that is idle.
    #[inline(always)]
    pub(crate) fn leave_call(&self, caller: &mut Caller, call: Call)
        requires machine { caller.old.machine ≡ self.now }
        requires idle { IsIdle caller.old }
        ensures machine { caller.new.machine ≡ self.now }
        ensures left { caller.new ≡ leaving caller.old call }
    {
        self.leave(caller, Job::One(call));
    }

    /// Leaves a job, of a caller that is idle.
    #[inline(always)]
    fn leave(&self, caller: &mut Caller, job: Job)
        requires machine { caller.old.machine ≡ self.now }
        requires idle { IsIdle caller.old }
        requires lawful { IsLawfulJob job }
        ensures machine { caller.new.machine ≡ self.now }
        ensures left { caller.new ≡ leaving_job caller.old job }
    {
        self.slots.step_post(&mut caller.seat, job);
    }
}
