ghost use Rattle.std.specs.Prelude.{◌≡◌, false};
ghost use Rattle.combiner.specs.Standing.{IsIdle, HasLeft, Rests};
ghost use Rattle.combiner.specs.Cases.{OnIdle, OnWaiting, IfAnswered, IfBack, IfBlockAnswered, IfBlockBack};
ghost use Rattle.combiner.specs.Says.{IsAnswered, IsBlockAnswered, IsBlockGivenBack, IsGivenBack};

use crate::answers::Polled;
use crate::caller::Caller;
use crate::shared::Shared;
use call_history::Outcome;

impl Shared {
    /// What became of the call or of the block that the caller left. It does not wait, and a settled caller is never told to.
    pub fn poll(&self, caller: &mut Caller) -> Polled
        requires { caller.old.machine ≡ self.now }
        ensures machine { caller.new.machine ≡ self.now }
        ensures idle { OnIdle result (IsIdle caller.old × (caller.new ≡ caller.old)) }
        ensures waiting { OnWaiting result (HasLeft caller.old × (caller.new ≡ caller.old)) }
        ensures unsettled { OnWaiting result (caller.old.settled ≡ false) }
        ensures answered { IfAnswered result (IsAnswered caller.old caller.new) }
        ensures back { IfBack result (IsGivenBack caller.old caller.new) }
        ensures block_answered { IfBlockAnswered result (IsBlockAnswered caller.old caller.new) }
        ensures block_back { IfBlockBack result (IsBlockGivenBack caller.old caller.new) }
        ensures rests { Rests caller.new }
    {
        if caller.seat.is_idle() {
            return Polled::Idle;
        }
        let Some(outcome) = self.slots.step_collect(&mut caller.seat) else {
            return Polled::Waiting;
        };
        match outcome {
            Outcome::Answered { place, reply } => Polled::Answered { place, reply },
            Outcome::Refused(call) => Polled::OutOfMemory(call),
            Outcome::AnsweredBlock { place, replies } => Polled::AnsweredBlock { place, replies },
            Outcome::RefusedBlock(calls) => Polled::OutOfMemoryBlock(calls),
        }
    }
}
