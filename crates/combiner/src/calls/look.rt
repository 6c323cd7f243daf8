ghost use Rattle.std.specs.Prelude.{◌≡◌, length};
ghost use Rattle.call_history.specs.Blocks.{Whole};
ghost use Rattle.call_history.specs.History.{Begins};
ghost use Rattle.combiner.specs.Standing.{callers_of, IsIdle, Rests, IsOfCallers};
ghost use Rattle.combiner.specs.Says.{seeing, longer_seen};

use crate::caller::Caller;
use crate::shared::Shared;

impl Shared {
    /// The length of the history, all of which the caller has then seen: calls of callers of the machine alone, and no block cut.
    /// With one caller, which is idle, that is how many of its calls were answered. It does not wait.
    pub fn look(&self, caller: &mut Caller) -> u64
        requires { caller.old.machine ≡ self.now }
        ensures machine { caller.new.machine ≡ self.now }
        ensures length { result ≡ length caller.new.seen }
        ensures later { Begins caller.old.seen caller.new.seen }
        ensures no_strangers { IsOfCallers (callers_of self.now) caller.new.seen }
        ensures whole { Whole caller.new.seen }
        ensures alone { callers_of self.now ≡ 1 → IsIdle caller.old → result ≡ length caller.new.own }
        ensures front { caller.new ≡ seeing caller.old caller.new.seen }
        ensures rests { Rests caller.new }
    {
        self.slots.step_look(&mut caller.seat)
    }

    /// Both callers have then seen the longer of what each had seen, which begins with both and cuts no block. It does not wait.
    pub fn meet(&self, one: &mut Caller, other: &mut Caller)
        requires one { one.old.machine ≡ self.now }
        requires other { other.old.machine ≡ self.now }
        ensures one_machine { one.new.machine ≡ self.now }
        ensures other_machine { other.new.machine ≡ self.now }
        ensures one { one.new ≡ seeing one.old (longer_seen one.old other.old) }
        ensures other { other.new ≡ seeing other.old (longer_seen one.old other.old) }
        ensures one_later { Begins one.old.seen (longer_seen one.old other.old) }
        ensures other_later { Begins other.old.seen (longer_seen one.old other.old) }
        ensures whole { Whole (longer_seen one.old other.old) }
        ensures one_rests { Rests one.new }
        ensures other_rests { Rests other.new }
    {
        self.slots.step_meet(&mut one.seat, &mut other.seat);
        self.slots.step_meet(&mut other.seat, &mut one.seat);
    }
}
