//! The calls of a machine that no call of a program stands for: serve, poll, look.

ghost use Rattle.std.specs.Prelude.{◌≡◌, ◌<◌, ◌≤◌, length};
ghost use Rattle.std.specs.Arc.{arc_value};
ghost use Rattle.call_history.specs.Blocks.{Whole};
ghost use Rattle.call_history.specs.History.{Begins};
ghost use Rattle.combiner.specs.Cases.{OnBusy, OnServed, IfServed};
ghost use Rattle.combiner.specs.Standing.{IsIdle, IsOfCallers, callers_of};
ghost use Rattle.combiner.specs.Says.{MeetsAnother, seeing, serving};
ghost use Rattle.combiner.specs.Serving.{ServesBatch};
ghost use Rattle.cvl_port.specs.Ports.{IsTold, KeepsReplies, KeepsRest, Steps};

use crate::answers::Told;
use crate::last::Last;
use crate::port::Port;
use combiner::{Combined, Polled};
use scan_kernels::Sequential;
use std::alloc::Global;

impl Port {
    /// Serves all calls and blocks that are left, as one batch, unless another caller has the book, which cannot be with one
    /// caller. Kernels run in the calling thread.
    pub fn serve(&mut self, alloc: Global) -> Combined
        ensures busy { OnBusy result (MeetsAnother self.old.caller self.new.caller) }
        ensures not_alone { OnBusy result (1 < callers_of self.old.caller.machine) }
        ensures served { IfServed result (λ calls waves kernels. self.new.caller ≡ serving self.old.caller self.new.caller.seen calls) }
        ensures later { OnServed result (Begins self.old.caller.seen self.new.caller.seen) }
        ensures batch { IfServed result
            (ServesBatch self.old.caller.bounds (callers_of self.old.caller.machine) self.old.caller.seen self.new.caller.seen) }
        ensures few_waves { IfServed result (λ calls waves kernels. waves ≤ calls) }
        ensures few { IfServed result (λ calls waves kernels. calls ≤ callers_of self.old.caller.machine) }
        ensures rest { KeepsRest self.old self.new }
    {
        self.machine.combine(&Sequential, alloc, &mut self.caller)
    }

    /// What became of the call or of the block that was left.
    pub fn poll(&mut self) -> Told
        ensures told { IsTold result self.old.caller self.new.caller self.new.place self.new.last }
        ensures kept { KeepsReplies result self.old self.new }
        ensures machine { self.new.machine ≡ self.old.machine }
        ensures prepared { self.new.prepared ≡ self.old.prepared }
    {
        match self.machine.poll(&mut self.caller) {
            Polled::Idle => Told::Idle,
            Polled::Waiting => Told::Waiting,
            Polled::Answered { place, reply } => {
                self.place = place;
                self.last = Last::One(reply);
                Told::Answered
            }
            Polled::AnsweredBlock { place, replies } => {
                self.place = place;
                self.last = Last::Many(replies);
                Told::AnsweredBlock
            }
            Polled::OutOfMemory(_) => Told::OutOfMemory,
            Polled::OutOfMemoryBlock(_) => Told::OutOfMemory,
        }
    }

    /// Serves if it can, and tells what became of what was left.
    pub fn step(&mut self, alloc: Global) -> Told
        ensures told { Steps result self.old.caller self.new.caller self.new.place self.new.last }
        ensures kept { KeepsReplies result self.old self.new }
        ensures machine { self.new.machine ≡ self.old.machine }
        ensures prepared { self.new.prepared ≡ self.old.prepared }
    {
        let _served = self.serve(alloc);
        self.poll()
    }

    /// The length of the history, all of which the caller has then seen: calls of callers of the machine alone, and no block
    /// cut. With one caller, which is idle, that is how many of its calls were answered.
    pub fn look(&mut self) -> u64
        ensures length { result ≡ length self.new.caller.seen }
        ensures later { Begins self.old.caller.seen self.new.caller.seen }
        ensures no_strangers { IsOfCallers (callers_of self.old.caller.machine) self.new.caller.seen }
        ensures whole { Whole self.new.caller.seen }
        ensures alone { callers_of self.old.caller.machine ≡ 1 → IsIdle self.old.caller → result ≡ length self.new.caller.own }
        ensures front { self.new.caller ≡ seeing self.old.caller self.new.caller.seen }
        ensures rest { KeepsRest self.old self.new }
    {
        self.machine.look(&mut self.caller)
    }
}
