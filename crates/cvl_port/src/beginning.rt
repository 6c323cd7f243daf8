//! Calls that run at once where the book is free.

ghost use Rattle.std.specs.Prelude.{◌≡◌, Some};
ghost use Rattle.cvl_text.specs.Tasks.{task_of};
ghost use Rattle.cvl_port.specs.Begun.{AnswersBegin};
ghost use Rattle.cvl_port.specs.Lines.{line_task};
ghost use Rattle.cvl_port.specs.Posts.{prepared_task};
ghost use Rattle.cvl_port.specs.declared.fault.PostFault.TheVariants.{BadCall, NotPrepared};

use crate::copying::copy_flat;
use crate::fault::PostFault;
use crate::last::Last;
use crate::port::Port;
use crate::preparing::{copied, prepared};
use call_history::is_owning;
use combiner::Polled;
use cvl_text::Call;
use scan_kernels::Sequential;
use std::alloc::Global;

impl Port {
    /// Begins a call, where nothing is left yet: it runs at once if no other caller has the book, and else it is left. Whether it was
    /// answered at once; place and reply then lie in the port. Kernels run in the calling thread.
    pub fn begin(&mut self, alloc: Global, call: Call) -> Result<bool, PostFault>
        ensures begun { AnswersBegin result BadCall (Some (task_of call)) self.old self.new }
        ensures machine { self.new.machine ≡ self.old.machine }
        ensures prepared { self.new.prepared ≡ self.old.prepared }
    {
        if !self.caller.is_idle() {
            return Err(PostFault::Occupied);
        }
        match self
            .machine
            .begin(&Sequential, alloc, &mut self.caller, call)
        {
            Polled::Answered { place, reply } => {
                self.place = place;
                self.last = Last::One(reply);
                Ok(true)
            }
            Polled::Waiting => Ok(false),
            Polled::OutOfMemory(_) => Err(PostFault::OutOfMemory),
            Polled::Idle => unreachable!(),
            Polled::AnsweredBlock { .. } => unreachable!(),
            Polled::OutOfMemoryBlock(_) => unreachable!(),
        }
    }

    /// Begins the call of a line.
    pub fn begin_line(&mut self, alloc: Global, line: &[u8]) -> Result<bool, PostFault>
        ensures begun { AnswersBegin result BadCall (line_task line.now) self.old self.new }
        ensures machine { self.new.machine ≡ self.old.machine }
        ensures prepared { self.new.prepared ≡ self.old.prepared }
    {
        let call = Call::read(alloc, line)?;
        self.begin(alloc, call)
    }

    /// Begins the prepared call of a number.
    pub fn begin_prepared(&mut self, alloc: Global, number: u64) -> Result<bool, PostFault>
        ensures begun { AnswersBegin result NotPrepared (prepared_task self.old.prepared.items number) self.old self.new }
        ensures machine { self.new.machine ≡ self.old.machine }
        ensures prepared { self.new.prepared ≡ self.old.prepared }
    {
        let Some(call) = prepared(&self.prepared, number) else {
            return Err(PostFault::NotPrepared);
        };
        if is_owning(call) {
            return self.begin_owning(alloc, number);
        }
        let call = copy_flat(call);
        self.begin(alloc, call)
    }

    /// The same of a call with items or names behind a pointer.
    #[inline(never)]
    fn begin_owning(&mut self, alloc: Global, number: u64) -> Result<bool, PostFault>
        ensures begun { AnswersBegin result NotPrepared (prepared_task self.old.prepared.items number) self.old self.new }
        ensures machine { self.new.machine ≡ self.old.machine }
        ensures prepared { self.new.prepared ≡ self.old.prepared }
    {
        let call = copied(alloc, &self.prepared, number)?;
        self.begin(alloc, call)
    }
}
