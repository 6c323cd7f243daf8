//! Calls and blocks that a port leaves.

ghost use Rattle.std.specs.Prelude.{◌≡◌, ◌≢◌, length, map, Some, OnErr};
ghost use Rattle.cvl_text.specs.Tasks.{task_of};
ghost use Rattle.cvl_port.specs.Lines.{line_task, tasks_in};
ghost use Rattle.cvl_port.specs.Ports.{KeepsRest};
ghost use Rattle.cvl_port.specs.Posts.{AnswersBlock, AnswersPost};
ghost use Rattle.cvl_port.specs.declared.fault.PostFault.TheVariants.{BadCall, Occupied, OutOfMemory};

use crate::fault::PostFault;
use crate::lines::calls_in;
use crate::port::Port;
use call_history::BLOCK_LIMIT;
use cvl_text::Call;
use std::alloc::Global;

impl Port {
    /// Leaves a call, where nothing is left yet.
    pub fn post(&mut self, call: Call) -> Result<(), PostFault>
        ensures answers { AnswersPost result BadCall (Some (task_of call)) self.old.caller self.new.caller }
        ensures occupied { OnErr result (result ≡ Err Occupied) }
        ensures rest { KeepsRest self.old self.new }
    {
        let Ok(()) = self.machine.post(&mut self.caller, call) else {
            return Err(PostFault::Occupied);
        };
        Ok(())
    }

    /// Leaves a block of calls, which take effect together, where nothing is left yet.
    pub fn post_block(&mut self, calls: Vec<Call>) -> Result<(), PostFault>
        ensures answers { AnswersBlock result BadCall (Some (map task_of calls.items)) self.old.caller self.new.caller }
        ensures sure { result ≢ Err OutOfMemory }
        ensures rest { KeepsRest self.old self.new }
    {
        if calls.is_empty() || calls.len() > BLOCK_LIMIT {
            return Err(PostFault::BadCount);
        }
        let Ok(()) = self.machine.post_block(&mut self.caller, calls) else {
            return Err(PostFault::Occupied);
        };
        Ok(())
    }

    /// Leaves the call of a line.
    pub fn post_line(&mut self, alloc: Global, line: &[u8]) -> Result<(), PostFault>
        ensures answers { AnswersPost result BadCall (line_task line.now) self.old.caller self.new.caller }
        ensures rest { KeepsRest self.old self.new }
    {
        let call = Call::read(alloc, line)?;
        self.post(call)
    }

    /// Leaves the calls of the lines of a text, as a block.
    pub fn post_lines(&mut self, alloc: Global, text: &[u8]) -> Result<(), PostFault>
        ensures answers { AnswersBlock result BadCall (tasks_in text.now) self.old.caller self.new.caller }
        ensures rest { KeepsRest self.old self.new }
    {
        let calls = calls_in(alloc, text)?;
        self.post_block(calls)
    }
}
