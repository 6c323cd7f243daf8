//! A block of a script that is open.

ghost use Rattle.std.specs.Prelude.{◌<◌, ◌≤◌, length};
ghost use Rattle.call_history.specs.Blocks.{block_limit};
ghost use Rattle.call_history.specs.Callers.{caller_limit};

use crate::line::{LineFault, ask_in, is_alone, read_call};
use call_history::{BLOCK_LIMIT, CALLER_LIMIT};
use cvl_text::Call;
use std::alloc::Global;
use std::mem;
use vector_memory::Edition;

/// A block that is open: whose it is, and its calls so far.
#[derive(Drop)]
pub struct OpenBlock {
    pub(crate) caller: u64,
    pub(crate) calls: Vec<Call>,
    ghost lawful: { caller < caller_limit },
    ghost few: { length calls.items ≤ block_limit },
}

impl OpenBlock {
    ghost use Rattle.std.specs.Prelude.{[], ◌∷◌, ◌++◌, ◌≡◌, Ok, Err, Some, IfOk, OnOk, OnErr, map, true};
    ghost use Rattle.cvl_text.specs.Tasks.{task_of};
    ghost use Rattle.cvl_text.specs.Lines.{task_in};
    ghost use Rattle.cvl_text.specs.Words.{words_of};
    ghost use Rattle.script_lines.specs.Scripts.{closed, one_more, plain_line};
    ghost use Rattle.script_lines.specs.Stages.{stage_in, IsAdded, IsTaken};

    /// A block without calls.
    pub(crate) fn new(alloc: Global, caller: u64) -> OpenBlock
        requires { caller < CALLER_LIMIT }
        ensures caller { result.caller ≡ caller }
        ensures calls { result.calls.items ≡ [] }
    {
        OpenBlock {
            caller,
            calls: Vec::new(alloc),
        }
    }

    /// Adds the call that a text asks for, where there are not as many as a block may have.
    fn add(&mut self, alloc: Global, text: &[u8]) -> Result<(), LineFault>
        ensures added { IsAdded result self.old self.new
            (one_more (map task_of self.old.calls.items) (task_in Edition.Two (words_of text.now))) }
        ensures kept { OnErr result (stage_in self.new ≡ stage_in self.old) }
    {
        if self.calls.len() >= BLOCK_LIMIT {
            return Err(LineFault::Bad);
        }
        let call = read_call(alloc, Edition::Two, text)?;
        match self.calls.push(call) {
            Ok(()) => Ok(()),
            Err(_) => Err(LineFault::OutOfMemory),
        }
    }

    /// Gives the calls out, if there are some.
    fn close(&mut self, alloc: Global) -> Result<Option<Vec<Call>>, LineFault>
        ensures taken { IsTaken result self.old self.new (closed self.old.caller (map task_of self.old.calls.items)) }
        ensures kept { OnErr result (stage_in self.new ≡ stage_in self.old) }
    {
        if self.calls.is_empty() {
            return Err(LineFault::Bad);
        }
        Ok(Some(mem::replace(&mut self.calls, Vec::new(alloc))))
    }

    /// Goes on by a line. The line that closes the block gives its calls out.
    pub(crate) fn take(
        &mut self,
        alloc: Global,
        line: &[u8],
    ) -> Result<Option<Vec<Call>>, LineFault>
        ensures taken { IsTaken result self.old self.new (plain_line (stage_in self.old) line.now) }
        ensures kept { OnErr result (stage_in self.new ≡ stage_in self.old) }
    {
        let Some((caller, text)) = ask_in(line)? else {
            return Ok(None);
        };
        if u64::from(caller) != self.caller {
            return Err(LineFault::Bad);
        }
        if is_alone(text, b"}") {
            return self.close(alloc);
        }
        self.add(alloc, text)?;
        Ok(None)
    }
}
