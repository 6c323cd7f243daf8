//! Calls from arrays, without a text.

ghost use Rattle.std.specs.Prelude.{◌≡◌, map, IfOk};
ghost use Rattle.cvl_text.specs.Tasks.{task_of};
ghost use Rattle.cvl_port.specs.Ports.{KeepsRest};
ghost use Rattle.cvl_port.specs.Posts.{AnswersBlock, AnswersPost, bools_set, ints_set, segment_tasks, segments_set, value_asked};
ghost use Rattle.cvl_port.specs.declared.fault.PostFault.TheVariants.{BadName};

use crate::fault::PostFault;
use crate::port::Port;
use cvl_text::Call;
use std::alloc::Global;
use vector_memory::{Name, OutOfMemory};

/// The calls that set a name to a segment list of these lengths.
fn segment_calls(alloc: Global, to: Name, lengths: &[i64]) -> Result<Vec<Call>, OutOfMemory>
    ensures { IfOk result (λ calls. map task_of calls.items ≡ segment_tasks lengths.now to) }
{
    let mut calls = Vec::with_capacity(alloc, 2)?;
    calls.push(Call::SetInts {
        to,
        items: lengths.to_vec(alloc)?,
    })?;
    calls.push(Call::MakeSegs { to, a: to })?;
    Ok(calls)
}

impl Port {
    /// Leaves the call that sets a name to these integers.
    pub fn post_ints(&mut self, alloc: Global, name: &[u8], items: &[i64]) -> Result<(), PostFault>
        ensures answers { AnswersPost result BadName (ints_set name.now items.now) self.old.caller self.new.caller }
        ensures rest { KeepsRest self.old self.new }
    {
        let Some(to) = Name::read(name) else {
            return Err(PostFault::BadName);
        };
        let Ok(items) = items.to_vec(alloc) else {
            return Err(PostFault::OutOfMemory);
        };
        self.post(Call::SetInts { to, items })
    }

    /// Leaves the call that sets a name to these truth values.
    pub fn post_bools(
        &mut self,
        alloc: Global,
        name: &[u8],
        items: &[bool],
    ) -> Result<(), PostFault>
        ensures answers { AnswersPost result BadName (bools_set name.now items.now) self.old.caller self.new.caller }
        ensures rest { KeepsRest self.old self.new }
    {
        let Some(to) = Name::read(name) else {
            return Err(PostFault::BadName);
        };
        let Ok(items) = items.to_vec(alloc) else {
            return Err(PostFault::OutOfMemory);
        };
        self.post(Call::SetBools { to, items })
    }

    /// Leaves the block of two calls that sets a name to the segment list of these lengths: its first call sets the name to them as
    /// integers, the second makes the segment list.
    pub fn post_lengths(
        &mut self,
        alloc: Global,
        name: &[u8],
        lengths: &[i64],
    ) -> Result<(), PostFault>
        ensures answers { AnswersBlock result BadName (segments_set name.now lengths.now) self.old.caller self.new.caller }
        ensures rest { KeepsRest self.old self.new }
    {
        let Some(to) = Name::read(name) else {
            return Err(PostFault::BadName);
        };
        let Ok(calls) = segment_calls(alloc, to, lengths) else {
            return Err(PostFault::OutOfMemory);
        };
        self.post_block(calls)
    }

    /// Leaves the call that asks for the value of a name.
    pub fn post_get(&mut self, name: &[u8]) -> Result<(), PostFault>
        ensures answers { AnswersPost result BadName (value_asked name.now) self.old.caller self.new.caller }
        ensures rest { KeepsRest self.old self.new }
    {
        let Some(a) = Name::read(name) else {
            return Err(PostFault::BadName);
        };
        self.post(Call::Get { a })
    }
}
