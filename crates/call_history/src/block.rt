//! The calls of a block: run one by one in a memory, and written behind a history.

ghost use Rattle.std.specs.Prelude.{◌≡◌, ◌+◌, ◌++◌, ◌≤◌, ◌<◌, IsTrue, is_some, length, map, OnOk, vec_len, vec_capacity};
ghost use Rattle.scan_kernels.specs.Metering.{Metered};
ghost use Rattle.vector_memory.specs.States.{changes_left, ended, undone};
ghost use Rattle.cvl_text.specs.Answers.{answer_of};
ghost use Rattle.call_history.specs.Blocks.{RisesBy, after, block_entries, block_limit, metered, replies_to};
ghost use Rattle.call_history.specs.Callers.{AreTickets, HasLawfulCallers, IsTicketed};

use crate::book::{CALLER_LIMIT, enter};
use crate::log::Log;
use cvl_calls::{Spare, step_with};
use cvl_text::{Call, Reply};
use scan_kernels::{Execution, Meter};
use std::alloc::Global;
use vector_memory::{Memory, OutOfMemory};

/// Runs calls one by one in a memory in which a block with a change for each has begun. Their replies go behind those that are
/// there. A want of memory ends the run within the block.
pub(crate) fn run_each(
    execution: &impl Execution,
    alloc: Global,
    meter: &mut Meter,
    spare: &mut Spare,
    memory: &mut Memory,
    calls: &[Call],
    replies: &mut Vec<Reply>,
) -> Result<(), OutOfMemory>
    requires in_block { IsTrue (is_some memory.old.block) }
    requires changes { length calls.now ≤ changes_left memory.old }
    requires space { vec_len replies.old + length calls.now ≤ vec_capacity replies.old }
    ensures memory { OnOk result (ended memory.new ≡ after (ended memory.old) calls.now) }
    ensures replies { OnOk result (map answer_of replies.new.items ≡ map answer_of replies.old.items ++ replies_to (ended memory.old) calls.now) }
    ensures counted { OnOk result (meter.new ≡ metered (ended memory.old) calls.now meter.old) }
    ensures rises { RisesBy (length calls.now) meter.old meter.new }
    ensures in_block { IsTrue (is_some memory.new.block) }
    ensures before { undone memory.new ≡ undone memory.old }
{
    for call in calls {
        let reply = step_with(execution, alloc, meter, spare, memory, call)?;
        replies.push_reserved(reply);
    }
    Ok(())
}

/// Writes the calls of a block behind the entries, with the caller's next tickets, and answers the place of the first.
pub(crate) fn enter_each(
    log: &mut Log,
    tickets: &mut Box<[u64; CALLER_LIMIT]>,
    caller: u64,
    calls: Vec<Call>,
) -> u64
    requires caller { caller < CALLER_LIMIT }
    requires few { length calls.items ≤ block_limit }
    requires space { length calls.items ≤ log.old.spaces }
    requires counted { AreTickets tickets.old.value log.old.entries }
    requires ticketed { IsTicketed log.old.entries }
    requires lawful_callers { HasLawfulCallers log.old.entries }
    ensures place { result ≡ length log.old.entries }
    ensures entries { log.new.entries ≡ log.old.entries ++ block_entries log.old.entries caller calls.items }
    ensures spaces { log.old.spaces ≤ log.new.spaces + length calls.items }
    ensures counted { AreTickets tickets.new.value log.new.entries }
    ensures ticketed { IsTicketed log.new.entries }
    ensures lawful_callers { HasLawfulCallers log.new.entries }
{
    let place = log.len() as u64;
    let mut rest = calls.len() as u64;
    for call in calls {
        rest -= 1;
        enter(log, tickets, caller, call, rest);
    }
    place
}
