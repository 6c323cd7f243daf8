//! Calls that are read once and left again and again.

ghost use Rattle.cvl_port.specs.Ports.{KeepsRest};
ghost use Rattle.std.specs.Prelude.{◌≡◌, [], length, pos};
ghost use Rattle.cvl_port.specs.Lines.{line_task};
ghost use Rattle.cvl_port.specs.Ports.{KeepsAllButPrepared};
ghost use Rattle.cvl_port.specs.Posts.{AnswersBlock, AnswersPost, prepared_task, prepared_tasks};
ghost use Rattle.cvl_c.specs.Preparing.{IsPrepared};
ghost use Rattle.cvl_port.specs.declared.fault.PostFault.TheVariants.{NotPrepared};
ghost use Rattle.cvl_c.specs.Callers.{CallsPort, port_in};
ghost use Rattle.cvl_c.specs.Statuses.{post_answer};

use crate::caller::Caller;
use crate::statuses::{BAD_CALL, NO_MEMORY, SHUT, post_status};
use core::mem::replace_with;
use cvl_text::ReadFault;
use std::alloc::Global;

fn prepare(caller: Caller, args: (Global, &[u8])) -> (Caller, (i32, u64))
    ensures { CallsPort result.1.0 SHUT (port_in caller) (port_in result.0)
        (λ p q. IsPrepared result.1.0 result.1.1 (line_task args.entry.1.now) p q) }
{
    let mut port = match caller.into_port() {
        Ok(port) => port,
        Err(caller) => return (caller, (SHUT, 0)),
    };
    let (alloc, line) = args;
    let told = match port.prepare(alloc, line) {
        Ok(number) => (0, number),
        Err(ReadFault::BadCall) => (BAD_CALL, 0),
        Err(ReadFault::OutOfMemory) => (NO_MEMORY, 0),
    };
    (Caller::of(port), told)
}

/// Keeps the call of a line, to be left again and again without reading it. Its number: they count from 0.
#[unsafe(no_mangle)]
pub extern "C" fn cvl_prepare(
    alloc: Global,
    caller: &mut Caller,
    line: &[u8],
    number: &mut u64,
) -> i32
    ensures { CallsPort result SHUT (port_in caller.old) (port_in caller.new)
        (λ p q. IsPrepared result number.new (line_task line.now) p q) }
{
    let (status, told) = replace_with(caller, (alloc, line), prepare);
    *number = told;
    status
}

fn forget(caller: Caller, _nothing: ()) -> (Caller, i32)
    ensures { CallsPort result.1 SHUT (port_in caller) (port_in result.0)
        (λ p q. (result.1 ≡ pos 0) × (q.prepared.items ≡ []) × KeepsAllButPrepared p q) }
{
    let mut port = match caller.into_port() {
        Ok(port) => port,
        Err(caller) => return (caller, SHUT),
    };
    port.forget();
    (Caller::of(port), 0)
}

/// Forgets all prepared calls.
#[unsafe(no_mangle)]
pub extern "C" fn cvl_forget(caller: &mut Caller) -> i32
    ensures { CallsPort result SHUT (port_in caller.old) (port_in caller.new)
        (λ p q. (result ≡ pos 0) × (q.prepared.items ≡ []) × KeepsAllButPrepared p q) }
{
    replace_with(caller, (), forget)
}

fn post_prepared(caller: Caller, args: (Global, u64)) -> (Caller, i32)
    ensures { CallsPort result.1 SHUT (port_in caller) (port_in result.0)
        (λ p q. AnswersPost (post_answer result.1) NotPrepared (prepared_task p.prepared.items args.1) p.caller q.caller × KeepsRest p q) }
{
    let mut port = match caller.into_port() {
        Ok(port) => port,
        Err(caller) => return (caller, SHUT),
    };
    let (alloc, number) = args;
    let answer = port.post_prepared(alloc, number);
    (Caller::of(port), post_status(answer))
}

/// Leaves the prepared call of a number.
#[unsafe(no_mangle)]
pub extern "C" fn cvl_post_prepared(alloc: Global, caller: &mut Caller, number: u64) -> i32
    ensures { CallsPort result SHUT (port_in caller.old) (port_in caller.new)
        (λ p q. AnswersPost (post_answer result) NotPrepared (prepared_task p.prepared.items number) p.caller q.caller × KeepsRest p q) }
{
    replace_with(caller, (alloc, number), post_prepared)
}

fn post_prepared_block(caller: Caller, args: (Global, &[u64])) -> (Caller, i32)
    ensures { CallsPort result.1 SHUT (port_in caller) (port_in result.0)
        (λ p q. AnswersBlock (post_answer result.1) NotPrepared (prepared_tasks p.prepared.items args.entry.1.now) p.caller q.caller × KeepsRest p q) }
{
    let mut port = match caller.into_port() {
        Ok(port) => port,
        Err(caller) => return (caller, SHUT),
    };
    let (alloc, numbers) = args;
    let answer = port.post_prepared_block(alloc, numbers);
    (Caller::of(port), post_status(answer))
}

/// Leaves the prepared calls of some numbers as a block.
#[unsafe(no_mangle)]
pub extern "C" fn cvl_post_prepared_block(
    alloc: Global,
    caller: &mut Caller,
    numbers: &[u64],
) -> i32
    ensures { CallsPort result SHUT (port_in caller.old) (port_in caller.new)
        (λ p q. AnswersBlock (post_answer result) NotPrepared (prepared_tasks p.prepared.items numbers.now) p.caller q.caller × KeepsRest p q) }
{
    replace_with(caller, (alloc, numbers), post_prepared_block)
}
