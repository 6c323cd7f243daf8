//! Calls from arrays, without a text.

ghost use Rattle.cvl_port.specs.Ports.{KeepsRest};
ghost use Rattle.cvl_port.specs.Posts.{AnswersBlock, AnswersPost, bools_set, ints_set, segments_set, value_asked};
ghost use Rattle.cvl_port.specs.declared.fault.PostFault.TheVariants.{BadName};
ghost use Rattle.cvl_c.specs.Callers.{CallsPort, port_in};
ghost use Rattle.cvl_c.specs.Statuses.{post_answer};

use crate::caller::Caller;
use crate::statuses::{SHUT, post_status};
use core::mem::replace_with;
use std::alloc::Global;

fn post_ints(caller: Caller, args: (Global, &[u8], &[i64])) -> (Caller, i32)
    ensures { CallsPort result.1 SHUT (port_in caller) (port_in result.0)
        (λ p q. AnswersPost (post_answer result.1) BadName (ints_set args.entry.1.now args.entry.2.now) p.caller q.caller × KeepsRest p q) }
{
    let mut port = match caller.into_port() {
        Ok(port) => port,
        Err(caller) => return (caller, SHUT),
    };
    let (alloc, name, items) = args;
    let answer = port.post_ints(alloc, name, items);
    (Caller::of(port), post_status(answer))
}

/// Leaves the call that sets a name to these integers.
#[unsafe(no_mangle)]
pub extern "C" fn cvl_post_ints(
    alloc: Global,
    caller: &mut Caller,
    name: &[u8],
    items: &[i64],
) -> i32
    ensures { CallsPort result SHUT (port_in caller.old) (port_in caller.new)
        (λ p q. AnswersPost (post_answer result) BadName (ints_set name.now items.now) p.caller q.caller × KeepsRest p q) }
{
    replace_with(caller, (alloc, name, items), post_ints)
}

fn post_bools(caller: Caller, args: (Global, &[u8], &[bool])) -> (Caller, i32)
    ensures { CallsPort result.1 SHUT (port_in caller) (port_in result.0)
        (λ p q. AnswersPost (post_answer result.1) BadName (bools_set args.entry.1.now args.entry.2.now) p.caller q.caller × KeepsRest p q) }
{
    let mut port = match caller.into_port() {
        Ok(port) => port,
        Err(caller) => return (caller, SHUT),
    };
    let (alloc, name, items) = args;
    let answer = port.post_bools(alloc, name, items);
    (Caller::of(port), post_status(answer))
}

/// Leaves the call that sets a name to these truth values.
#[unsafe(no_mangle)]
pub extern "C" fn cvl_post_bools(
    alloc: Global,
    caller: &mut Caller,
    name: &[u8],
    items: &[bool],
) -> i32
    ensures { CallsPort result SHUT (port_in caller.old) (port_in caller.new)
        (λ p q. AnswersPost (post_answer result) BadName (bools_set name.now items.now) p.caller q.caller × KeepsRest p q) }
{
    replace_with(caller, (alloc, name, items), post_bools)
}

fn post_lengths(caller: Caller, args: (Global, &[u8], &[i64])) -> (Caller, i32)
    ensures { CallsPort result.1 SHUT (port_in caller) (port_in result.0)
        (λ p q. AnswersBlock (post_answer result.1) BadName (segments_set args.entry.1.now args.entry.2.now) p.caller q.caller × KeepsRest p q) }
{
    let mut port = match caller.into_port() {
        Ok(port) => port,
        Err(caller) => return (caller, SHUT),
    };
    let (alloc, name, items) = args;
    let answer = port.post_lengths(alloc, name, items);
    (Caller::of(port), post_status(answer))
}

/// Leaves the block of two calls that sets a name to the segment list of these lengths.
#[unsafe(no_mangle)]
pub extern "C" fn cvl_post_lengths(
    alloc: Global,
    caller: &mut Caller,
    name: &[u8],
    items: &[i64],
) -> i32
    ensures { CallsPort result SHUT (port_in caller.old) (port_in caller.new)
        (λ p q. AnswersBlock (post_answer result) BadName (segments_set name.now items.now) p.caller q.caller × KeepsRest p q) }
{
    replace_with(caller, (alloc, name, items), post_lengths)
}

fn post_get(caller: Caller, name: &[u8]) -> (Caller, i32)
    ensures { CallsPort result.1 SHUT (port_in caller) (port_in result.0)
        (λ p q. AnswersPost (post_answer result.1) BadName (value_asked name.now) p.caller q.caller × KeepsRest p q) }
{
    let mut port = match caller.into_port() {
        Ok(port) => port,
        Err(caller) => return (caller, SHUT),
    };
    let answer = port.post_get(name);
    (Caller::of(port), post_status(answer))
}

/// Leaves the call that asks for the value of a name.
#[unsafe(no_mangle)]
pub extern "C" fn cvl_post_get(caller: &mut Caller, name: &[u8]) -> i32
    ensures { CallsPort result SHUT (port_in caller.old) (port_in caller.new)
        (λ p q. AnswersPost (post_answer result) BadName (value_asked name.now) p.caller q.caller × KeepsRest p q) }
{
    replace_with(caller, name, post_get)
}
