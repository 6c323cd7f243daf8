//! Calls and blocks that are left by their text.

ghost use Rattle.cvl_port.specs.Ports.{KeepsRest};
ghost use Rattle.cvl_port.specs.Lines.{line_task, tasks_in};
ghost use Rattle.cvl_port.specs.Posts.{AnswersBlock, AnswersPost};
ghost use Rattle.cvl_port.specs.declared.fault.PostFault.TheVariants.{BadCall};
ghost use Rattle.cvl_c.specs.Callers.{CallsPort, port_in};
ghost use Rattle.cvl_c.specs.Statuses.{post_answer};

use crate::caller::Caller;
use crate::statuses::{SHUT, post_status};
use core::mem::replace_with;
use std::alloc::Global;

fn post(caller: Caller, args: (Global, &[u8])) -> (Caller, i32)
    ensures { CallsPort result.1 SHUT (port_in caller) (port_in result.0)
        (λ p q. AnswersPost (post_answer result.1) BadCall (line_task args.entry.1.now) p.caller q.caller × KeepsRest p q) }
{
    let mut port = match caller.into_port() {
        Ok(port) => port,
        Err(caller) => return (caller, SHUT),
    };
    let (alloc, line) = args;
    let answer = port.post_line(alloc, line);
    (Caller::of(port), post_status(answer))
}

/// Leaves the call of a line, where nothing is left yet.
#[unsafe(no_mangle)]
pub extern "C" fn cvl_post(alloc: Global, caller: &mut Caller, line: &[u8]) -> i32
    ensures { CallsPort result SHUT (port_in caller.old) (port_in caller.new)
        (λ p q. AnswersPost (post_answer result) BadCall (line_task line.now) p.caller q.caller × KeepsRest p q) }
{
    replace_with(caller, (alloc, line), post)
}

fn post_block(caller: Caller, args: (Global, &[u8])) -> (Caller, i32)
    ensures { CallsPort result.1 SHUT (port_in caller) (port_in result.0)
        (λ p q. AnswersBlock (post_answer result.1) BadCall (tasks_in args.entry.1.now) p.caller q.caller × KeepsRest p q) }
{
    let mut port = match caller.into_port() {
        Ok(port) => port,
        Err(caller) => return (caller, SHUT),
    };
    let (alloc, text) = args;
    let answer = port.post_lines(alloc, text);
    (Caller::of(port), post_status(answer))
}

/// Leaves the calls of the lines of a text as a block, where nothing is left yet.
#[unsafe(no_mangle)]
pub extern "C" fn cvl_post_block(alloc: Global, caller: &mut Caller, text: &[u8]) -> i32
    ensures { CallsPort result SHUT (port_in caller.old) (port_in caller.new)
        (λ p q. AnswersBlock (post_answer result) BadCall (tasks_in text.now) p.caller q.caller × KeepsRest p q) }
{
    replace_with(caller, (alloc, text), post_block)
}
