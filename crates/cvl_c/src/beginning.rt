//! Calls that run at once where the book is free.

ghost use Rattle.std.specs.Prelude.{◌≡◌};
ghost use Rattle.cvl_port.specs.Begun.{AnswersBegin};
ghost use Rattle.cvl_port.specs.Lines.{line_task};
ghost use Rattle.cvl_port.specs.Posts.{prepared_task};
ghost use Rattle.cvl_port.specs.declared.fault.PostFault.TheVariants.{BadCall, NotPrepared};
ghost use Rattle.cvl_c.specs.Answers.{Shows, shown};
ghost use Rattle.cvl_c.specs.Callers.{CallsPort, port_in};
ghost use Rattle.cvl_c.specs.Statuses.{begin_answer};

use crate::answer::{Answer, shown};
use crate::caller::Caller;
use crate::statuses::{SHUT, begin_status};
use core::mem::replace_with;
use std::alloc::Global;

fn begin(caller: Caller, args: (Global, &[u8])) -> (Caller, (i32, Option<Answer>))
    ensures { CallsPort result.1.0 SHUT (port_in caller) (port_in result.0)
        (λ p q. AnswersBegin (begin_answer result.1.0) BadCall (line_task args.entry.1.now) p q
        × (q.machine ≡ p.machine) × (q.prepared ≡ p.prepared) × (result.1.1 ≡ shown q.place q.last 0)) }
{
    let mut port = match caller.into_port() {
        Ok(port) => port,
        Err(caller) => return (caller, (SHUT, None)),
    };
    let (alloc, line) = args;
    let begun = port.begin_line(alloc, line);
    let first = shown(&port, 0);
    (Caller::of(port), (begin_status(begun), first))
}

/// Begins the call of a line: it runs at once if no other caller has the book, and else it is left. The answer shows the first of the
/// last replies, if there is one.
#[unsafe(no_mangle)]
pub extern "C" fn cvl_begin(
    alloc: Global,
    caller: &mut Caller,
    line: &[u8],
    answer: &mut Answer,
) -> i32
    ensures { CallsPort result SHUT (port_in caller.old) (port_in caller.new)
        (λ p q. AnswersBegin (begin_answer result) BadCall (line_task line.now) p q
        × (q.machine ≡ p.machine) × (q.prepared ≡ p.prepared) × Shows q.place q.last 0 answer.old answer.new) }
{
    let (status, first) = replace_with(caller, (alloc, line), begin);
    if let Some(first) = first {
        *answer = first;
    }
    status
}

fn begin_prepared(caller: Caller, args: (Global, u64)) -> (Caller, (i32, Option<Answer>))
    ensures { CallsPort result.1.0 SHUT (port_in caller) (port_in result.0)
        (λ p q. AnswersBegin (begin_answer result.1.0) NotPrepared (prepared_task p.prepared.items args.1) p q
        × (q.machine ≡ p.machine) × (q.prepared ≡ p.prepared) × (result.1.1 ≡ shown q.place q.last 0)) }
{
    let mut port = match caller.into_port() {
        Ok(port) => port,
        Err(caller) => return (caller, (SHUT, None)),
    };
    let (alloc, number) = args;
    let begun = port.begin_prepared(alloc, number);
    let first = shown(&port, 0);
    (Caller::of(port), (begin_status(begun), first))
}

/// Begins the prepared call of a number.
#[unsafe(no_mangle)]
pub extern "C" fn cvl_begin_prepared(
    alloc: Global,
    caller: &mut Caller,
    number: u64,
    answer: &mut Answer,
) -> i32
    ensures { CallsPort result SHUT (port_in caller.old) (port_in caller.new)
        (λ p q. AnswersBegin (begin_answer result) NotPrepared (prepared_task p.prepared.items number) p q
        × (q.machine ≡ p.machine) × (q.prepared ≡ p.prepared) × Shows q.place q.last 0 answer.old answer.new) }
{
    let (status, first) = replace_with(caller, (alloc, number), begin_prepared);
    if let Some(first) = first {
        *answer = first;
    }
    status
}
