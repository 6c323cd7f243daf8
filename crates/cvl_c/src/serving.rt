//! Serve, poll, step, look.

ghost use Rattle.std.specs.Prelude.{◌≡◌, ◌<◌, ◌≤◌, ◌-◌, ◌^◌, length, MatchBool};
ghost use Rattle.call_history.specs.Blocks.{Whole};
ghost use Rattle.call_history.specs.History.{Begins};
ghost use Rattle.combiner.specs.Says.{seeing};
ghost use Rattle.cvl_port.specs.Ports.{IsTold, KeepsReplies, KeepsRest, Steps};
ghost use Rattle.cvl_c.specs.Answers.{Shows, shown};
ghost use Rattle.cvl_c.specs.Callers.{CallsPort, port_in};
ghost use Rattle.cvl_c.specs.Serving.{IsServed};
ghost use Rattle.cvl_c.specs.Statuses.{has_served, told_by};

use crate::answer::{Answer, shown};
use crate::caller::Caller;
use crate::statuses::{SHUT, told_status};
use combiner::Combined;
use core::mem::replace_with;
use std::alloc::Global;

/// How many calls were served, of which a block counts as one, in how many waves, by how many kernel runs.
#[repr(C)]
#[derive(Clone, Copy)]
pub struct Served {
    pub calls: u64,
    pub waves: u64,
    pub kernels: u64,
}

fn serve(caller: Caller, alloc: Global) -> (Caller, (i32, Served))
    ensures { CallsPort result.1.0 SHUT (port_in caller) (port_in result.0)
        (λ p q. IsServed (has_served result.1.0) result.1.1 p.caller q.caller × KeepsRest p q) }
{
    let none = Served {
        calls: 0,
        waves: 0,
        kernels: 0,
    };
    let mut port = match caller.into_port() {
        Ok(port) => port,
        Err(caller) => return (caller, (SHUT, none)),
    };
    let told = match port.serve(alloc) {
        Combined::Busy => (0, none),
        Combined::Served {
            calls,
            waves,
            kernels,
        } => (
            1,
            Served {
                calls,
                waves,
                kernels,
            },
        ),
    };
    (Caller::of(port), told)
}

/// Serves all calls and blocks that are left, unless another caller has the book: 1 where it did, and 0 where another had it. It does
/// not wait.
#[unsafe(no_mangle)]
pub extern "C" fn cvl_serve(alloc: Global, caller: &mut Caller, served: &mut Served) -> i32
    ensures { CallsPort result SHUT (port_in caller.old) (port_in caller.new)
        (λ p q. IsServed (has_served result) served.new p.caller q.caller × KeepsRest p q) }
{
    let (status, told) = replace_with(caller, alloc, serve);
    *served = told;
    status
}

fn poll(caller: Caller, _nothing: ()) -> (Caller, (i32, Option<Answer>))
    ensures { CallsPort result.1.0 SHUT (port_in caller) (port_in result.0)
        (λ p q. IsTold (told_by result.1.0) p.caller q.caller q.place q.last × KeepsReplies (told_by result.1.0) p q
        × (q.prepared ≡ p.prepared) × (result.1.1 ≡ shown q.place q.last 0)) }
{
    let mut port = match caller.into_port() {
        Ok(port) => port,
        Err(caller) => return (caller, (SHUT, None)),
    };
    let told = port.poll();
    let first = shown(&port, 0);
    (Caller::of(port), (told_status(told), first))
}

/// What became of the call or of the block that was left. The answer shows the first of the last replies, if there is one.
#[unsafe(no_mangle)]
pub extern "C" fn cvl_poll(caller: &mut Caller, answer: &mut Answer) -> i32
    ensures { CallsPort result SHUT (port_in caller.old) (port_in caller.new)
        (λ p q. IsTold (told_by result) p.caller q.caller q.place q.last × KeepsReplies (told_by result) p q
        × (q.prepared ≡ p.prepared) × Shows q.place q.last 0 answer.old answer.new) }
{
    let (status, first) = replace_with(caller, (), poll);
    if let Some(first) = first {
        *answer = first;
    }
    status
}

fn step(caller: Caller, alloc: Global) -> (Caller, (i32, Option<Answer>))
    ensures { CallsPort result.1.0 SHUT (port_in caller) (port_in result.0)
        (λ p q. Steps (told_by result.1.0) p.caller q.caller q.place q.last × KeepsReplies (told_by result.1.0) p q
        × (q.prepared ≡ p.prepared) × (result.1.1 ≡ shown q.place q.last 0)) }
{
    let mut port = match caller.into_port() {
        Ok(port) => port,
        Err(caller) => return (caller, (SHUT, None)),
    };
    let told = port.step(alloc);
    let first = shown(&port, 0);
    (Caller::of(port), (told_status(told), first))
}

/// Serves if it can, and tells what became of what was left.
#[unsafe(no_mangle)]
pub extern "C" fn cvl_step(alloc: Global, caller: &mut Caller, answer: &mut Answer) -> i32
    ensures { CallsPort result SHUT (port_in caller.old) (port_in caller.new)
        (λ p q. Steps (told_by result) p.caller q.caller q.place q.last × KeepsReplies (told_by result) p q
        × (q.prepared ≡ p.prepared) × Shows q.place q.last 0 answer.old answer.new) }
{
    let (status, first) = replace_with(caller, alloc, step);
    if let Some(first) = first {
        *answer = first;
    }
    status
}

fn look(caller: Caller, _nothing: ()) -> (Caller, u64)
    ensures { CallsPort result.1 u64.MAX (port_in caller) (port_in result.0)
        (λ p q. (result.1 ≡ length q.caller.seen) × Begins p.caller.seen q.caller.seen × Whole q.caller.seen
        × (q.caller ≡ seeing p.caller q.caller.seen) × KeepsRest p q) }
{
    let mut port = match caller.into_port() {
        Ok(port) => port,
        Err(caller) => return (caller, u64::MAX),
    };
    let seen = port.look();
    (Caller::of(port), seen)
}

/// The length of the history, all of which the caller has then seen. Of a shut caller the greatest number.
#[unsafe(no_mangle)]
pub extern "C" fn cvl_look(caller: &mut Caller) -> u64
    ensures { CallsPort result u64.MAX (port_in caller.old) (port_in caller.new)
        (λ p q. (result ≡ length q.caller.seen) × Begins p.caller.seen q.caller.seen × Whole q.caller.seen
        × (q.caller ≡ seeing p.caller q.caller.seen) × KeepsRest p q) }
{
    replace_with(caller, (), look)
}
