//! What the tests ask of a machine, and what they expect to be told.

ghost use Rattle.std.specs.Prelude.{◌≡◌};
ghost use Rattle.combiner.specs.Standing.{IsIdle};

use call_history::Book;
use combiner::{Caller, Combined, Polled, Shared};
use cvl_text::{Call, Reply};
use scan_kernels::Sequential;
use std::alloc::Global;
use std::process::Abort;
use std::sync::Wait;
use std::thread::Threads;

/// The call of a line.
pub(crate) fn read(rt: &impl Abort, alloc: Global, line: &[u8]) -> Call {
    Call::read(alloc, line).expect(rt, "no call")
}

/// Whether this is the text of a reply.
fn is_text(rt: &impl Abort, alloc: Global, reply: &Reply, wanted: &[u8]) -> bool {
    let mut text = Vec::new(alloc);
    reply.write(&mut text).expect(rt, "memory");
    text.as_slice() == wanted
}

/// Whether the call of this line is left.
pub(crate) fn posts(
    rt: &impl Abort,
    alloc: Global,
    shared: &Shared,
    caller: &mut Caller,
    line: &[u8],
) -> bool
    requires { caller.old.machine ≡ shared.now }
    ensures { caller.new.machine ≡ shared.now }
{
    shared.post(caller, read(rt, alloc, line)).is_ok()
}

/// Whether a poll answers that no call is left.
pub(crate) fn polls_idle(shared: &Shared, caller: &mut Caller) -> bool
    requires { caller.old.machine ≡ shared.now }
    ensures { caller.new.machine ≡ shared.now }
{
    matches!(&shared.poll(caller), Polled::Idle)
}

/// Whether a poll answers that nothing has become of the call yet.
pub(crate) fn polls_waiting(shared: &Shared, caller: &mut Caller) -> bool
    requires { caller.old.machine ≡ shared.now }
    ensures { caller.new.machine ≡ shared.now }
{
    matches!(&shared.poll(caller), Polled::Waiting)
}

/// Whether a poll answers this place, and a reply of this text, to a call.
pub(crate) fn polls(
    rt: &impl Abort,
    alloc: Global,
    shared: &Shared,
    caller: &mut Caller,
    place: u64,
    wanted: &[u8],
) -> bool
    requires { caller.old.machine ≡ shared.now }
    ensures { caller.new.machine ≡ shared.now }
{
    let Polled::Answered { place: at, reply } = shared.poll(caller) else {
        panic!(rt; "no call is answered");
    };
    at == place && is_text(rt, alloc, &reply, wanted)
}

/// Whether a pass serves so many calls, in so many waves, by so many kernel runs. A block counts as one.
pub(crate) fn serves(
    rt: &impl Abort,
    alloc: Global,
    shared: &Shared,
    caller: &mut Caller,
    wanted: (u64, u64, u64),
) -> bool
    requires { caller.old.machine ≡ shared.now }
    ensures { caller.new.machine ≡ shared.now }
{
    let Combined::Served {
        calls,
        waves,
        kernels,
    } = shared.combine(&Sequential, alloc, caller)
    else {
        panic!(rt; "busy");
    };
    (calls, waves, kernels) == wanted
}

/// The place and the reply that a call is answered.
pub(crate) fn answer(
    rt: &(impl Abort + Threads + Wait + Sync),
    alloc: Global,
    shared: &Shared,
    caller: &mut Caller,
    line: &[u8],
) -> (u64, Reply)
    requires machine { caller.old.machine ≡ shared.now }
    requires idle { IsIdle caller.old }
    ensures machine { caller.new.machine ≡ shared.now }
    ensures idle { IsIdle caller.new }
{
    let called = shared.call(rt, alloc, caller, read(rt, alloc, line));
    called.ok().expect(rt, "memory")
}

/// Whether the call of this line is answered at this place, with a reply of this text.
pub(crate) fn calls(
    rt: &(impl Abort + Threads + Wait + Sync),
    alloc: Global,
    shared: &Shared,
    caller: &mut Caller,
    line: &[u8],
    place: u64,
    wanted: &[u8],
) -> bool
    requires machine { caller.old.machine ≡ shared.now }
    requires idle { IsIdle caller.old }
    ensures machine { caller.new.machine ≡ shared.now }
    ensures idle { IsIdle caller.new }
{
    let (at, reply) = answer(rt, alloc, shared, caller, line);
    at == place && is_text(rt, alloc, &reply, wanted)
}

/// Calls each line, and compares the reply with the text beside it.
pub(crate) fn expect_replies(
    rt: &(impl Abort + Threads + Wait + Sync),
    alloc: Global,
    shared: &Shared,
    caller: &mut Caller,
    lines: &[(&[u8], &[u8])],
)
    requires machine { caller.old.machine ≡ shared.now }
    requires idle { IsIdle caller.old }
    ensures machine { caller.new.machine ≡ shared.now }
    ensures idle { IsIdle caller.new }
{
    for (line, wanted) in lines {
        let (_, reply) = answer(rt, alloc, shared, caller, line);
        assert!(rt; is_text(rt, alloc, &reply, wanted));
    }
}

/// Whether the entry at a place is of this caller, with this ticket.
pub(crate) fn stands_at(book: &Book, place: usize, caller: u64, ticket: u64) -> bool {
    if place >= book.len() {
        return false;
    }
    let entry = book.entry(place);
    u64::from(entry.caller) == caller && entry.ticket == ticket
}
