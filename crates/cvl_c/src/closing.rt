ghost use Rattle.std.specs.Prelude.{◌≡◌};
ghost use Rattle.cvl_c.specs.Callers.{AsksPort, port_in};
ghost use Rattle.cvl_c.specs.Closing.{Closes};

use crate::caller::Caller;
use crate::nothing::nothing;
use crate::statuses::{NO_MEMORY, SHUT};
use core::mem::replace_with;
use cvl_port::{Closing, Port};
use scan_kernels::Sequential;
use std::alloc::Global;

/// What a machine came to.
#[repr(C)]
#[derive(Clone, Copy)]
pub struct Closed {
    /// How many calls its history has.
    pub history: u64,
    /// Whether the history, done again, gave the memory.
    pub audited: bool,
}

/// Nothing is known of a history.
fn unknown() -> Closed {
    Closed {
        history: 0,
        audited: false,
    }
}

fn close_port(alloc: Global, port: Port) -> (i32, Closed)
    ensures { Closes result.0 result.1 port.caller }
{
    let book = match port.close() {
        Closing::OthersOpen => return (1, unknown()),
        Closing::Unfinished => return (2, unknown()),
        Closing::Closed(book) => book,
    };
    let history = book.len() as u64;
    match book.audit(&Sequential, alloc) {
        Ok(audited) => (0, Closed { history, audited }),
        Err(_) => (
            NO_MEMORY,
            Closed {
                history,
                audited: false,
            },
        ),
    }
}

fn close(caller: Caller, alloc: Global) -> (Caller, (i32, Closed))
    ensures shut { port_in result.0 ≡ None }
    ensures closes { AsksPort (port_in caller) (result.1.0 ≡ SHUT) (λ p. Closes result.1.0 result.1.1 p.caller) }
{
    let port = match caller.into_port() {
        Ok(port) => port,
        Err(caller) => return (caller, (SHUT, unknown())),
    };
    let (caller, port) = Caller::closed(port, nothing(), alloc);
    (caller, close_port(alloc, port))
}

/// Gives a caller up. With the last one of a machine the machine goes, and it is told what it came to.
#[unsafe(no_mangle)]
pub extern "C" fn cvl_close(alloc: Global, caller: &mut Caller, closed: &mut Closed) -> i32
    ensures shut { port_in caller.new ≡ None }
    ensures closes { AsksPort (port_in caller.old) (result ≡ SHUT) (λ p. Closes result closed.new p.caller) }
{
    let (status, told) = replace_with(caller, alloc, close);
    *closed = told;
    status
}
