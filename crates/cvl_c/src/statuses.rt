//! The numbers that C gets.

ghost use Rattle.std.specs.Prelude.{◌≡◌, Err};
ghost use Rattle.cvl_c.specs.Statuses.{begin_answer, post_answer, told_by};

use cvl_port::{PostFault, Told};

/// All went well.
pub(crate) const OK: i32 = 0;

/// Memory was wanted.
pub(crate) const NO_MEMORY: i32 = -1;

/// The caller is not open.
pub(crate) const SHUT: i32 = -2;

/// A line is no call.
pub(crate) const BAD_CALL: i32 = -3;

/// Not 1 to 64 callers.
pub(crate) const BAD_CALLERS: i32 = -8;

/// No lawful room.
pub(crate) const BAD_ROOM: i32 = -9;

/// A caller is open that should be shut.
pub(crate) const NOT_SHUT: i32 = -10;

/// There is no reply of this number.
pub(crate) const NO_REPLY: i32 = -12;

fn fault_status(fault: PostFault) -> i32
    ensures left { post_answer result ≡ Err fault }
    ensures begun { begin_answer result ≡ Err fault }
{
    match fault {
        PostFault::OutOfMemory => NO_MEMORY,
        PostFault::BadCall => BAD_CALL,
        PostFault::BadName => -4,
        PostFault::BadCount => -5,
        PostFault::NotPrepared => -6,
        PostFault::Occupied => -7,
    }
}

/// Whether a call was left.
pub(crate) fn post_status(answer: Result<(), PostFault>) -> i32
    ensures { post_answer result ≡ answer }
{
    match answer {
        Ok(()) => OK,
        Err(fault) => fault_status(fault),
    }
}

/// Whether a call was answered at once, or is left.
pub(crate) fn begin_status(answer: Result<bool, PostFault>) -> i32
    ensures { begin_answer result ≡ answer }
{
    match answer {
        Ok(true) => 2,
        Ok(false) => 1,
        Err(fault) => fault_status(fault),
    }
}

/// What became of what was left.
pub(crate) fn told_status(told: Told) -> i32
    ensures { told_by result ≡ told }
{
    match told {
        Told::Idle => 0,
        Told::Waiting => 1,
        Told::Answered => 2,
        Told::AnsweredBlock => 3,
        Told::OutOfMemory => NO_MEMORY,
    }
}
