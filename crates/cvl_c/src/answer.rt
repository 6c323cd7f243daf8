ghost use Rattle.std.specs.Prelude.{◌≡◌};
ghost use Rattle.cvl_c.specs.Answers.{count_in, fault_in, fault_number, kind_of, showing, shown, value_in};

use cvl_port::Port;
use cvl_text::{Fault, Reply};
use vector_memory::Value;

/// A reply, as C reads it.
#[repr(C)]
#[derive(Clone, Copy)]
pub struct Answer {
    /// Which kind it is, as `CVL_DONE` and so on.
    pub kind: u32,
    /// The fault's number from 1 to 10, and 0 where there is none.
    pub fault: u32,
    /// The number, or 1 for true; else 0.
    pub value: i64,
    /// How many items a vector or a segment list has; else 0.
    pub count: u64,
    /// The place in the history, from 0, of the first of the replies.
    pub place: u64,
    /// How many replies there are: to a call one, to a block as many as it has calls.
    pub replies: u64,
}

fn fault_number(fault: Fault) -> u32
    ensures { result ≡ fault_number fault }
{
    match fault {
        Fault::NoVector => 1,
        Fault::WrongType => 2,
        Fault::WrongLength => 3,
        Fault::BadSegments => 4,
        Fault::BadIndex => 5,
        Fault::ZeroDivisor => 6,
        Fault::BadShift => 7,
        Fault::TooLong => 8,
        Fault::NoRoom => 9,
        Fault::TooManyNames => 10,
    }
}

fn kind_of(reply: &Reply) -> u32
    ensures { result ≡ kind_of reply.now }
{
    match reply {
        Reply::Done => 0,
        Reply::Int(_) => 1,
        Reply::Bool(_) => 2,
        Reply::Vector(Value::Ints(_)) => 3,
        Reply::Vector(Value::Bools(_)) => 4,
        Reply::Vector(Value::Segs(_)) => 5,
        Reply::Fault(_) => 6,
    }
}

fn fault_in(reply: &Reply) -> u32
    ensures { result ≡ fault_in reply.now }
{
    match reply {
        Reply::Fault(fault) => fault_number(*fault),
        _ => 0,
    }
}

fn value_in(reply: &Reply) -> i64
    ensures { result ≡ value_in reply.now }
{
    match reply {
        Reply::Int(number) => *number,
        Reply::Bool(true) => 1,
        _ => 0,
    }
}

fn count_in(reply: &Reply) -> u64
    ensures { result ≡ count_in reply.now }
{
    match reply {
        Reply::Vector(value) => value.size() as u64,
        _ => 0,
    }
}

/// One of so many replies, whose first stands at a place.
pub(crate) fn showing(place: u64, replies: u64, reply: &Reply) -> Answer
    ensures { result ≡ showing place replies reply.now }
{
    Answer {
        kind: kind_of(reply),
        fault: fault_in(reply),
        value: value_in(reply),
        count: count_in(reply),
        place,
        replies,
    }
}

/// The reply of a number, of the last replies of a port.
pub(crate) fn shown(port: &Port, number: usize) -> Option<Answer>
    ensures { result ≡ shown port.now.place port.now.last number }
{
    let reply = port.last.reply(number)?;
    Some(showing(port.place, port.last.count() as u64, reply))
}
