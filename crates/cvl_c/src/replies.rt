//! Readers of the last replies. They change nothing.

ghost use Rattle.std.specs.Prelude.{◌≡◌, length, slice_get, Ok, Err, IfSome};
ghost use Rattle.std.specs.Option.{option_copied};
ghost use Rattle.cvl_port.specs.Replies.{replies_of};
ghost use Rattle.cvl_c.specs.Answers.{Shows, shown, bools_of, ints_of, lengths_of, text_of, written_over};
ghost use Rattle.cvl_c.specs.Callers.{AsksPort, port_in};
ghost use Rattle.cvl_c.specs.Reading.{HasReply, Lie, ReadsItems, ReadsText, bools_in, ints_in, reply_at};

use crate::answer::{Answer, shown};
use crate::caller::Caller;
use crate::statuses::{NO_MEMORY, NO_REPLY, OK, SHUT};
use core::mem::replace_with;
use cvl_text::Reply;
use std::alloc::Global;
use std::ptr;
use vector_memory::Value;

/// As many items as both have. How many there are in all.
fn copy<T: Copy>(from: &[T], to: &mut [T]) -> u64
    ensures all { result ≡ length from.now }
    ensures written { to.new ≡ written_over from.now to.old }
{
    let count = from.len().min(to.len());
    to[..count].copy_from_slice(&from[..count]);
    from.len() as u64
}

fn show(caller: Caller, number: u64) -> (Caller, Result<Option<Answer>, ()>)
    ensures same { port_in result.0 ≡ port_in caller }
    ensures shows { AsksPort (port_in caller) (result.1 ≡ Err tt) (λ p. result.1 ≡ Ok (shown p.place p.last number)) }
{
    let port = match caller.into_port() {
        Ok(port) => port,
        Err(caller) => return (caller, Err(())),
    };
    let answer = shown(&port, number as usize);
    (Caller::of(port), Ok(answer))
}

/// The reply of a number, of the last ones.
#[unsafe(no_mangle)]
pub extern "C" fn cvl_reply(caller: &mut Caller, number: u64, answer: &mut Answer) -> i32
    ensures same { port_in caller.new ≡ port_in caller.old }
    ensures shows { AsksPort (port_in caller.old) (result ≡ SHUT) (λ p.
        HasReply result p.last number × Shows p.place p.last number answer.old answer.new) }
{
    match replace_with(caller, number, show) {
        Ok(Some(found)) => {
            *answer = found;
            OK
        }
        Ok(None) => NO_REPLY,
        Err(()) => SHUT,
    }
}

/// The vector of a reply that has integers.
fn ints_in(reply: Option<&Reply>) -> Option<&Vec<i64>>
    ensures { option_copied result ≡ ints_in (option_copied reply.entry) }
{
    match reply {
        Some(Reply::Vector(Value::Ints(items))) => Some(items),
        _ => None,
    }
}

/// The vector of a reply that has truth values.
fn bools_in(reply: Option<&Reply>) -> Option<&Vec<bool>>
    ensures { option_copied result ≡ bools_in (option_copied reply.entry) }
{
    match reply {
        Some(Reply::Vector(Value::Bools(items))) => Some(items),
        _ => None,
    }
}

/// Where the items of a vector lie, and how many there are; without a vector nowhere, and none.
fn lie<T>(items: Option<&Vec<T>>) -> (*const T, u64)
    ensures { Lie (option_copied items.entry) result.0 result.1 }
{
    match items {
        Some(items) => (items.as_ptr(), items.len() as u64),
        None => (ptr::null(), 0),
    }
}

fn ints_of(reply: Option<&Reply>) -> &[i64]
    ensures { result.now ≡ ints_of (option_copied reply.entry) }
{
    match ints_in(reply) {
        Some(items) => items,
        None => &[],
    }
}

/// The integers of a reply, as many as fit. How many it has in all.
#[unsafe(no_mangle)]
pub extern "C" fn cvl_ints(alloc: Global, caller: &mut Caller, number: u64, out: &mut [i64]) -> u64
    ensures same { port_in caller.new ≡ port_in caller.old }
    ensures reads { ReadsItems ints_of (port_in caller.old) number result out.old out.new }
{
    let port = match caller.take(alloc).into_port() {
        Ok(port) => port,
        Err(shut) => {
            caller.give(shut);
            return 0;
        }
    };
    let count = copy(ints_of(port.last.reply(number as usize)), out);
    caller.give(Caller::of(port));
    count
}

/// Where the integers of a reply lie, until the caller's last replies are others, and how many there are: nowhere and 0 where it is
/// of another kind.
#[unsafe(no_mangle)]
pub extern "C" fn cvl_ints_at(
    alloc: Global,
    caller: &mut Caller,
    number: u64,
    at: &mut *const i64,
) -> u64
    ensures same { port_in caller.new ≡ port_in caller.old }
    ensures lie { Lie (ints_in (reply_at (port_in caller.old) number)) at.new result }
{
    let port = match caller.take(alloc).into_port() {
        Ok(port) => port,
        Err(shut) => {
            caller.give(shut);
            *at = ptr::null();
            return 0;
        }
    };
    let (there, count) = lie(ints_in(port.last.reply(number as usize)));
    caller.give(Caller::of(port));
    *at = there;
    count
}

fn bools_of(reply: Option<&Reply>) -> &[bool]
    ensures { result.now ≡ bools_of (option_copied reply.entry) }
{
    match bools_in(reply) {
        Some(items) => items,
        None => &[],
    }
}

/// The truth values of a reply, as many as fit. How many it has in all.
#[unsafe(no_mangle)]
pub extern "C" fn cvl_bools(
    alloc: Global,
    caller: &mut Caller,
    number: u64,
    out: &mut [bool],
) -> u64
    ensures same { port_in caller.new ≡ port_in caller.old }
    ensures reads { ReadsItems bools_of (port_in caller.old) number result out.old out.new }
{
    let port = match caller.take(alloc).into_port() {
        Ok(port) => port,
        Err(shut) => {
            caller.give(shut);
            return 0;
        }
    };
    let count = copy(bools_of(port.last.reply(number as usize)), out);
    caller.give(Caller::of(port));
    count
}

/// `cvl_ints_at` of truth values.
#[unsafe(no_mangle)]
pub extern "C" fn cvl_bools_at(
    alloc: Global,
    caller: &mut Caller,
    number: u64,
    at: &mut *const bool,
) -> u64
    ensures same { port_in caller.new ≡ port_in caller.old }
    ensures lie { Lie (bools_in (reply_at (port_in caller.old) number)) at.new result }
{
    let port = match caller.take(alloc).into_port() {
        Ok(port) => port,
        Err(shut) => {
            caller.give(shut);
            *at = ptr::null();
            return 0;
        }
    };
    let (there, count) = lie(bools_in(port.last.reply(number as usize)));
    caller.give(Caller::of(port));
    *at = there;
    count
}

fn lengths_of(reply: Option<&Reply>) -> &[usize]
    ensures { result.now ≡ lengths_of (option_copied reply.entry) }
{
    match reply {
        Some(Reply::Vector(Value::Segs(segments))) => segments.lengths(),
        _ => &[],
    }
}

/// The lengths of the segments of a reply, as many as fit. How many it has in all.
#[unsafe(no_mangle)]
pub extern "C" fn cvl_lengths(
    alloc: Global,
    caller: &mut Caller,
    number: u64,
    out: &mut [usize],
) -> u64
    ensures same { port_in caller.new ≡ port_in caller.old }
    ensures reads { ReadsItems lengths_of (port_in caller.old) number result out.old out.new }
{
    let port = match caller.take(alloc).into_port() {
        Ok(port) => port,
        Err(shut) => {
            caller.give(shut);
            return 0;
        }
    };
    let count = copy(lengths_of(port.last.reply(number as usize)), out);
    caller.give(Caller::of(port));
    count
}

/// The text of a reply, as the program writes it. None where memory is wanted.
fn written(alloc: Global, reply: Option<&Reply>) -> Option<Vec<u8>>
    ensures { IfSome result (λ text. text.items ≡ text_of (option_copied reply.entry)) }
{
    let mut text = Vec::new(alloc);
    if let Some(reply) = reply {
        reply.write(&mut text).ok()?;
    }
    Some(text)
}

/// The text of a reply, as much as fits, and how long it is in all.
#[unsafe(no_mangle)]
pub extern "C" fn cvl_text(
    alloc: Global,
    caller: &mut Caller,
    number: u64,
    out: &mut [u8],
    length: &mut u64,
) -> i32
    ensures same { port_in caller.new ≡ port_in caller.old }
    ensures reads { ReadsText result (port_in caller.old) number length.new out.old out.new }
{
    let port = match caller.take(alloc).into_port() {
        Ok(port) => port,
        Err(shut) => {
            caller.give(shut);
            *length = 0;
            return OK;
        }
    };
    let text = written(alloc, port.last.reply(number as usize));
    caller.give(Caller::of(port));
    let Some(text) = text else {
        *length = 0;
        return NO_MEMORY;
    };
    *length = copy(&text, out);
    OK
}
