//! Replies as text.

ghost use Rattle.std.specs.Prelude.{◌≡◌, ◌++◌, ◌+◌, ◌<◌, vec_len, vec_capacity, length, OnOk, OnErr};
ghost use Rattle.std.specs.List.{flat_map};
ghost use Rattle.vector_memory.specs.Contents.{content_of};
ghost use Rattle.cvl_text.specs.Answers.{BoolOf, IntOf, answer_of};
ghost use Rattle.cvl_text.specs.Texts.{value_text, fault_text, answer_text, IsContinued};

use crate::fault::Fault;
use crate::item::WriteItem;
use crate::number::append_number;
use crate::reply::Reply;
use std::alloc::AllocError;
use vector_memory::{OutOfMemory, Value};

fn append_items<I: WriteItem>(out: &mut Vec<u8>, items: &[I]) -> Result<(), AllocError>
    ensures ok { OnOk result (out.new.items ≡ out.old.items ++ flat_map I.item_text items.now) }
    ensures err { OnErr result (IsContinued out.old.items out.new.items) }
    ensures full { OnErr result (vec_capacity out.old < vec_len out.old + length (flat_map I.item_text items.now)) }
{
    for item in items {
        item.append(out)?;
    }
    Ok(())
}

fn append_value(out: &mut Vec<u8>, value: &Value) -> Result<(), AllocError>
    ensures ok { OnOk result (out.new.items ≡ out.old.items ++ value_text (content_of value.now)) }
    ensures err { OnErr result (IsContinued out.old.items out.new.items) }
    ensures full { OnErr result (vec_capacity out.old < vec_len out.old + length (value_text (content_of value.now))) }
{
    match value {
        Value::Ints(items) => {
            out.push(b'z')?;
            append_items(out, items)
        }
        Value::Bools(items) => {
            out.push(b'b')?;
            append_items(out, items)
        }
        Value::Segs(segments) => {
            out.push(b's')?;
            append_items(out, segments.lengths())
        }
    }
}

fn fault_text(fault: Fault) -> &'static [u8]
    ensures { result.now ≡ fault_text fault }
{
    match fault {
        Fault::NoVector => b"fault 1",
        Fault::WrongType => b"fault 2",
        Fault::WrongLength => b"fault 3",
        Fault::BadSegments => b"fault 4",
        Fault::BadIndex => b"fault 5",
        Fault::ZeroDivisor => b"fault 6",
        Fault::BadShift => b"fault 7",
        Fault::TooLong => b"fault 8",
        Fault::NoRoom => b"fault 9",
        Fault::TooManyNames => b"fault 10",
    }
}

/// Appends the text of a value: its letter, then for each item a space and the item. On an error nothing is written;
/// there is none where the vector has room for the text.
pub fn write_value(value: &Value, out: &mut Vec<u8>) -> Result<(), OutOfMemory>
    ensures ok { OnOk result (out.new.items ≡ out.old.items ++ value_text (content_of value.now)) }
    ensures full { OnErr result (vec_capacity out.old < vec_len out.old + length (value_text (content_of value.now))) }
    ensures err { OnErr result (out.new.items ≡ out.old.items) }
{
    let start = out.len();
    if append_value(out, value).is_err() {
        out.truncate(start);
        return Err(OutOfMemory);
    }
    Ok(())
}

fn append_int(out: &mut Vec<u8>, number: i64) -> Result<(), AllocError>
    ensures ok { OnOk result (out.new.items ≡ out.old.items ++ answer_text (IntOf number)) }
    ensures err { OnErr result (IsContinued out.old.items out.new.items) }
    ensures full { OnErr result (vec_capacity out.old < vec_len out.old + length (answer_text (IntOf number))) }
{
    out.extend_from_slice(b"int ")?;
    append_number(out, number)
}

fn append_bool(out: &mut Vec<u8>, truth: bool) -> Result<(), AllocError>
    ensures ok { OnOk result (out.new.items ≡ out.old.items ++ answer_text (BoolOf truth)) }
    ensures err { OnErr result (IsContinued out.old.items out.new.items) }
    ensures full { OnErr result (vec_capacity out.old < vec_len out.old + length (answer_text (BoolOf truth))) }
{
    out.extend_from_slice(if truth { b"bool T" } else { b"bool F" })
}

fn append_reply(out: &mut Vec<u8>, reply: &Reply) -> Result<(), AllocError>
    ensures ok { OnOk result (out.new.items ≡ out.old.items ++ answer_text (answer_of reply.now)) }
    ensures err { OnErr result (IsContinued out.old.items out.new.items) }
    ensures full { OnErr result (vec_capacity out.old < vec_len out.old + length (answer_text (answer_of reply.now))) }
{
    match reply {
        Reply::Done => out.extend_from_slice(b"ok"),
        Reply::Int(number) => append_int(out, *number),
        Reply::Bool(truth) => append_bool(out, *truth),
        Reply::Vector(value) => append_value(out, value),
        Reply::Fault(fault) => out.extend_from_slice(fault_text(*fault)),
    }
}

impl Reply {
    /// Appends the text of the reply: `ok`, `int` and the number, `bool` and the truth value, a value's text, or
    /// `fault n` with n from 1 to 10. On an error nothing is written; there is none where the vector has room for the
    /// text.
    pub fn write(&self, out: &mut Vec<u8>) -> Result<(), OutOfMemory>
        ensures ok { OnOk result (out.new.items ≡ out.old.items ++ answer_text (answer_of self.now)) }
        ensures full { OnErr result (vec_capacity out.old < vec_len out.old + length (answer_text (answer_of self.now))) }
        ensures err { OnErr result (out.new.items ≡ out.old.items) }
    {
        let len = out.len();
        if append_reply(out, self).is_err() {
            out.truncate(len);
            return Err(OutOfMemory);
        }
        Ok(())
    }
}
