//! Calls, replies and memories as texts, which are compared.

use cvl_text::{Call, Reply, write_value};
use std::alloc::Global;
use vector_memory::{Edition, Memory, Name, Value};

/// A call with all its names, numbers and items.
pub(crate) fn call_text(alloc: Global, call: &Call) -> Option<String> {
    format!(in alloc; "{call:?}").ok()
}

/// The call of a line likewise. None where the line is no call, too.
pub(crate) fn line_text(alloc: Global, line: &str) -> Option<String> {
    let call = Call::read_in(alloc, line.as_bytes(), Edition::Two).ok()?;
    call_text(alloc, &call)
}

/// The text of a reply.
pub(crate) fn text_of(alloc: Global, reply: &Reply) -> Option<Vec<u8>> {
    let mut text = Vec::new(alloc);
    reply.write(&mut text).ok()?;
    Some(text)
}

/// A line for a name and its value, behind the text.
fn write_entry(text: &mut Vec<u8>, name: &Name, value: &Value) -> Option<()> {
    text.extend_from_slice(name.text().bytes()).ok()?;
    text.push(b' ').ok()?;
    write_value(value, text).ok()?;
    text.push(b'\n').ok()
}

/// A line for each name of a memory, in their order, with its value.
fn memory_text(alloc: Global, memory: &Memory) -> Option<Vec<u8>> {
    let mut text = Vec::new(alloc);
    for (name, value) in memory.iter() {
        write_entry(&mut text, name, value)?;
    }
    Some(text)
}

/// Whether two memories have the same names, in the same order, with the same values.
pub(crate) fn hold_the_same(alloc: Global, one: &Memory, other: &Memory) -> Option<bool> {
    let text = memory_text(alloc, one)?;
    Some(text == memory_text(alloc, other)?)
}
