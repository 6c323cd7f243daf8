//! The report of a settled run.

ghost use Rattle.std.specs.Prelude.{[], true, ◌≡◌, ◌∷◌, ◌++◌, OnOk, OnErr, IfErr, length, map};
ghost use Rattle.std.specs.List.{flat_map};
ghost use Rattle.vector_memory.specs.Contents.{content_of};
ghost use Rattle.cvl_text.specs.Answers.{answer_of};
ghost use Rattle.call_history.specs.Books.{memory_of};
ghost use Rattle.call_history.specs.Shown.{shown};
ghost use Rattle.script_lines.specs.Scripts.{reply_line};
ghost use Rattle.script_lines.specs.Streams.{Awaits, HasBegun};
ghost use Rattle.script_main.specs.Reports.{Puts, IsReportFault, answers_of, replies_text, entry_line, memory_text, history_text, audit_text, report_text};

use crate::order::in_order;
use crate::settled::Settled;
use call_history::Book;
use cvl_text::{Reply, write_value};
use scan_kernels::Execution;
use script_lines::{GATHERED, RunFault, Sink, append_line, flush};
use segment_desc::OutOfMemory;
use std::alloc::Global;
use vector_memory::{Memory, Name, Value};

/// A name and its value as a line. On an error a part of it may stand there.
fn append_entry(out: &mut Vec<u8>, name: &Name, value: &Value) -> Result<(), OutOfMemory>
    ensures { OnOk result (out.new.items ≡ out.old.items ++ entry_line (name.now, content_of value.now)) }
{
    out.extend_from_slice(name.text().bytes())?;
    out.push(b' ')?;
    write_value(value, out)?;
    out.push(b'\n')?;
    Ok(())
}

/// The length of a history as a line. On an error a part of it may stand there.
fn append_length(out: &mut Vec<u8>, len: usize) -> Result<(), OutOfMemory>
    ensures { OnOk result (out.new.items ≡ out.old.items ++ history_text len) }
{
    let mut digits = itoa::Buffer::new();
    out.extend_from_slice(b"history ")?;
    out.extend_from_slice(digits.format(len).as_bytes())?;
    out.push(b'\n')?;
    Ok(())
}

/// Writes what waits.
fn write_waiting<W: Sink>(waiting: &mut Vec<u8>, writer: &mut W) -> Result<(), RunFault>
    requires { W.can_write writer.old }
    ensures put { Puts result [] waiting.old.items [] (W.written writer.old) (W.written writer.new)
        (W.failures writer.old) (W.failures writer.new) }
    ensures none { OnOk result (waiting.new.items ≡ []) }
    ensures ready { OnOk result (W.can_write writer.new) }
{
    match flush(waiting, writer) {
        Ok(()) => Ok(()),
        Err(_) => Err(RunFault::Write),
    }
}

/// Writes what waits where it is much.
fn write_much<W: Sink>(waiting: &mut Vec<u8>, writer: &mut W) -> Result<(), RunFault>
    requires { W.can_write writer.old }
    ensures put { Puts result [] waiting.old.items waiting.new.items (W.written writer.old) (W.written writer.new)
        (W.failures writer.old) (W.failures writer.new) }
    ensures ready { OnOk result (W.can_write writer.new) }
{
    if waiting.len() < GATHERED {
        return Ok(());
    }
    write_waiting(waiting, writer)
}

/// Puts the replies to a caller behind what waits, a line for each, and writes where much waits.
fn put_replies<W: Sink>(
    waiting: &mut Vec<u8>,
    writer: &mut W,
    caller: u64,
    replies: &[Reply],
) -> Result<(), RunFault>
    requires { W.can_write writer.old }
    ensures put { Puts result (flat_map (reply_line caller) (map answer_of replies.now))
        waiting.old.items waiting.new.items (W.written writer.old) (W.written writer.new)
        (W.failures writer.old) (W.failures writer.new) }
    ensures ready { OnOk result (W.can_write writer.new) }
{
    for reply in replies {
        let Ok(()) = append_line(waiting, caller, reply) else {
            return Err(RunFault::OutOfMemory);
        };
        write_much(waiting, writer)?;
    }
    Ok(())
}

/// Puts the replies to all callers behind what waits, and writes where much waits.
fn put_all_replies<W: Sink>(
    waiting: &mut Vec<u8>,
    writer: &mut W,
    replies: &[Vec<Reply>],
) -> Result<(), RunFault>
    requires { W.can_write writer.old }
    ensures put { Puts result (replies_text 0 (map (λ own. map answer_of own.items) replies.now))
        waiting.old.items waiting.new.items (W.written writer.old) (W.written writer.new)
        (W.failures writer.old) (W.failures writer.new) }
    ensures ready { OnOk result (W.can_write writer.new) }
{
    for caller in 0..replies.len() {
        put_replies(waiting, writer, caller as u64, &replies[caller])?;
    }
    Ok(())
}

/// Puts names with their values behind what waits, a line for each, and writes where much waits.
fn put_entries<W: Sink>(
    waiting: &mut Vec<u8>,
    writer: &mut W,
    entries: &[(&Name, &Value)],
) -> Result<(), RunFault>
    requires { W.can_write writer.old }
    ensures put { Puts result (flat_map entry_line (map shown entries.now))
        waiting.old.items waiting.new.items (W.written writer.old) (W.written writer.new)
        (W.failures writer.old) (W.failures writer.new) }
    ensures ready { OnOk result (W.can_write writer.new) }
{
    for entry in entries {
        let Ok(()) = append_entry(waiting, entry.0, entry.1) else {
            return Err(RunFault::OutOfMemory);
        };
        write_much(waiting, writer)?;
    }
    Ok(())
}

/// Puts the values of a memory behind what waits, in the order of their names, and writes where much waits.
fn put_memory<W: Sink>(
    alloc: Global,
    waiting: &mut Vec<u8>,
    writer: &mut W,
    memory: &Memory,
) -> Result<(), RunFault>
    requires { W.can_write writer.old }
    ensures put { Puts result (memory_text memory.now.entries)
        waiting.old.items waiting.new.items (W.written writer.old) (W.written writer.new)
        (W.failures writer.old) (W.failures writer.new) }
    ensures ready { OnOk result (W.can_write writer.new) }
{
    let Ok(entries) = in_order(alloc, memory) else {
        return Err(RunFault::OutOfMemory);
    };
    put_entries(waiting, writer, &entries)
}

/// Puts the length of a book's history behind what waits, and what its audit says.
fn put_audit(
    execution: &impl Execution,
    alloc: Global,
    waiting: &mut Vec<u8>,
    book: &Book,
) -> Result<(), OutOfMemory>
    ensures { OnOk result (waiting.new.items
        ≡ (waiting.old.items ++ history_text (length book.now.history)) ++ audit_text true) }
{
    append_length(waiting, book.len())?;
    let audit: &[u8] = if book.audit(execution, alloc)? {
        b"audit ok\n"
    } else {
        b"audit bad\n"
    };
    waiting.extend_from_slice(audit)?;
    Ok(())
}

/// Writes the report of a settled run: for each caller the replies to its calls, a line for each; then each name with its
/// value, in the order of the names' bytes; then the length of the history, and what its audit says.
///
/// It ends for want of memory and where a write fails, and a beginning of the report is written then.
pub fn write_report<W: Sink>(
    execution: &impl Execution,
    alloc: Global,
    settled: &Settled,
    writer: &mut W,
) -> Result<(), RunFault>
    requires { W.can_write writer.old }
    ensures written { OnOk result (Awaits (W.written writer.old) (W.written writer.new) []
        (report_text (answers_of settled.now.replies) settled.now.book)) }
    ensures begun { OnErr result (HasBegun (W.written writer.old) (W.written writer.new)
        (report_text (answers_of settled.now.replies) settled.now.book)) }
    ensures fault { IfErr result (λ fault. IsReportFault fault (W.failures writer.old) (W.failures writer.new)) }
{
    let mut waiting = Vec::new(alloc);
    put_all_replies(&mut waiting, writer, &settled.replies)?;
    put_memory(alloc, &mut waiting, writer, settled.book.memory())?;
    let Ok(()) = put_audit(execution, alloc, &mut waiting, &settled.book) else {
        return Err(RunFault::OutOfMemory);
    };
    write_waiting(&mut waiting, writer)
}
