//! One line of a script, as it is served on a book.

ghost use Rattle.std.specs.Prelude.{◌≡◌, ◌∷◌, ◌++◌, ◌<◌, ◌≤◌, length, map, OnOk, OnErr, IsTrue, IsErrOf, IsOkUnless};
ghost use Rattle.std.specs.List.{flat_map};
ghost use Rattle.vector_memory.specs.States.{bounds_in, empty};
ghost use Rattle.cvl_text.specs.Answers.{answer_of};
ghost use Rattle.cvl_text.specs.Tasks.{task_of};
ghost use Rattle.cvl_text.specs.Lines.{task_in};
ghost use Rattle.cvl_text.specs.Texts.{IsContinued};
ghost use Rattle.cvl_text.specs.Words.{words_of};
ghost use Rattle.cvl_calls.specs.Steps.{stepped};
ghost use Rattle.call_history.specs.Books.{memory_of};
ghost use Rattle.call_history.specs.Blocks.{block_limit};
ghost use Rattle.script_lines.specs.Scripts.{Bad, asked, line_of, is_good, stage_after_line, memory_after_line, memory_after_tasks, answers_to, line_text, reply_line};
ghost use Rattle.script_lines.specs.Stages.{stage_of};

use crate::deed::Deed;
use crate::line::{LineFault, fault_of};
use crate::progress::Progress;
use crate::step::step;
use call_history::{Book, CALLER_LIMIT};
use cvl_text::{Call, Reply};
use scan_kernels::{Execution, Meter};
use segment_desc::OutOfMemory;
use std::alloc::Global;
use vector_memory::Edition;

/// A reply as a line. On an error a part of it may stand there.
pub fn append_line(out: &mut Vec<u8>, caller: u64, reply: &Reply) -> Result<(), OutOfMemory>
    ensures ok { OnOk result (out.new.items ≡ out.old.items ++ reply_line caller (answer_of reply.now)) }
    ensures err { OnErr result (IsContinued out.old.items out.new.items) }
{
    let mut buffer = itoa::Buffer::new();
    out.extend_from_slice(buffer.format(caller).as_bytes())?;
    out.push(b' ')?;
    reply.write(out)?;
    out.push(b'\n')?;
    Ok(())
}

/// A reply as a line behind what is there. On an error nothing is written.
fn write_line(out: &mut Vec<u8>, caller: u64, reply: &Reply) -> Result<(), LineFault>
    ensures ok { OnOk result (out.new.items ≡ out.old.items ++ reply_line caller (answer_of reply.now)) }
    ensures err { OnErr result (out.new.items ≡ out.old.items) }
    ensures fault { IsOkUnless result LineFault.OutOfMemory }
{
    let start = out.len();
    if append_line(out, caller, reply).is_err() {
        out.truncate(start);
        return Err(LineFault::OutOfMemory);
    }
    Ok(())
}

/// Replies as lines. On an error a part of them may stand there.
fn append_lines(out: &mut Vec<u8>, caller: u64, replies: &[Reply]) -> Result<(), OutOfMemory>
    ensures ok { OnOk result (out.new.items ≡ out.old.items ++ flat_map (reply_line caller) (map answer_of replies.now)) }
    ensures err { OnErr result (IsContinued out.old.items out.new.items) }
{
    for reply in replies {
        append_line(out, caller, reply)?;
    }
    Ok(())
}

/// Replies as lines behind what is there. On an error nothing is written.
fn write_lines(out: &mut Vec<u8>, caller: u64, replies: &[Reply]) -> Result<(), LineFault>
    ensures ok { OnOk result (out.new.items ≡ out.old.items ++ flat_map (reply_line caller) (map answer_of replies.now)) }
    ensures err { OnErr result (out.new.items ≡ out.old.items) }
    ensures fault { IsOkUnless result LineFault.OutOfMemory }
{
    let start = out.len();
    if append_lines(out, caller, replies).is_err() {
        out.truncate(start);
        return Err(LineFault::OutOfMemory);
    }
    Ok(())
}

/// Runs a call, and writes its reply behind what is there. On an error nothing is written.
fn serve_call(
    execution: &impl Execution,
    alloc: Global,
    book: &mut Book,
    out: &mut Vec<u8>,
    caller: u64,
    call: Call,
) -> Result<(), LineFault>
    requires { caller < CALLER_LIMIT }
    ensures memory { OnOk result (memory_of book.new ≡ (stepped (memory_of book.old) (task_of call)).memory) }
    ensures text { OnOk result (out.new.items
        ≡ out.old.items ++ reply_line caller (stepped (memory_of book.old) (task_of call)).answer) }
    ensures err { OnErr result (out.new.items ≡ out.old.items) }
    ensures fault { IsOkUnless result LineFault.OutOfMemory }
{
    match book.run(execution, alloc, caller, call) {
        Ok(answer) => write_line(out, caller, &answer.1),
        Err(_) => Err(LineFault::OutOfMemory),
    }
}

/// Runs the call that a text says in an edition, and writes its reply behind what is there. On an error nothing is written.
fn serve_text(
    execution: &impl Execution,
    alloc: Global,
    book: &mut Book,
    out: &mut Vec<u8>,
    edition: Edition,
    caller: u64,
    said: &[u8],
) -> Result<(), LineFault>
    requires { caller < CALLER_LIMIT }
    ensures good { OnOk result (IsTrue (is_good (asked caller (task_in edition (words_of said.now))))) }
    ensures memory { OnOk result (memory_of book.new
        ≡ memory_after_line (memory_of book.old) (asked caller (task_in edition (words_of said.now)))) }
    ensures text { OnOk result (out.new.items
        ≡ out.old.items ++ line_text (memory_of book.old) (asked caller (task_in edition (words_of said.now)))) }
    ensures bad { IsErrOf result LineFault.Bad → asked caller (task_in edition (words_of said.now)) ≡ Bad }
    ensures err { OnErr result (out.new.items ≡ out.old.items) }
{
    match Call::read_in(alloc, said, edition) {
        Ok(call) => serve_call(execution, alloc, book, out, caller, call),
        Err(fault) => Err(fault_of(fault)),
    }
}

/// Runs a block, and writes its replies behind what is there. On an error nothing is written.
fn serve_block(
    execution: &impl Execution,
    alloc: Global,
    book: &mut Book,
    out: &mut Vec<u8>,
    caller: u64,
    calls: Vec<Call>,
) -> Result<(), LineFault>
    requires caller { caller < CALLER_LIMIT }
    requires few { (1 ≤ length calls.items) × (length calls.items ≤ block_limit) }
    ensures memory { OnOk result (memory_of book.new ≡ memory_after_tasks (memory_of book.old) (map task_of calls.items)) }
    ensures text { OnOk result (out.new.items
        ≡ out.old.items ++ flat_map (reply_line caller) (answers_to (memory_of book.old) (map task_of calls.items))) }
    ensures err { OnErr result (out.new.items ≡ out.old.items) }
    ensures fault { IsOkUnless result LineFault.OutOfMemory }
{
    match book.run_block(execution, alloc, &mut Meter::new(), caller, calls) {
        Ok(answer) => write_lines(out, caller, &answer.1),
        Err(_) => Err(LineFault::OutOfMemory),
    }
}

/// Puts a book of edition 2 with the same room in the place of this one.
fn renew(alloc: Global, book: &mut Book) -> Result<(), LineFault>
    ensures memory { OnOk result (memory_of book.new ≡ empty (bounds_in Edition.Two (memory_of book.old).room)) }
    ensures fault { IsOkUnless result LineFault.OutOfMemory }
{
    match Book::with_edition(alloc, book.room(), Edition::Two) {
        Ok(anew) => {
            *book = anew;
            Ok(())
        }
        Err(_) => Err(LineFault::OutOfMemory),
    }
}

/// Serves a line, and writes the replies to what it asks for behind what is there. On an error nothing is written.
pub(crate) fn serve_line(
    execution: &impl Execution,
    alloc: Global,
    book: &mut Book,
    progress: &mut Progress,
    out: &mut Vec<u8>,
    line: &[u8],
) -> Result<(), LineFault>
    ensures good { OnOk result (IsTrue (is_good (line_of (stage_of progress.old) line.now))) }
    ensures memory { OnOk result (memory_of book.new
        ≡ memory_after_line (memory_of book.old) (line_of (stage_of progress.old) line.now)) }
    ensures stage { OnOk result (stage_of progress.new
        ≡ stage_after_line (stage_of progress.old) (line_of (stage_of progress.old) line.now)) }
    ensures text { OnOk result (out.new.items
        ≡ out.old.items ++ line_text (memory_of book.old) (line_of (stage_of progress.old) line.now)) }
    ensures bad { IsErrOf result LineFault.Bad → line_of (stage_of progress.old) line.now ≡ Bad }
    ensures err { OnErr result (out.new.items ≡ out.old.items) }
{
    match step(alloc, progress, line)? {
        Deed::Nothing => Ok(()),
        Deed::Renews => renew(alloc, book),
        Deed::Asks(edition, caller, said) => {
            serve_text(execution, alloc, book, out, edition, caller, said)
        }
        Deed::Closes(caller, calls) => serve_block(execution, alloc, book, out, caller, calls),
    }
}
