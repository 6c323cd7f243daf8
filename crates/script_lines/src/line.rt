//! One line of a script, as it is read.

ghost use Rattle.std.specs.Prelude.{◌≡◌, ◌++◌, ◌<◌, length, IfOk, IfSome, OnOk, OnErr, IsErrOf};
ghost use Rattle.cvl_text.specs.Lines.{task_in};
ghost use Rattle.cvl_text.specs.Words.{words_of};
ghost use Rattle.script_lines.specs.Asks.{IsAsk, IsCallOf, fault_of};
ghost use Rattle.script_lines.specs.Scripts.{line_limit, caller_named, is_alone, is_comment};

use call_history::CALLER_LIMIT;
use cvl_text::{Call, ReadFault, next_word};
use std::alloc::Global;
use vector_memory::Edition;

/// The greatest number of bytes of a line.
pub(crate) const LINE_LIMIT: usize = 1_048_576;

/// Why a line was not served.
#[derive(Clone, Copy)]
pub enum LineFault {
    Bad,
    OutOfMemory,
}

/// Keeps what is read of a line behind the last line feed. It is bad as soon as it is too long.
pub(crate) fn keep_rest(partial: &mut Vec<u8>, rest: &[u8]) -> Result<(), LineFault>
    ensures ok { OnOk result (partial.new.items ≡ partial.old.items ++ rest.now) }
    ensures err { OnErr result (partial.new.items ≡ partial.old.items) }
    ensures bad { IsErrOf result LineFault.Bad → line_limit < length (partial.old.items ++ rest.now) }
{
    if rest.len() > LINE_LIMIT.saturating_sub(partial.len()) {
        return Err(LineFault::Bad);
    }
    match partial.extend_from_slice(rest) {
        Ok(()) => Ok(()),
        Err(_) => Err(LineFault::OutOfMemory),
    }
}

/// The caller that a line's first word names.
fn caller_of(word: &[u8]) -> Option<u8>
    ensures caller { result ≡ caller_named word.now }
    ensures lawful { IfSome result (λ caller. caller < CALLER_LIMIT) }
{
    match word {
        [d, b':'] if d.is_ascii_digit() => Some(*d - b'0'),
        [d, e, b':'] if d.is_ascii_digit() && e.is_ascii_digit() && *d != b'0' => {
            let caller = 10 * (*d - b'0') + (*e - b'0');
            if caller < 64 { Some(caller) } else { None }
        }
        _ => None,
    }
}

/// Whether a line with this first word says nothing.
fn is_comment(word: &[u8]) -> bool
    ensures { result ≡ is_comment word.now }
{
    match word.first() {
        Some(first) => *first == b'#',
        None => false,
    }
}

/// Whether a text has this one word.
pub(crate) fn is_alone(text: &[u8], word: &[u8]) -> bool
    ensures { result ≡ is_alone word.now (words_of text.now) }
{
    match next_word(text) {
        Some((first, rest)) => first == word && next_word(rest).is_none(),
        None => false,
    }
}

/// Who speaks in a line that is no head, and the text behind that; None where the line says nothing.
#[tactic(auto, unfolding(crate::specs::Scripts::plain_line))]
pub(crate) fn ask_in(line: &[u8]) -> Result<Option<(u8, &[u8])>, LineFault>
    ensures ask { IsAsk result line.now }
    ensures lawful { IfOk result (λ ask. IfSome ask (λ a. a.0 < CALLER_LIMIT)) }
{
    if line.len() > LINE_LIMIT {
        return Err(LineFault::Bad);
    }
    let Some((first, text)) = next_word(line) else {
        return Ok(None);
    };
    if is_comment(first) {
        return Ok(None);
    }
    match caller_of(first) {
        Some(caller) => Ok(Some((caller, text))),
        None => Err(LineFault::Bad),
    }
}

/// Why a line was not served whose call was not read.
pub(crate) fn fault_of(fault: ReadFault) -> LineFault
    ensures { result ≡ fault_of fault }
{
    match fault {
        ReadFault::BadCall => LineFault::Bad,
        ReadFault::OutOfMemory => LineFault::OutOfMemory,
    }
}

/// The call that a text asks for in an edition.
pub(crate) fn read_call(alloc: Global, edition: Edition, text: &[u8]) -> Result<Call, LineFault>
    ensures { IsCallOf result (task_in edition (words_of text.now)) }
{
    match Call::read_in(alloc, text, edition) {
        Ok(call) => Ok(call),
        Err(fault) => Err(fault_of(fault)),
    }
}
