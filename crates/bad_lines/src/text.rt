//! Reasons in words for people.
#![tactic(auto, using(crate::proofs::Printing::printed_nothing, crate::proofs::Printing::printed_then))]

ghost use Rattle.std.specs.Prelude.{◌≡◌, ◌++◌, OnOk, map};
ghost use Rattle.bad_lines.specs.Printed.{IsPrintedOn, quoted, shown, shown_word};

use crate::hint::hint;
use crate::message::{message, odd_message};
use crate::nearest::nearest;
use crate::reason::{Reason, Why};
use std::alloc::AllocError;

/// The greatest number of bytes of a word that are shown.
const SHOWN_LIMIT: usize = 40;

/// A byte as it is shown.
fn shown(byte: u8) -> u8
    ensures { result ≡ shown byte }
{
    match byte {
        b' '..=b'~' => byte,
        _ => b'?',
    }
}

/// Appends a text as it is shown.
fn append_shown(out: &mut Vec<u8>, text: &[u8]) -> Result<(), AllocError>
    ensures ok { OnOk result (out.new.items ≡ out.old.items ++ map shown text.now) }
    ensures printed { IsPrintedOn out.old.items out.new.items }
{
    for byte in text {
        out.push(shown(*byte))?;
    }
    Ok(())
}

/// Appends a word, of a long one the beginning.
fn append_word(out: &mut Vec<u8>, word: &[u8]) -> Result<(), AllocError>
    ensures ok { OnOk result (out.new.items ≡ out.old.items ++ shown_word word.now) }
    ensures printed { IsPrintedOn out.old.items out.new.items }
{
    if word.len() <= SHOWN_LIMIT {
        return append_shown(out, word);
    }
    let (front, _) = word.split_at(SHOWN_LIMIT);
    append_shown(out, front)?;
    append_shown(out, b"..")
}

fn append_number(out: &mut Vec<u8>, number: u64) -> Result<(), AllocError>
    ensures { IsPrintedOn out.old.items out.new.items }
{
    let mut digits = itoa::Buffer::new();
    append_shown(out, digits.format(number).as_bytes())
}

/// Appends the word that is wrong, in quotes, if there is one.
fn append_found(out: &mut Vec<u8>, found: &[u8]) -> Result<(), AllocError>
    ensures ok { OnOk result (out.new.items ≡ out.old.items ++ quoted found.now) }
    ensures printed { IsPrintedOn out.old.items out.new.items }
{
    if found.is_empty() {
        return Ok(());
    }
    append_shown(out, b"`")?;
    append_word(out, found)?;
    append_shown(out, b"` ")
}

/// The first byte of a word that is not printable.
fn odd_byte(word: &[u8]) -> Option<u8> {
    word.iter().copied().find(|byte| shown(*byte) != *byte)
}

/// Appends what is wrong with a word that has such a byte.
fn append_odd(out: &mut Vec<u8>, byte: u8) -> Result<(), AllocError>
    ensures { IsPrintedOn out.old.items out.new.items }
{
    append_shown(out, odd_message(byte))?;
    append_number(out, u64::from(byte))
}

/// Appends what a message ends with.
fn append_detail(out: &mut Vec<u8>, reason: &Reason<'_>) -> Result<(), AllocError>
    ensures { IsPrintedOn out.old.items out.new.items }
{
    match reason.why {
        Why::OtherCaller(caller) => append_number(out, caller),
        Why::NoTarget => append_word(out, reason.found),
        Why::Ends(_) | Why::TooMany => append_word(out, reason.call),
        _ => Ok(()),
    }
}

/// Appends the nearest call word, if one is near.
fn append_nearest(out: &mut Vec<u8>, word: &[u8]) -> Result<(), AllocError>
    ensures { IsPrintedOn out.old.items out.new.items }
{
    let Some(near) = nearest(word) else {
        return Ok(());
    };
    append_shown(out, b"; nearest: ")?;
    append_shown(out, near)
}

/// Appends what may help.
fn append_help(out: &mut Vec<u8>, why: Why, word: &[u8]) -> Result<(), AllocError>
    ensures { IsPrintedOn out.old.items out.new.items }
{
    append_shown(out, hint(why, word))?;
    if why == Why::NoWord {
        append_nearest(out, word)
    } else {
        Ok(())
    }
}

/// Appends what is wrong.
fn append_why(out: &mut Vec<u8>, reason: &Reason<'_>) -> Result<(), AllocError>
    ensures { IsPrintedOn out.old.items out.new.items }
{
    append_shown(out, message(reason.why))?;
    append_detail(out, reason)?;
    append_help(out, reason.why, reason.found)
}

/// Appends a reason in words for people, without the line's number and without a line feed. Bytes that are not printable are
/// shown as `?`, and of a long word its beginning. On an error a part may be written.
pub fn append_reason(out: &mut Vec<u8>, reason: &Reason<'_>) -> Result<(), AllocError>
    ensures begins { OnOk result (IsPrintedOn (out.old.items ++ quoted reason.now.found.now) out.new.items) }
    ensures printed { IsPrintedOn out.old.items out.new.items }
{
    append_found(out, reason.found)?;
    match odd_byte(reason.found) {
        Some(byte) => append_odd(out, byte),
        None => append_why(out, reason),
    }
}
