//! Calls from the lines of a text.

ghost use Rattle.std.specs.Prelude.{◌≡◌, [], ◌∷◌, ◌<◌, position, drop, length, MatchOption, IfSome};
ghost use Rattle.cvl_port.specs.Lines.{ReadsAll, is_feed, line_len, lines_of, tasks_in};

use cvl_text::{Call, ReadFault};
use std::alloc::Global;

fn first_feed(text: &[u8]) -> Option<usize>
    ensures { result ≡ position is_feed text.now }
{
    text.iter().position(|b| *b == b'\n')
}

/// How many bytes stand in front of the first line feed.
#[tactic(auto, using(crate::proofs::LineLemmas::len_from_position))]
fn line_len(text: &[u8]) -> usize
    ensures { result ≡ line_len text.now }
{
    first_feed(text).unwrap_or(text.len())
}

/// All but the first byte.
fn behind_first(text: &[u8]) -> &[u8]
    ensures { result.now ≡ drop 1 text.now }
{
    match text {
        [_, behind @ ..] => behind,
        [] => text,
    }
}

/// The first line, and the text behind it.
fn next_line(text: &[u8]) -> Option<(&[u8], &[u8])>
    ensures lines { MatchOption result (lines_of text.now ≡ []) (λ p. lines_of text.now ≡ p.0.now ∷ lines_of p.1.now) }
    ensures shorter { IfSome result (λ p. length p.1.now < length text.now) }
{
    if text.is_empty() {
        return None;
    }
    let (line, rest) = text.split_at(line_len(text));
    Some((line, behind_first(rest)))
}

/// The calls of all lines.
pub(crate) fn calls_in(alloc: Global, text: &[u8]) -> Result<Vec<Call>, ReadFault>
    ensures { ReadsAll result (tasks_in text.now) }
{
    let mut calls = Vec::new(alloc);
    let mut rest = text;
    while let Some((line, behind)) = next_line(rest) {
        let call = Call::read(alloc, line)?;
        let Ok(()) = calls.push(call) else {
            return Err(ReadFault::OutOfMemory);
        };
        rest = behind;
    }
    Ok(calls)
}
