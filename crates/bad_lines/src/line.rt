//! Lines of scripts.

ghost use Rattle.std.specs.Prelude.{◌≡◌, is_none};
ghost use Rattle.bad_lines.specs.GoodLines.{caller_named, is_comment, is_good_line, is_head_at, no_caller, wrong_line};
ghost use Rattle.bad_lines.specs.Wrongs.{Tells};

use crate::block::wrong_ask;
use crate::place::Place;
use crate::reason::{Reason, Why};
use crate::word::next_word;

/// The greatest number of bytes of a line.
const LINE_LIMIT: usize = 1_048_576;

/// Whether a line is the head of a script of edition 2, in its first line.
fn is_head_at(place: Place, line: &[u8]) -> bool
    ensures { result ≡ is_head_at place line.now }
{
    place == Place::First && line == b"cvl 2".as_slice()
}

fn is_comment(word: &[u8]) -> bool
    ensures { result ≡ is_comment word.now }
{
    matches!(word, [b'#', ..])
}

/// The caller that a line's first word names.
fn caller_of(word: &[u8]) -> Option<u64>
    ensures { result ≡ caller_named word.now }
{
    match word {
        [d, b':'] if d.is_ascii_digit() => Some(u64::from(*d - b'0')),
        [d, e, b':'] if d.is_ascii_digit() && e.is_ascii_digit() && *d != b'0' => {
            let caller = 10 * (*d - b'0') + (*e - b'0');
            if caller < 64 {
                Some(u64::from(caller))
            } else {
                None
            }
        }
        _ => None,
    }
}

/// What is wrong with a first word that names no caller.
fn no_caller(word: &[u8]) -> Why
    ensures { result ≡ no_caller word.now }
{
    if word == b"cvl".as_slice() {
        Why::NoHead
    } else {
        Why::NoCaller
    }
}

/// What is wrong with a line at its place.
#[tactic(auto, unfolding(crate::specs::GoodLines::wrong_line))]
fn wrong_line(line: &[u8], place: Place) -> Option<Reason<'_>>
    ensures { Tells result line.now (wrong_line place line.now) }
{
    if is_head_at(place, line) {
        return None;
    }
    if line.len() > LINE_LIMIT {
        return Some(Reason::of_end(line, b"", Why::TooLong));
    }
    let first = next_word(line, 0)?;
    if is_comment(first.bytes) {
        return None;
    }
    match caller_of(first.bytes) {
        Some(caller) => wrong_ask(place, caller, line, first.end),
        None => Some(Reason::of_word(first, b"", no_caller(first.bytes))),
    }
}

/// Why a line is bad at its place, which is told exactly where it is bad there.
pub fn why_bad(line: &[u8], place: Place) -> Option<Reason<'_>>
    ensures good { is_none result ≡ is_good_line place line.now }
    ensures reason { Tells result line.now (wrong_line place line.now) }
{
    wrong_line(line, place)
}
