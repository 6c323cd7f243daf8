//! Texts that are to be calls.

ghost use Rattle.std.specs.Prelude.{◌≡◌, ◌≤◌, is_none, is_some, length, drop};
ghost use Rattle.cvl_text.specs.Lines.{task_in};
ghost use Rattle.cvl_text.specs.Words.{words_of};
ghost use Rattle.bad_lines.specs.Wrongs.{Tells, wrong_behind, wrong_in};

use crate::arguments::first_wrong;
use crate::kind::{Kind, fits};
use crate::reason::{Reason, Why};
use crate::table::usage_of;
use crate::word::{has_byte, next_word};
use vector_memory::Edition;

/// What is wrong from `from` on, where a call word is to stand, with a target in front of it or without one.
#[tactic(auto, unfolding(crate::specs::Wrongs::wrong_behind))]
fn wrong_behind(edition: Edition, has_target: bool, text: &[u8], from: usize) -> Option<Reason<'_>>
    requires { from ≤ length text.now }
    ensures { Tells result text.now (wrong_behind edition has_target (words_of (drop from text.now))) }
{
    let Some(word) = next_word(text, from) else {
        return Some(Reason::of_end(text, b"", Why::NoCall));
    };
    let Some(usage) = usage_of(word.bytes) else {
        return Some(Reason::of_word(word, b"", Why::NoWord));
    };
    match (has_target, usage.has_target) {
        (true, false) => Some(Reason::of_word(word, b"", Why::HasTarget)),
        (false, true) => Some(Reason::of_word(word, b"", Why::NoTarget)),
        _ => first_wrong(edition, word.bytes, usage, text, word.end),
    }
}

/// What is wrong from `from` on, where a call is to stand.
#[tactic(auto, unfolding(crate::specs::Wrongs::wrong_in))]
pub(crate) fn wrong_in(edition: Edition, text: &[u8], from: usize) -> Option<Reason<'_>>
    requires { from ≤ length text.now }
    ensures { Tells result text.now (wrong_in edition (words_of (drop from text.now))) }
{
    let Some(first) = next_word(text, from) else {
        return wrong_behind(edition, false, text, from);
    };
    let Some(second) = next_word(text, first.end) else {
        return wrong_behind(edition, false, text, from);
    };
    if second.bytes != b"=".as_slice() {
        if has_byte(second.bytes, b'=') && usage_of(first.bytes).is_none() {
            return Some(Reason::of_word(second, b"", Why::NoWord));
        }
        return wrong_behind(edition, false, text, from);
    }
    if !fits(edition, Kind::Name, first.bytes) {
        return Some(Reason::of_word(first, b"", Why::NoName(edition)));
    }
    wrong_behind(edition, true, text, second.end)
}

/// Why a text is no call of the edition, which is told exactly where it is none: the part of a line behind the caller's
/// word, with spaces as they come.
pub fn why_no_call(text: &[u8], edition: Edition) -> Option<Reason<'_>>
    ensures call { is_none result ≡ is_some (task_in edition (words_of text.now)) }
    ensures reason { Tells result text.now (wrong_in edition (words_of text.now)) }
{
    wrong_in(edition, text, 0)
}
