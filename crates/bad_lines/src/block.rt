//! What a caller says at a place: calls, and the braces of blocks.

ghost use Rattle.std.specs.Prelude.{◌≡◌, ◌≤◌, [], length, drop};
ghost use Rattle.cvl_text.specs.Words.{words_of};
ghost use Rattle.bad_lines.specs.GoodLines.{is_alone, no_word_at, told_at, why_at, wrong_ask, wrong_inside};
ghost use Rattle.bad_lines.specs.Wrongs.{IsReason, Tells, wrong, wrong_in};

use crate::call::wrong_in;
use crate::place::Place;
use crate::reason::{Reason, Why};
use crate::word::next_word;
use vector_memory::Edition;

/// The greatest number of calls of a block.
const BLOCK_LIMIT: usize = 1_024;

/// Whether this one word stands from `from` on.
fn is_alone(text: &[u8], from: usize, word: &[u8]) -> bool
    requires { from ≤ length text.now }
    ensures { result ≡ is_alone word.now (words_of (drop from text.now)) }
{
    match next_word(text, from) {
        Some(first) => first.bytes == word && next_word(text, first.end).is_none(),
        None => false,
    }
}

/// A reason at the first word from `from` on.
fn at_next(text: &[u8], from: usize, why: Why) -> Reason<'_>
    requires { from ≤ length text.now }
    ensures { IsReason text.now (wrong why [] (words_of (drop from text.now))) result }
{
    match next_word(text, from) {
        Some(word) => Reason::of_word(word, b"", why),
        None => Reason::of_end(text, b"", why),
    }
}

/// What is wrong with a word that is no call word, by its place.
fn no_word_at(place: Place, word: &[u8]) -> Why
    ensures { result ≡ no_word_at place word.now }
{
    if word == b"{".as_slice() {
        match place {
            Place::First | Place::Outside(Edition::One) => Why::NoBlocks,
            Place::Outside(Edition::Two) => Why::BehindBrace,
            Place::Inside { .. } => Why::BlockInBlock,
        }
    } else if word == b"}".as_slice() {
        match place {
            Place::First | Place::Outside(Edition::One) => Why::NoBlocks,
            Place::Outside(Edition::Two) => Why::NoBlock,
            Place::Inside { .. } => Why::BehindBrace,
        }
    } else {
        Why::NoWord
    }
}

/// What is wrong with a call, by its place.
fn why_at(place: Place, why: Why, word: &[u8]) -> Why
    ensures { result ≡ why_at place why word.now }
{
    match why {
        Why::NoWord => no_word_at(place, word),
        _ => why,
    }
}

/// What is wrong from `from` on, where a call is to stand.
fn wrong_call_at(place: Place, edition: Edition, text: &[u8], from: usize) -> Option<Reason<'_>>
    requires { from ≤ length text.now }
    ensures { Tells result text.now (told_at place (wrong_in edition (words_of (drop from text.now)))) }
{
    let reason = wrong_in(edition, text, from)?;
    let why = why_at(place, reason.why, reason.found);
    Some(Reason { why, ..reason })
}

/// What is wrong with what a caller says in a block of edition 2 that has so many calls.
fn wrong_inside(own: u64, calls: usize, text: &[u8], from: usize) -> Option<Reason<'_>>
    requires { from ≤ length text.now }
    ensures { Tells result text.now (wrong_inside own calls (words_of (drop from text.now))) }
{
    if is_alone(text, from, b"}") {
        return if calls == 0 {
            Some(at_next(text, from, Why::EmptyBlock))
        } else {
            None
        };
    }
    let place = Place::Inside { caller: own, calls };
    match wrong_call_at(place, Edition::Two, text, from) {
        None if calls >= BLOCK_LIMIT => Some(at_next(text, from, Why::FullBlock)),
        reason => reason,
    }
}

/// What is wrong with what a caller says from `from` on.
#[tactic(auto, unfolding(crate::specs::GoodLines::wrong_ask))]
pub(crate) fn wrong_ask(place: Place, caller: u64, text: &[u8], from: usize) -> Option<Reason<'_>>
    requires { from ≤ length text.now }
    ensures { Tells result text.now (wrong_ask place caller (words_of text.now) (words_of (drop from text.now))) }
{
    match place {
        Place::First => wrong_call_at(place, Edition::One, text, from),
        Place::Outside(Edition::One) => wrong_call_at(place, Edition::One, text, from),
        Place::Outside(Edition::Two) => {
            if is_alone(text, from, b"{") {
                None
            } else {
                wrong_call_at(place, Edition::Two, text, from)
            }
        }
        Place::Inside { caller: own, calls } => {
            if caller == own {
                wrong_inside(own, calls, text, from)
            } else {
                Some(at_next(text, 0, Why::OtherCaller(own)))
            }
        }
    }
}
