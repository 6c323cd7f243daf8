//! The arguments of a call word: the first that is wrong.

ghost use Rattle.std.specs.Prelude.{◌≡◌, ◌≤◌, length, drop};
ghost use Rattle.cvl_text.specs.Words.{words_of};
ghost use Rattle.bad_lines.specs.Forms.{form_of_usage};
ghost use Rattle.bad_lines.specs.Wrongs.{Tells, first_extra, first_misfit, first_wrong, misfit};

use crate::kind::{Kind, fits};
use crate::reason::{Reason, Why};
use crate::table::{Further, Usage};
use crate::word::next_word;
use vector_memory::Edition;

/// What is wrong with a word that is not of the kind.
fn misfit(edition: Edition, kind: Kind) -> Why
    ensures { result ≡ misfit edition kind }
{
    match kind {
        Kind::Name => Why::NoName(edition),
        Kind::Number => Why::NoNumber,
        Kind::Truth => Why::NoTruth,
    }
}

/// The first word from `from` on that is not of the kind.
fn first_misfit<'a>(
    edition: Edition,
    call: &'a [u8],
    kind: Kind,
    text: &'a [u8],
    from: usize,
) -> Option<Reason<'a>>
    requires { from ≤ length text.now }
    ensures { Tells result text.now (first_misfit edition call.now kind (words_of (drop from text.now))) }
{
    let mut from = from;
    while let Some(word) = next_word(text, from) {
        if !fits(edition, kind, word.bytes) {
            return Some(Reason::of_word(word, call, misfit(edition, kind)));
        }
        from = word.end;
    }
    None
}

/// The first word from `from` on, where none is to stand.
fn first_extra<'a>(call: &'a [u8], text: &'a [u8], from: usize) -> Option<Reason<'a>>
    requires { from ≤ length text.now }
    ensures { Tells result text.now (first_extra call.now (words_of (drop from text.now))) }
{
    let word = next_word(text, from)?;
    Some(Reason::of_word(word, call, Why::TooMany))
}

/// The first wrong word from `from` on, where the arguments of a call word are to stand.
pub(crate) fn first_wrong<'a>(
    edition: Edition,
    call: &'a [u8],
    usage: Usage,
    text: &'a [u8],
    from: usize,
) -> Option<Reason<'a>>
    requires { from ≤ length text.now }
    ensures { Tells result text.now (first_wrong edition call.now (form_of_usage usage).arguments (words_of (drop from text.now))) }
{
    let mut from = from;
    for kind in usage.kinds {
        let Some(word) = next_word(text, from) else {
            return Some(Reason::of_end(text, call, Why::Ends(*kind)));
        };
        if !fits(edition, *kind, word.bytes) {
            return Some(Reason::of_word(word, call, misfit(edition, *kind)));
        }
        from = word.end;
    }
    match usage.further {
        Further::Nothing => first_extra(call, text, from),
        Further::Numbers => first_misfit(edition, call, Kind::Number, text, from),
        Further::Truths => first_misfit(edition, call, Kind::Truth, text, from),
    }
}
