//! The call word that comes nearest to a text.

ghost use Rattle.std.specs.Prelude.{◌≡◌, ◌≤◌, [], length, map, reverse, MatchOption};
ghost use Rattle.cvl_text.specs.Words.{words_of};
ghost use Rattle.bad_lines.specs.Agreement.{IsFar, IsNearest, agreeing, agreement, nearer, nearest_in, nearest_of};

use crate::table::{ROWS, Row};
use cvl_text::next_word;

/// The least agreement of a word that is told.
const LEAST_AGREEMENT: usize = 3;

/// How many bytes agree at the front, but for capitals.
#[tactic(auto, unfolding(crate::specs::Agreement::agreeing))]
fn agreeing_front(word: &[u8], text: &[u8]) -> usize
    ensures count { result ≡ agreeing word.now text.now }
    ensures within_word { result ≤ length word.now }
    ensures within_text { result ≤ length text.now }
{
    let mut word = word;
    let mut text = text;
    let mut count = 0;
    while let Some((a, word_behind)) = word.split_first() {
        let Some((b, text_behind)) = text.split_first() else {
            return count;
        };
        if !a.eq_ignore_ascii_case(b) {
            return count;
        }
        count += 1;
        word = word_behind;
        text = text_behind;
    }
    count
}

/// How many bytes agree at the end, but for capitals.
#[tactic(auto, unfolding(crate::specs::Agreement::agreeing))]
fn agreeing_end(word: &[u8], text: &[u8]) -> usize
    ensures count { result ≡ agreeing (reverse word.now) (reverse text.now) }
    ensures within_word { result ≤ length word.now }
{
    let mut word = word;
    let mut text = text;
    let mut count = 0;
    while let Some((a, word_before)) = word.split_last() {
        let Some((b, text_before)) = text.split_last() else {
            return count;
        };
        if !a.eq_ignore_ascii_case(b) {
            return count;
        }
        count += 1;
        word = word_before;
        text = text_before;
    }
    count
}

/// How many bytes agree at the front and, of the others, at the end, but for capitals.
#[tactic(auto, unfolding(crate::specs::Agreement::agreement))]
fn agreement(word: &[u8], text: &[u8]) -> usize
    ensures { result ≡ agreement word.now text.now }
{
    let front = agreeing_front(word, text);
    front + agreeing_end(&word[front..], &text[front..])
}

/// The one of two words that agrees more with a text, the first where both agree alike.
fn nearer(text: &[u8], word: &'static [u8], other: &'static [u8]) -> &'static [u8]
    ensures { result.now ≡ nearer text.now word.now other.now }
{
    if agreement(word, text) < agreement(other, text) {
        other
    } else {
        word
    }
}

/// The nearest of a word and others behind it, the first of those that agree alike.
fn nearest_of(text: &[u8], word: &'static [u8], others: &'static [u8]) -> &'static [u8]
    ensures { result.now ≡ nearest_of text.now word.now (words_of others.now) }
{
    let mut nearest = word;
    let mut rest = others;
    while let Some((other, behind)) = next_word(rest) {
        nearest = nearer(text, nearest, other);
        rest = behind;
    }
    nearest
}

/// The nearest of the words of some rows, the first of those that agree alike.
fn nearest_in(text: &[u8], rows: &'static [Row]) -> &'static [u8]
    ensures { result.now ≡ nearest_in text.now [] (map (λ row. words_of row.0.now) rows.now) }
{
    let mut nearest = b"".as_slice();
    for (words, _, _, _) in rows {
        nearest = nearest_of(text, nearest, words);
    }
    nearest
}

/// The call word that is nearest to a text, where it is near.
pub(crate) fn nearest(text: &[u8]) -> Option<&'static [u8]>
    ensures { MatchOption result (IsFar text.now) (λ word. IsNearest text.now word.now) }
{
    let word = nearest_in(text, &ROWS);
    if agreement(word, text) < LEAST_AGREEMENT {
        return None;
    }
    Some(word)
}
