//! Words and where they stand in their text.

ghost use Rattle.std.specs.Prelude.{◌≡◌, ◌≤◌, ◌+◌, [], length, drop, MatchOption};
ghost use Rattle.cvl_text.specs.Words.{skip_spaces, word_len, words_of};
ghost use Rattle.bad_lines.specs.Places.{IsNextWord};
ghost use Rattle.bad_lines.specs.Wrongs.{has_byte};

/// A word of a text: the bytes from `at` to `end`.
#[derive(Clone, Copy)]
pub(crate) struct Word<'a> {
    pub(crate) at: usize,
    pub(crate) bytes: &'a [u8],
    pub(crate) end: usize,
}

/// The first place from `from` on where no space stands, or the end.
fn skip_spaces(text: &[u8], from: usize) -> usize
    requires { from ≤ length text.now }
    ensures within { result ≤ length text.now }
    ensures skips { drop result text.now ≡ skip_spaces (drop from text.now) }
{
    let mut at = from;
    while at < text.len() && text[at] == b' ' {
        at += 1;
    }
    at
}

/// The first place from `from` on where a space stands, or the end.
fn word_end(text: &[u8], from: usize) -> usize
    requires { from ≤ length text.now }
    ensures within { result ≤ length text.now }
    ensures len { result ≡ from + word_len (drop from text.now) }
{
    let mut end = from;
    while end < text.len() && text[end] != b' ' {
        end += 1;
    }
    end
}

/// The first word from `from` on.
pub(crate) fn next_word(text: &[u8], from: usize) -> Option<Word<'_>>
    requires { from ≤ length text.now }
    ensures { MatchOption result (words_of (drop from text.now) ≡ []) (IsNextWord text.now from) }
{
    let at = skip_spaces(text, from);
    if at == text.len() {
        return None;
    }
    let end = word_end(text, at);
    Some(Word {
        at,
        bytes: &text[at..end],
        end,
    })
}

/// Whether a byte stands in a word.
pub(crate) fn has_byte(word: &[u8], byte: u8) -> bool
    ensures { result ≡ has_byte word.now byte }
{
    word.iter().any(|b| *b == byte)
}
