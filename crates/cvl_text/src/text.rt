//! Words of a line.

ghost use Rattle.std.specs.Prelude.{◌≡◌, [], ◌∷◌, position, length, MatchOption};
ghost use Rattle.cvl_text.specs.Words.{words_of, skip_spaces, is_space, word_len};

/// The text from its first byte that is no space.
fn skip_spaces(text: &[u8]) -> &[u8]
    ensures { result.now ≡ skip_spaces text.now }
{
    let mut rest = text;
    while let [b' ', after @ ..] = rest {
        rest = after;
    }
    rest
}

fn first_space(text: &[u8]) -> Option<usize>
    ensures { result ≡ position is_space text.now }
{
    text.iter().position(|b| *b == b' ')
}

/// The length of the word at the front.
#[tactic(auto, using(crate::proofs::WordLemmas::end_from_position))]
fn word_len(text: &[u8]) -> usize
    ensures { result ≡ word_len text.now }
{
    first_space(text).unwrap_or(text.len())
}

/// The first word, and the text after it.
pub fn next_word(text: &[u8]) -> Option<(&[u8], &[u8])>
    ensures { MatchOption result (words_of text.now ≡ [])
        (λ p. words_of text.now ≡ p.0.now ∷ words_of p.1.now) }
{
    let text = skip_spaces(text);
    if text.is_empty() {
        return None;
    }
    Some(text.split_at(word_len(text)))
}

/// The number of words. A word begins at each byte that is no space and has none in front of it.
pub(crate) fn count_words(text: &[u8]) -> usize
    ensures { result ≡ length (words_of text.now) }
{
    let mut count = 0;
    let mut in_word = false;
    for byte in text {
        let is_filled = *byte != b' ';
        count += usize::from(is_filled & !in_word);
        in_word = is_filled;
    }
    count
}
