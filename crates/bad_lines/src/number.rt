//! Numbers as words: a word writes a number where the number is written so.

ghost use Rattle.std.specs.Prelude.{◌≡◌, is_some};
ghost use Rattle.cvl_text.specs.Numbers.{number_of};

/// Whether a word writes a number.
pub(crate) fn is_number(word: &[u8]) -> bool
    ensures { result ≡ is_some (number_of word.now) }
{
    let Ok(text) = std::str::from_utf8(word) else {
        return false;
    };
    let Ok(number) = text.parse::<i64>() else {
        return false;
    };
    itoa::Buffer::new().format(number).as_bytes() == word
}
