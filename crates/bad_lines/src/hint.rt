//! What is added to a reason where it may help.

use crate::number::is_number;
use crate::reason::Why;
use crate::word::has_byte;

/// For a first word that names no caller.
fn caller_hint(word: &[u8]) -> &'static [u8] {
    match word {
        b"help" | b"-h" | b"--help" | b"?" => b"; cvl --help tells what there is",
        b"quit" | b"exit" => b"; the end of the input ends the run: Ctrl-D",
        [b'0'..=b'9'] | [b'0'..=b'9', b'0'..=b'9'] =>
            b"; the colon is missing, or a space stands before it",
        [b'0'..=b'9', .., b':'] => b"; the greatest is 63, and no zero is needless",
        [b'0'..=b'9', ..] => b"; the colon or the space behind it is missing",
        _ => b"",
    }
}

/// For a word that stands where a call word is expected, and is far from one.
fn word_hint(word: &[u8]) -> &'static [u8] {
    match word {
        b"=" => b"; a name is missing before it",
        _ if has_byte(word, b'=') => b"; = is a word of its own, with spaces round it",
        [b'0'..=b'9', ..] | [b'-', ..] => b"; integers are set by z, as a = z 1 2",
        b"T" | b"F" => b"; truth values are set by b, as f = b T F",
        b"s" => b"; segment lists are made by mke_fov",
        _ if word.iter().any(u8::is_ascii_uppercase) => b": words are written small",
        _ => b"",
    }
}

/// What may help.
pub(crate) fn hint(why: Why, word: &[u8]) -> &'static [u8] {
    match why {
        Why::NoTarget => b" ..",
        _ if word.first() == Some(&b'#') => b"; a comment has a line of its own",
        Why::NoCaller => caller_hint(word),
        Why::NoWord => word_hint(word),
        Why::NoName(_) if is_number(word) => b"; a number is made a vector by dis_vuz",
        Why::NoName(_) | Why::NoNumber | Why::NoTruth if has_byte(word, b',') =>
            b"; spaces part words",
        _ => b"",
    }
}
