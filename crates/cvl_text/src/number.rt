//! Numbers from the words that write them, and numbers as they are written.

ghost use Rattle.std.specs.Prelude.{◌≡◌, ◌↔◌, ◌≤◌, ◌<◌, ◌+◌, ◌∷◌, ◌++◌, length, vec_len, vec_capacity, MatchOption, IsTrue, IsFalse, OnOk, OnErr, is_ok, if◌then◌else◌};
ghost use Rattle.std.specs.Char.{digit_value};
ghost use Rattle.std.specs.Fmt.{decimal, signed_decimal};
ghost use Rattle.std.specs.Str.Parse.{AllDigits, digits_value, starts_with_minus};
ghost use Rattle.cvl_text.specs.Numbers.{IsShort, IsNoDecimal, number_of};

use std::alloc::AllocError;

/// How many digits the greatest magnitude has.
const MOST_DIGITS: usize = 19;

/// The least magnitude that no number of the range has without a sign.
const LIMIT: u64 = 0x8000_0000_0000_0000;

fn digit(byte: u8) -> Option<u8>
    ensures { MatchOption result (10 ≤ digit_value byte) (λ d. (d ≡ digit_value byte) × (d < 10)) }
{
    if byte.is_ascii_digit() {
        Some(byte - b'0')
    } else {
        None
    }
}

/// The value of digits.
fn digits(text: &[u8]) -> Option<u64>
    requires { length text.now ≤ 19 }
    ensures { MatchOption result (AllDigits 10 text.now → ⊥) (λ n. AllDigits 10 text.now × (n ≡ digits_value 10 text.now)) }
{
    let mut value = 0;
    for byte in text {
        value = value * 10 + u64::from(digit(*byte)?);
    }
    Some(value)
}

/// Whether a text has as many bytes as a magnitude may have digits, and no zero in front of others.
fn is_short(text: &[u8]) -> bool
    ensures { IsTrue result ↔ IsShort text.now }
{
    match text {
        [] => false,
        [_] => true,
        [first, ..] => *first != b'0' && text.len() <= MOST_DIGITS,
    }
}

/// The magnitude that a text is the decimal spelling of.
fn magnitude(text: &[u8]) -> Option<u64>
    ensures { MatchOption result (IsNoDecimal text.now) (λ n. text.now ≡ decimal n) }
{
    if is_short(text) { digits(text) } else { None }
}

/// The number of a text without a sign.
fn unsigned_number(text: &[u8]) -> Option<i64>
    requires { IsFalse (starts_with_minus text.now) }
    ensures { result ≡ number_of text.now }
{
    let magnitude = magnitude(text)?;
    if magnitude < LIMIT {
        Some(magnitude as i64)
    } else {
        None
    }
}

/// The number of a text after `-`. It is taken as `-1 - (magnitude - 1)`, since its magnitude may be past the range.
fn negative_number(text: &[u8]) -> Option<i64>
    ensures { result ≡ number_of (45 ∷ text.now) }
{
    let magnitude = magnitude(text)?;
    let below = magnitude.checked_sub(1)?;
    if below < LIMIT {
        Some(-1 - below as i64)
    } else {
        None
    }
}

/// The number that a word writes.
pub(crate) fn number_of(word: &[u8]) -> Option<i64>
    ensures { result ≡ number_of word.now }
{
    match word {
        [b'-', magnitude @ ..] => negative_number(magnitude),
        _ => unsigned_number(word),
    }
}

/// Appends a number.
pub(crate) fn append_number(out: &mut Vec<u8>, number: i64) -> Result<(), AllocError>
    ensures items { out.new.items ≡ (if is_ok result then out.old.items ++ signed_decimal number else out.old.items) }
    ensures len { OnOk result (vec_len out.new ≡ vec_len out.old + length (signed_decimal number)) }
    ensures capacity { vec_capacity out.old ≤ vec_capacity out.new }
    ensures full { OnErr result (vec_capacity out.old < vec_len out.old + length (signed_decimal number)) }
{
    let mut buffer = itoa::Buffer::new();
    out.extend_from_slice(buffer.format(number).as_bytes())
}

/// Appends a number that is not below 0.
pub(crate) fn append_count(out: &mut Vec<u8>, count: usize) -> Result<(), AllocError>
    ensures items { out.new.items ≡ (if is_ok result then out.old.items ++ decimal count else out.old.items) }
    ensures len { OnOk result (vec_len out.new ≡ vec_len out.old + length (decimal count)) }
    ensures capacity { vec_capacity out.old ≤ vec_capacity out.new }
    ensures full { OnErr result (vec_capacity out.old < vec_len out.old + length (decimal count)) }
{
    let mut buffer = itoa::Buffer::new();
    out.extend_from_slice(buffer.format(count).as_bytes())
}
