//! The text of a name, as bytes.

ghost use Rattle.std.specs.Prelude.{◌≡◌, ◌≤◌, ◌<◌, length};
ghost use Rattle.vector_memory.specs.Names.{byte_of, text_of, unpacked};

use std::marker::Model;

/// The bytes that spell a name. To a contract it is the list of these.
#[derive(Drop)]
pub struct NameText {
    /// The bytes, and zero bytes after them.
    bytes: [u8; 32],
}

impl Model for NameText {
    ghost use Rattle.std.specs.Prelude.{List, ℕ};
    ghost use Rattle.vector_memory.specs.Names.{text_in};

    ghost Value = { List ℕ };

    ghost view = { λ t. text_in t.bytes };
}

/// The byte of a code, 0 to 37.
fn byte_of(code: u8) -> u8
    requires { code < 38 }
    ensures { result ≡ byte_of code }
{
    match code {
        0 => 0,
        1..=26 => code + 96,
        37 => b'_',
        _ => code + 21,
    }
}

/// Writes the bytes of the codes of a word.
fn unpack(word: u64, bytes: &mut [u8])
    ensures { bytes.new ≡ unpacked (length bytes.old) word }
{
    if let Some((first, rest)) = bytes.split_first_mut() {
        *first = byte_of((word % 38) as u8);
        unpack(word / 38, rest);
    }
}

impl NameText {
    /// The text that the words of a name hold.
    pub(crate) fn of(front: u64, middle: u64, back: u64) -> NameText
        ensures { result ≡ text_of front middle back }
    {
        let mut bytes = [0; 32];
        let (first, others) = bytes.split_at_mut(12);
        let (second, third) = others.split_at_mut(12);
        unpack(front, first);
        unpack(middle, second);
        unpack(back, third);
        NameText { bytes }
    }

    /// The bytes.
    pub fn bytes(&self) -> &[u8]
        ensures { result.now ≡ self.now }
    {
        let end = self.bytes.iter().position(|byte| *byte == 0);
        &self.bytes[..end.unwrap_or(32)]
    }
}
