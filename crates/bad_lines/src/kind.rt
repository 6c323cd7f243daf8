//! Kinds of words behind a call word, and which words are of a kind.

ghost use Rattle.std.specs.Prelude.{◌≡◌};
ghost use Rattle.bad_lines.specs.Kinds.{fits};

use crate::number::is_number;
use vector_memory::{Edition, Name};

/// What a word behind a call word has to be.
#[derive(Clone, Copy, Debug, PartialEq, Eq)]
pub enum Kind {
    /// The name of a vector.
    Name,
    /// An integer.
    Number,
    /// `T` or `F`.
    Truth,
}

/// Whether a word is of the kind in an edition.
#[tactic(auto, unfolding(crate::specs::Kinds::fits))]
pub(crate) fn fits(edition: Edition, kind: Kind, word: &[u8]) -> bool
    ensures { result ≡ fits edition kind word.now }
{
    match kind {
        Kind::Name => Name::read_in(word, edition).is_some(),
        Kind::Number => is_number(word),
        Kind::Truth => word == b"T".as_slice() || word == b"F".as_slice(),
    }
}
