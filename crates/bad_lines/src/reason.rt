//! What is wrong with a line, and at which word.

ghost use Rattle.std.specs.Prelude.{◌≡◌, [], length};

use crate::kind::Kind;
use crate::word::Word;
use vector_memory::Edition;

/// What is wrong at one word of a text.
#[derive(Clone, Copy, Debug)]
pub struct Reason<'a> {
    /// The byte at which the word begins, from 0; the end of the text where no word is to blame.
    pub at: usize,
    /// The word, empty where none is to blame: the text ends too soon, or is too long.
    pub found: &'a [u8],
    /// The call word whose arguments are wrong, else empty.
    pub call: &'a [u8],
    pub why: Why,
}

/// What is wrong with a word.
#[derive(Clone, Copy, Debug, PartialEq, Eq)]
pub enum Why {
    /// The line is too long, whatever stands in it.
    TooLong,
    /// The first word names no caller.
    NoCaller,
    /// The first word is that of a head, and the line is none.
    NoHead,
    /// A block of this caller is open.
    OtherCaller(u64),
    /// The text ends where a call has to stand.
    NoCall,
    /// No call word.
    NoWord,
    /// A call word that wants a target.
    NoTarget,
    /// A call word that has no target.
    HasTarget,
    /// No name of the edition.
    NoName(Edition),
    /// No number.
    NoNumber,
    /// No truth value.
    NoTruth,
    /// The text ends where a word of this kind has to stand.
    Ends(Kind),
    /// A word behind the last one that may stand there.
    TooMany,
    /// A brace in a script of edition 1.
    NoBlocks,
    /// A block begins in a block.
    BlockInBlock,
    /// A block ends, and none is open.
    NoBlock,
    /// Something stands behind the brace.
    BehindBrace,
    /// A block ends that has no call.
    EmptyBlock,
    /// A call where the block has as many as it may have.
    FullBlock,
}

impl<'a> Reason<'a> {
    /// A wrong word.
    pub(crate) fn of_word(word: Word<'a>, call: &'a [u8], why: Why) -> Reason<'a>
        ensures at { result.at ≡ word.entry.at }
        ensures found { result.found.now ≡ word.entry.bytes.now }
        ensures call { result.call.now ≡ call.now }
        ensures why { result.why ≡ why }
    {
        Reason {
            at: word.at,
            found: word.bytes,
            call,
            why,
        }
    }

    /// A text that ends too soon.
    pub(crate) fn of_end(text: &'a [u8], call: &'a [u8], why: Why) -> Reason<'a>
        ensures at { result.at ≡ length text.now }
        ensures found { result.found.now ≡ [] }
        ensures call { result.call.now ≡ call.now }
        ensures why { result.why ≡ why }
    {
        Reason {
            at: text.len(),
            found: b"",
            call,
            why,
        }
    }
}
