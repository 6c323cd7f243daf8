//! What is said of each reason, behind the word in quotes where there is one.

use crate::kind::Kind;
use crate::reason::Why;
use vector_memory::Edition;

/// Of a word that has a byte which is not printable. The byte's number follows.
pub(crate) fn odd_message(byte: u8) -> &'static [u8] {
    match byte {
        b'\r' => b"has a carriage return, which tr -d '\\r' takes away: byte ",
        b'\t' => b"has a tab, where only spaces part words: byte ",
        _ => b"has a byte that is no printable character: ",
    }
}

/// What is wrong, with the word in quotes before it where there is one. Details may follow.
pub(crate) fn message(why: Why) -> &'static [u8] {
    match why {
        Why::TooLong => b"the line has more than 1048576 bytes",
        Why::NoCaller => b"names no caller: a line begins with 0: to 63: and a space",
        Why::NoHead =>
            b"begins no head: the only one is cvl 2, the whole first line with no space round it",
        Why::OtherCaller(_) => b"comes before the } of the block that is open, of caller ",
        Why::NoCall => b"the line ends where a call is expected",
        Why::NoWord => b"is no call word",
        Why::NoTarget => b"wants a target: d = ",
        Why::HasTarget => b"has no target, since it only replies",
        Why::NoName(Edition::One) => b"is no name: 1 to 16 of a-z, 0-9 and _, a letter first",
        Why::NoName(Edition::Two) => b"is no name: 1 to 32 of a-z, 0-9 and _, a letter first",
        Why::NoNumber => {
            b"is no number: an integer from -9223372036854775808 to 9223372036854775807, without + \
              and needless zeros"
        }
        Why::NoTruth => b"is no truth value: T or F",
        Why::Ends(Kind::Name) => b"the line ends where a name is expected for ",
        Why::Ends(Kind::Number) => b"the line ends where a number is expected for ",
        Why::Ends(Kind::Truth) => b"the line ends where T or F is expected for ",
        Why::TooMany => b"is one word too many for ",
        Why::NoBlocks => b"is for blocks, which a script has whose first line is cvl 2",
        Why::BlockInBlock => b"begins a block in a block: the } of the first is missing before it",
        Why::NoBlock => b"ends a block, and none is open",
        Why::BehindBrace => b"has words behind it, but a brace stands alone behind its caller",
        Why::EmptyBlock => b"ends a block that has no call",
        Why::FullBlock => b"is one call too many: a block has at most 1024",
    }
}
