//! Calls from the words of their lines.

ghost use Rattle.cvl_text.specs.Words.{words_of};
ghost use Rattle.cvl_text.specs.Tasks.{task_of};
ghost use Rattle.cvl_text.specs.Lines.{Reads, behind_target, targeted, task_in, untargeted, without_target};

use crate::arguments::{name_and_number, one_name};
use crate::call::Call;
use crate::fault::ReadFault;
use crate::fixed;
use crate::items::items;
use crate::named::call_of_ask;
use crate::text::next_word;
use crate::word::Word;
use crate::words::word_of;
use std::alloc::Global;
use vector_memory::{Edition, Name};

/// The call of a word that stands behind `=`.
#[tactic(auto, unfolding(crate::specs::Lines::targeted))]
fn targeted(
    alloc: Global,
    edition: Edition,
    to: Name,
    word: Word,
    text: &[u8],
) -> Result<Call, ReadFault>
    ensures { Reads task_of result (targeted edition to word (words_of text.now)) }
{
    match word {
        Word::SetInts => {
            let items = items(alloc, text)?;
            Ok(Call::SetInts { to, items })
        }
        Word::SetBools => {
            let items = items(alloc, text)?;
            Ok(Call::SetBools { to, items })
        }
        Word::One(word) => fixed::one(to, word, text, edition),
        Word::Two(word) => fixed::two(to, word, text, edition),
        Word::Three(word) => fixed::three(alloc, to, word, text, edition),
        Word::BckSeg(kind) => fixed::four(alloc, to, kind, text, edition),
        Word::Alo => fixed::alo(to, text, edition),
        Word::DisZ => fixed::dis_z(to, text, edition),
        Word::DisB => fixed::dis_b(to, text, edition),
        Word::Ind => fixed::ind(to, text, edition),
        Word::Rep => fixed::rep(to, text, edition),
        Word::Ask(_) => Err(ReadFault::BadCall),
        Word::Ext => Err(ReadFault::BadCall),
    }
}

/// The call of a word that stands first.
#[tactic(auto, unfolding(crate::specs::Lines::untargeted))]
fn untargeted(word: Word, text: &[u8], edition: Edition) -> Result<Call, ReadFault>
    ensures { Reads task_of result (untargeted edition word (words_of text.now)) }
{
    match word {
        Word::Ask(word) => match one_name(text, edition) {
            Some(a) => Ok(call_of_ask(word, a)),
            None => Err(ReadFault::BadCall),
        },
        Word::Ext => match name_and_number(text, edition) {
            Some((a, p)) => Ok(Call::Ext { a, p }),
            None => Err(ReadFault::BadCall),
        },
        Word::SetInts => Err(ReadFault::BadCall),
        Word::SetBools => Err(ReadFault::BadCall),
        Word::One(_) => Err(ReadFault::BadCall),
        Word::Two(_) => Err(ReadFault::BadCall),
        Word::Three(_) => Err(ReadFault::BadCall),
        Word::BckSeg(_) => Err(ReadFault::BadCall),
        Word::Alo => Err(ReadFault::BadCall),
        Word::DisZ => Err(ReadFault::BadCall),
        Word::DisB => Err(ReadFault::BadCall),
        Word::Ind => Err(ReadFault::BadCall),
        Word::Rep => Err(ReadFault::BadCall),
    }
}

/// The call of the words behind a target and `=`.
#[tactic(auto, unfolding(crate::specs::Lines::behind_target))]
fn behind_target(alloc: Global, edition: Edition, to: &[u8], text: &[u8]) -> Result<Call, ReadFault>
    ensures { Reads task_of result (behind_target edition to.now (words_of text.now)) }
{
    let Some((word, rest)) = next_word(text) else {
        return Err(ReadFault::BadCall);
    };
    let Some(to) = Name::read_in(to, edition) else {
        return Err(ReadFault::BadCall);
    };
    let Some(word) = word_of(word) else {
        return Err(ReadFault::BadCall);
    };
    targeted(alloc, edition, to, word, rest)
}

/// The call of words that begin with the call word.
#[tactic(auto, unfolding(crate::specs::Lines::without_target))]
fn without_target(word: &[u8], rest: &[u8], edition: Edition) -> Result<Call, ReadFault>
    ensures { Reads task_of result (without_target edition word.now (words_of rest.now)) }
{
    let Some(word) = word_of(word) else {
        return Err(ReadFault::BadCall);
    };
    untargeted(word, rest, edition)
}

impl Call {
    /// The call that a text asks for in edition 1: the part of a line behind the caller's word, with spaces as they come.
    /// `BadCall` exactly where the text is no call; for want of memory only where it is one.
    pub fn read(alloc: Global, text: &[u8]) -> Result<Call, ReadFault>
        ensures { Reads task_of result (task_in Edition.One (words_of text.now)) }
    {
        Call::read_in(alloc, text, Edition::One)
    }

    /// The call that a text asks for in an edition, which says how long its names may be; else as `read`.
    #[tactic(auto, unfolding(crate::specs::Lines::task_in))]
    pub fn read_in(alloc: Global, text: &[u8], edition: Edition) -> Result<Call, ReadFault>
        ensures { Reads task_of result (task_in edition (words_of text.now)) }
    {
        let Some((first, rest)) = next_word(text) else {
            return Err(ReadFault::BadCall);
        };
        match next_word(rest) {
            Some((second, behind)) => {
                if second == b"=".as_slice() {
                    behind_target(alloc, edition, first, behind)
                } else {
                    without_target(first, rest, edition)
                }
            }
            None => without_target(first, rest, edition),
        }
    }
}
