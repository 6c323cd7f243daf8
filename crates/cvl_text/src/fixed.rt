//! Calls with a target and a fixed number of arguments, from the words behind the call word.

ghost use Rattle.cvl_text.specs.declared.word.Word.TheVariants.{One, Two, Three, BckSeg, Alo, DisZ, DisB, Ind, Rep};
ghost use Rattle.cvl_text.specs.Words.{words_of};
ghost use Rattle.cvl_text.specs.Tasks.{task_of};
ghost use Rattle.cvl_text.specs.Lines.{Reads, targeted};

use crate::arguments::{
    four_names, name_and_two_numbers, one_name, one_number, three_names, three_numbers,
    truth_and_number, two_names, two_numbers,
};
use crate::call::Call;
use crate::fault::ReadFault;
use crate::named::{call_of_four, call_of_one, call_of_three, call_of_two};
use crate::word::{Kind, OneWord, ThreeWord, TwoWord};
use std::alloc::Global;
use vector_memory::{Edition, Name};

/// One name.
#[tactic(auto, unfolding(crate::specs::Lines::targeted))]
pub(crate) fn one(to: Name, word: OneWord, text: &[u8], edition: Edition) -> Result<Call, ReadFault>
    ensures { Reads task_of result (targeted edition to (One word) (words_of text.now)) }
{
    let Some(a) = one_name(text, edition) else {
        return Err(ReadFault::BadCall);
    };
    Ok(call_of_one(to, word, a))
}

/// Two names.
#[tactic(auto, unfolding(crate::specs::Lines::targeted))]
pub(crate) fn two(to: Name, word: TwoWord, text: &[u8], edition: Edition) -> Result<Call, ReadFault>
    ensures { Reads task_of result (targeted edition to (Two word) (words_of text.now)) }
{
    let Some((a, b)) = two_names(text, edition) else {
        return Err(ReadFault::BadCall);
    };
    Ok(call_of_two(to, word, a, b))
}

/// Three names.
#[tactic(auto, unfolding(crate::specs::Lines::targeted))]
pub(crate) fn three(
    alloc: Global,
    to: Name,
    word: ThreeWord,
    text: &[u8],
    edition: Edition,
) -> Result<Call, ReadFault>
    ensures { Reads task_of result (targeted edition to (Three word) (words_of text.now)) }
{
    let Some((a, b, c)) = three_names(text, edition) else {
        return Err(ReadFault::BadCall);
    };
    call_of_three(alloc, to, word, a, b, c)
}

/// Four names.
#[tactic(auto, unfolding(crate::specs::Lines::targeted))]
pub(crate) fn four(
    alloc: Global,
    to: Name,
    kind: Kind,
    text: &[u8],
    edition: Edition,
) -> Result<Call, ReadFault>
    ensures { Reads task_of result (targeted edition to (BckSeg kind) (words_of text.now)) }
{
    let Some((a, s, i, t)) = four_names(text, edition) else {
        return Err(ReadFault::BadCall);
    };
    call_of_four(alloc, to, kind, a, s, i, t)
}

/// A number.
#[tactic(auto, unfolding(crate::specs::Lines::targeted))]
pub(crate) fn alo(to: Name, text: &[u8], edition: Edition) -> Result<Call, ReadFault>
    ensures { Reads task_of result (targeted edition to Alo (words_of text.now)) }
{
    match one_number(text, edition) {
        Some(n) => Ok(Call::Alo { to, n }),
        None => Err(ReadFault::BadCall),
    }
}

/// Two numbers.
#[tactic(auto, unfolding(crate::specs::Lines::targeted))]
pub(crate) fn dis_z(to: Name, text: &[u8], edition: Edition) -> Result<Call, ReadFault>
    ensures { Reads task_of result (targeted edition to DisZ (words_of text.now)) }
{
    match two_numbers(text, edition) {
        Some((x, n)) => Ok(Call::DisZ { to, x, n }),
        None => Err(ReadFault::BadCall),
    }
}

/// A truth value and a number.
#[tactic(auto, unfolding(crate::specs::Lines::targeted))]
pub(crate) fn dis_b(to: Name, text: &[u8], edition: Edition) -> Result<Call, ReadFault>
    ensures { Reads task_of result (targeted edition to DisB (words_of text.now)) }
{
    match truth_and_number(text, edition) {
        Some((x, n)) => Ok(Call::DisB { to, x, n }),
        None => Err(ReadFault::BadCall),
    }
}

/// Three numbers.
#[tactic(auto, unfolding(crate::specs::Lines::targeted))]
pub(crate) fn ind(to: Name, text: &[u8], edition: Edition) -> Result<Call, ReadFault>
    ensures { Reads task_of result (targeted edition to Ind (words_of text.now)) }
{
    match three_numbers(text, edition) {
        Some((u, v, n)) => Ok(Call::Ind { to, u, v, n }),
        None => Err(ReadFault::BadCall),
    }
}

/// A name and two numbers.
#[tactic(auto, unfolding(crate::specs::Lines::targeted))]
pub(crate) fn rep(to: Name, text: &[u8], edition: Edition) -> Result<Call, ReadFault>
    ensures { Reads task_of result (targeted edition to Rep (words_of text.now)) }
{
    match name_and_two_numbers(text, edition) {
        Some((a, p, x)) => Ok(Call::Rep { to, a, p, x }),
        None => Err(ReadFault::BadCall),
    }
}
