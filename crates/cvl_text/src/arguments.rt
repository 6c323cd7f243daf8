//! Arguments of a fixed number, from the words behind a call word. Each function reads all words of the text.

ghost use Rattle.std.specs.Prelude.{◌≡◌, [], ◌∷◌};
ghost use Rattle.std.specs.Option.{option_map};
ghost use Rattle.cvl_text.specs.Words.{words_of};
ghost use Rattle.cvl_text.specs.Tasks.{Vector, Number, Truth};
ghost use Rattle.cvl_text.specs.Lines.{NameKind, NumberKind, TruthKind, arguments_in, only};

use crate::number::number_of;
use crate::text::next_word;
use crate::truth::truth_of;
use vector_memory::{Edition, Name};

fn one_word(text: &[u8]) -> Option<&[u8]>
    ensures { option_map (λ w. w.now) result ≡ only (words_of text.now) }
{
    let (word, rest) = next_word(text)?;
    match next_word(rest) {
        None => Some(word),
        Some(_) => None,
    }
}

pub(crate) fn one_name(text: &[u8], edition: Edition) -> Option<Name>
    ensures { option_map (λ a. Vector a ∷ []) result ≡ arguments_in edition (NameKind ∷ []) (words_of text.now) }
{
    Name::read_in(one_word(text)?, edition)
}

pub(crate) fn two_names(text: &[u8], edition: Edition) -> Option<(Name, Name)>
    ensures { option_map (λ p. Vector p.0 ∷ Vector p.1 ∷ []) result
        ≡ arguments_in edition (NameKind ∷ NameKind ∷ []) (words_of text.now) }
{
    let (first, rest) = next_word(text)?;
    let a = Name::read_in(first, edition)?;
    let b = one_name(rest, edition)?;
    Some((a, b))
}

pub(crate) fn three_names(text: &[u8], edition: Edition) -> Option<(Name, Name, Name)>
    ensures { option_map (λ p. Vector p.0 ∷ Vector p.1 ∷ Vector p.2 ∷ []) result
        ≡ arguments_in edition (NameKind ∷ NameKind ∷ NameKind ∷ []) (words_of text.now) }
{
    let (first, rest) = next_word(text)?;
    let a = Name::read_in(first, edition)?;
    let (b, c) = two_names(rest, edition)?;
    Some((a, b, c))
}

pub(crate) fn four_names(text: &[u8], edition: Edition) -> Option<(Name, Name, Name, Name)>
    ensures { option_map (λ p. Vector p.0 ∷ Vector p.1 ∷ Vector p.2 ∷ Vector p.3 ∷ []) result
        ≡ arguments_in edition (NameKind ∷ NameKind ∷ NameKind ∷ NameKind ∷ []) (words_of text.now) }
{
    let (first, rest) = next_word(text)?;
    let a = Name::read_in(first, edition)?;
    let (b, c, d) = three_names(rest, edition)?;
    Some((a, b, c, d))
}

pub(crate) fn one_number(text: &[u8], edition: Edition) -> Option<i64>
    ensures { option_map (λ n. Number n ∷ []) result ≡ arguments_in edition (NumberKind ∷ []) (words_of text.now) }
{
    number_of(one_word(text)?)
}

pub(crate) fn two_numbers(text: &[u8], edition: Edition) -> Option<(i64, i64)>
    ensures { option_map (λ p. Number p.0 ∷ Number p.1 ∷ []) result
        ≡ arguments_in edition (NumberKind ∷ NumberKind ∷ []) (words_of text.now) }
{
    let (first, rest) = next_word(text)?;
    let x = number_of(first)?;
    let y = one_number(rest, edition)?;
    Some((x, y))
}

pub(crate) fn three_numbers(text: &[u8], edition: Edition) -> Option<(i64, i64, i64)>
    ensures { option_map (λ p. Number p.0 ∷ Number p.1 ∷ Number p.2 ∷ []) result
        ≡ arguments_in edition (NumberKind ∷ NumberKind ∷ NumberKind ∷ []) (words_of text.now) }
{
    let (first, rest) = next_word(text)?;
    let x = number_of(first)?;
    let (y, z) = two_numbers(rest, edition)?;
    Some((x, y, z))
}

pub(crate) fn truth_and_number(text: &[u8], edition: Edition) -> Option<(bool, i64)>
    ensures { option_map (λ p. Truth p.0 ∷ Number p.1 ∷ []) result
        ≡ arguments_in edition (TruthKind ∷ NumberKind ∷ []) (words_of text.now) }
{
    let (first, rest) = next_word(text)?;
    let x = truth_of(first)?;
    let n = one_number(rest, edition)?;
    Some((x, n))
}

pub(crate) fn name_and_number(text: &[u8], edition: Edition) -> Option<(Name, i64)>
    ensures { option_map (λ p. Vector p.0 ∷ Number p.1 ∷ []) result
        ≡ arguments_in edition (NameKind ∷ NumberKind ∷ []) (words_of text.now) }
{
    let (first, rest) = next_word(text)?;
    let a = Name::read_in(first, edition)?;
    let n = one_number(rest, edition)?;
    Some((a, n))
}

pub(crate) fn name_and_two_numbers(text: &[u8], edition: Edition) -> Option<(Name, i64, i64)>
    ensures { option_map (λ p. Vector p.0 ∷ Number p.1 ∷ Number p.2 ∷ []) result
        ≡ arguments_in edition (NameKind ∷ NumberKind ∷ NumberKind ∷ []) (words_of text.now) }
{
    let (first, rest) = next_word(text)?;
    let a = Name::read_in(first, edition)?;
    let (x, y) = two_numbers(rest, edition)?;
    Some((a, x, y))
}
