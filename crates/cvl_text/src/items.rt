//! All items of a form of set, from the words behind it.

ghost use Rattle.std.specs.Prelude.{◌≡◌, is_some};
ghost use Rattle.cvl_text.specs.Words.{words_of};
ghost use Rattle.cvl_text.specs.Lines.{Reads, all_of};

use crate::fault::ReadFault;
use crate::item::ReadItem;
use crate::text::{count_words, next_word};
use std::alloc::Global;

/// Whether every word is an item.
fn are_items<I: ReadItem>(text: &[u8]) -> bool
    ensures { result ≡ is_some (all_of I.item_of (words_of text.now)) }
{
    let mut rest = text;
    while let Some((word, after)) = next_word(rest) {
        if I::read(word).is_none() {
            return false;
        }
        rest = after;
    }
    true
}

/// All words as items.
pub(crate) fn items<I: ReadItem>(alloc: Global, text: &[u8]) -> Result<Vec<I>, ReadFault>
    ensures { Reads (λ v. v.items) result (all_of I.item_of (words_of text.now)) }
{
    let Ok(mut items) = Vec::with_capacity(alloc, count_words(text)) else {
        return Err(if are_items::<I>(text) {
            ReadFault::OutOfMemory
        } else {
            ReadFault::BadCall
        });
    };
    let mut rest = text;
    while let Some((word, after)) = next_word(rest) {
        let Some(item) = I::read(word) else {
            return Err(ReadFault::BadCall);
        };
        items.push_reserved(item);
        rest = after;
    }
    Ok(items)
}
