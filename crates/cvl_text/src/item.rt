//! Items of values: how each kind of item reads from the word that writes it, and how it is written behind a space.

ghost use Rattle.std.specs.Prelude.{◌≡◌, ℕ, ◌++◌, ◌+◌, ◌<◌, ◌≤◌, List, Option, vec_len, vec_capacity, length, OnOk, OnErr};
ghost use Rattle.cvl_text.specs.Numbers.{number_of};
ghost use Rattle.cvl_text.specs.Texts.{length_item, number_item, truth_item, IsContinued};
ghost use Rattle.cvl_text.specs.TruthValues.{truth_of};

use crate::number::{append_count, append_number, number_of};
use crate::truth::truth_of;
use std::alloc::AllocError;

pub(crate) trait ReadItem: Copy {
    ghost item_of: { List ℕ → Option Self };

    /// The item that a word writes.
    fn read(word: &[u8]) -> Option<Self>
        ensures { result ≡ item_of word.now };
}

impl ReadItem for i64 {
    ghost item_of = { number_of };

    fn read(word: &[u8]) -> Option<i64> {
        number_of(word)
    }
}

impl ReadItem for bool {
    ghost item_of = { truth_of };

    fn read(word: &[u8]) -> Option<bool> {
        truth_of(word)
    }
}

pub(crate) trait WriteItem: Copy {
    ghost item_text: { Self → List ℕ };

    /// Appends a space and the item. On an error a part may be written.
    fn append(self, out: &mut Vec<u8>) -> Result<(), AllocError>
        ensures ok { OnOk result (out.new.items ≡ out.old.items ++ item_text self) }
        ensures err { OnErr result (IsContinued out.old.items out.new.items) }
        ensures len { OnOk result (vec_len out.new ≡ vec_len out.old + length (item_text self)) }
        ensures capacity { vec_capacity out.old ≤ vec_capacity out.new }
        ensures full { OnErr result (vec_capacity out.old < vec_len out.old + length (item_text self)) };
}

impl WriteItem for i64 {
    ghost item_text = { number_item };

    fn append(self, out: &mut Vec<u8>) -> Result<(), AllocError> {
        out.push(b' ')?;
        append_number(out, self)
    }
}

impl WriteItem for usize {
    ghost item_text = { length_item };

    fn append(self, out: &mut Vec<u8>) -> Result<(), AllocError> {
        out.push(b' ')?;
        append_count(out, self)
    }
}

impl WriteItem for bool {
    ghost item_text = { truth_item };

    fn append(self, out: &mut Vec<u8>) -> Result<(), AllocError> {
        out.extend_from_slice(if self { b" T" } else { b" F" })
    }
}
