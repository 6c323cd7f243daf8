//! Calls of one word, of which a joined kernel takes the operands.

ghost use Rattle.std.specs.Prelude.{◌≡◌, ◌+◌, ◌<◌, ℕ, List, Ok, Result, length, map, slice_get, All, IsTrue};
ghost use Rattle.cvl_text.specs.declared.fault.Fault.{Fault};
ghost use Rattle.cvl_text.specs.declared.word.Word.{Word};
ghost use Rattle.cvl_calls.specs.Joined.{IsItem};
ghost use Rattle.cvl_calls.specs.Judging.{IsReady, made, word_of};
ghost use Rattle.cvl_calls.specs.Outcomes.{Effect};

use crate::judged::Judged;
use cvl_text::{Call, Word};
use vector_memory::Memory;

/// A call of a group.
#[derive(Clone, Copy)]
pub enum Item<'a> {
    /// What is left to be done of a call that was judged before.
    Judged(&'a Judged<'a>),
    /// A call that is judged on a memory when a joined kernel takes its operands.
    Call(&'a Memory, &'a Call),
}

/// Calls of one word that lie in a list.
pub trait Group {
    /// Whether they are of one word.
    ghost IsAlike: { Self → Type 0 };

    /// The word.
    ghost word: { Self → Word };

    /// What comes of each.
    ghost works: { Self → List (Result Effect Fault) };

    /// How many there are.
    fn count(&self) -> usize
        ensures { result ≡ length (works self.now) };

    /// The call at a place.
    fn item(&self, place: usize) -> Item<'_>
        requires alike { IsAlike self.now }
        requires place { place < length (works self.now) }
        ensures { IsItem result (word self.now) (slice_get (works self.now) place) };

    /// Whether the call at a place is known to read what the one before it reads, so that the same comes of both.
    fn is_again(&self, place: usize) -> bool
        requires { IsAlike self.now }
        ensures { IsTrue result → (before : ℕ) × (place ≡ before + 1) × (slice_get (works self.now) place ≡ slice_get (works self.now) before) };
}

/// Calls of one word that were judged before.
#[derive(Clone, Copy)]
pub(crate) struct AllJudged<'a> {
    pub(crate) word: Word,
    pub(crate) group: &'a [Judged<'a>],
}

impl Group for AllJudged<'_> {
    ghost IsAlike = { λ g. All (λ judged. word_of judged ≡ g.word) g.group.now × All IsReady g.group.now };

    ghost word = { λ g. g.word };

    ghost works = { λ g. map (λ judged. Ok (made judged)) g.group.now };

    fn count(&self) -> usize {
        self.group.len()
    }

    fn item(&self, place: usize) -> Item<'_> {
        Item::Judged(&self.group[place])
    }

    fn is_again(&self, _place: usize) -> bool {
        false
    }
}
