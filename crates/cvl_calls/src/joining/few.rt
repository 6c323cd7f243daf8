//! Lists of few items, which lie on the stack.

ghost use Rattle.std.specs.Prelude.{◌≡◌, ◌<◌, ◌≤◌, ◌∷◌, ◌++◌, [], length, IsTrue};

use std::marker::Model;

/// The greatest number of items of such a list.
pub(crate) const FEW: usize = 4;

/// Whether there are as many items as such a list may have, one at least.
#[inline(always)]
pub(crate) fn are_few(count: usize) -> bool
    ensures { IsTrue result → (0 < count) × (count ≤ FEW) }
{
    count > 0 && count <= FEW
}

/// One to four items. To a contract it is the list of them.
#[derive(Drop)]
pub(crate) struct Few<P: Copy> {
    items: [P; FEW],
    count: usize,
}

impl<P: Copy> Model for Few<P> {
    ghost use Rattle.std.specs.Prelude.{◌≤◌, List, take};

    ghost Value = { List P };

    ghost view = { λ few. take few.count few.items };

    ghost invariant = { λ few. few.count ≤ 4 };
}

impl<P: Copy> Few<P> {
    /// One item.
    #[inline(always)]
    pub(crate) fn of(first: P) -> Few<P>
        ensures { result ≡ first ∷ [] }
    {
        Few {
            items: [first; FEW],
            count: 1,
        }
    }

    /// Puts an item behind the others.
    #[inline(always)]
    pub(crate) fn push(&mut self, item: P)
        requires { length self.old < FEW }
        ensures { self.new ≡ self.old ++ item ∷ [] }
    {
        self.items[self.count] = item;
        self.count += 1;
    }

    /// The items.
    #[inline(always)]
    pub(crate) fn as_slice(&self) -> &[P]
        ensures { result.now ≡ self.now }
    {
        &self.items[..self.count]
    }
}
