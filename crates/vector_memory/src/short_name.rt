ghost use Rattle.std.specs.Prelude.{◌≡◌, ◌<◌, length, IfSome, IfNone};

use crate::name::Name;
use std::marker::Model;

/// A name of up to twelve bytes, in one word. Contracts see its text, as of a `Name`.
#[derive(Clone, Copy, Debug)]
pub struct ShortName {
    pub(crate) front: u64,
}

impl Model for ShortName {
    ghost use Rattle.std.specs.Prelude.{List, ℕ};
    ghost use Rattle.std.proofs.Common.{sym};

    ghost Value = { List ℕ };

    ghost use Rattle.vector_memory.specs.Names.{front_of, text_of, IsPackedName};

    ghost view = { λ n. text_of n.front 0 0 };

    ghost invariant = { λ n. IsPackedName n.front 0 0 };

    ghost inverse = { λ text. record { front = front_of text } };

    ghost inverse_ok = { λ n h i. record { front = sym h.front_is i } };
}

impl ShortName {
    /// The same name, as others are.
    pub fn name(self) -> Name
        ensures { result ≡ self }
    {
        Name {
            front: self.front,
            middle: 0,
            back: 0,
        }
    }
}

impl Name {
    /// The same name in one word, if it has so few bytes.
    pub fn short(self) -> Option<ShortName>
        ensures same { IfSome result (λ short. short ≡ self) }
        ensures long { IfNone result (12 < length self) }
    {
        if self.middle != 0 || self.back != 0 {
            return None;
        }
        Some(ShortName { front: self.front })
    }
}
