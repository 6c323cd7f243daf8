ghost use Rattle.std.specs.Prelude.{ℕ, Bool, IsTrue, ⊤};

/// What worker threads ask before each of their turns, and once more when all their calls are answered.
pub trait Gate {
    /// Whether it may give this answer to a worker before a turn. A gate that does not say may give any.
    ghost may_answer: { Self → ℕ → ℕ → Bool → Type 0 } = { λ _ _ _ _. ⊤ };

    /// Whether a worker may take its turn of this number. Both are counted from 0.
    ///
    /// The call of the turn is left by then, and the worker holds nothing. Behind its last call the answer changes nothing.
    fn before(&self, worker: u64, turn: u64) -> bool
        ensures { may_answer self.now worker turn result };
}

/// A gate that stops no worker.
pub(crate) struct Open;

impl Gate for Open {
    ghost may_answer = { λ _ _ _ answer. IsTrue answer };

    fn before(&self, _worker: u64, _turn: u64) -> bool {
        true
    }
}
