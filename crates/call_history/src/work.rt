use cvl_text::Reply;
use vector_memory::Value;

/// What a call made of its operands before its turn: a value for its target, or a reply, of a fault or of a call without
/// target.
#[derive(Debug, Drop)]
pub enum Work {
    Store(Value),
    Say(Reply),
}

/// Why a call that was lent did not run.
#[derive(Debug, Drop)]
pub enum Unserved<W> {
    /// Memory was wanted.
    OutOfMemory,
    /// A history keeps such a call whole, so it has to be handed in itself. What was handed in with it comes back.
    Whole(W),
}
