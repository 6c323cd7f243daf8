use crate::fault::Fault;
use vector_memory::Value;

/// The reply to a call.
#[derive(Debug, Drop)]
pub enum Reply {
    /// The target was stored, or freed.
    Done,
    /// A number that was asked for.
    Int(i64),
    /// A truth value that was asked for.
    Bool(bool),
    /// A value that was asked for.
    Vector(Value),
    /// The call was not done.
    Fault(Fault),
}
