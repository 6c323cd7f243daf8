//! Laws of a memory: each function does nothing, and its contract is the law.

ghost use Rattle.vector_memory.specs.States.{IsLawful};

use crate::Memory;

/// Every memory is lawful: no name comes twice, there are at most `NAME_LIMIT` of them, each value is within the limit and
/// all of them are within the room, and room and limit are ones that a memory may have.
pub fn memories_are_lawful(memory: &Memory)
    ensures { IsLawful memory.now }
{
    memory.recall_lawful();
}
