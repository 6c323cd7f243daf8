//! What the tests assert of a memory before they change it.

ghost use Rattle.vector_memory.specs.States.{MayChange};

use std::process::Abort;
use vector_memory::Memory;

/// Asserts that a memory may change: it is in no block, or its block has a change left.
pub(crate) fn assert_may_change(rt: &impl Abort, memory: &Memory)
    ensures { MayChange memory.now }
{
    assert!(rt;
        !memory.in_block() || memory.changes_left() > 0,
        "in a block"
    );
}
