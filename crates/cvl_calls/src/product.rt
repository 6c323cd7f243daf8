use cvl_text::Reply;
use vector_memory::Value;

/// What a call makes of its operands: a value for its target, that the target goes, or a reply.
#[derive(Debug, Drop)]
pub enum Product {
    Store(Value),
    Free,
    Reply(Reply),
}
