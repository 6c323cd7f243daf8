//! What the calls of a machine answer.

use cvl_text::{Call, Reply};
use thiserror::Error;

/// The caller has left a call or a block already. This is the other call.
#[derive(Debug, Drop, Error)]
#[error("a call is left already")]
pub struct Occupied(pub Call);

/// The caller has left a call or a block already. This is the other block.
#[derive(Debug, Drop, Error)]
#[error("a call is left already")]
pub struct OccupiedBlock(pub Vec<Call>);

/// Another caller has the book.
#[derive(Clone, Copy, Debug, Error, PartialEq, Eq)]
#[error("another caller has the book")]
pub struct Unfinished;

/// What became of the call or of the block that a caller left.
#[derive(Debug, Drop)]
pub enum Polled {
    /// Nothing was left.
    Idle,
    /// Nothing yet.
    Waiting,
    /// The call stands in the history at this place, counted from 0, and has this reply.
    Answered { place: u64, reply: Reply },
    /// Memory was wanted: the call comes back, and stands in no history.
    OutOfMemory(Call),
    /// The calls of the block stand next to one another in the history from this place on, counted from 0, and have these
    /// replies, in order.
    AnsweredBlock { place: u64, replies: Vec<Reply> },
    /// Memory was wanted at one of its calls: the block comes back, and none of its calls stands in a history.
    OutOfMemoryBlock(Vec<Call>),
}

/// Whether a caller served what was left.
#[derive(Debug, Drop)]
pub enum Combined {
    /// Another caller has the book.
    Busy,
    /// So many calls were served, of which a block counts as one, in so many waves, by so many kernel runs.
    Served {
        calls: u64,
        waves: u64,
        kernels: u64,
    },
}
