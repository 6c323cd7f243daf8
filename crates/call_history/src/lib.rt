//! The book: the history of all calls, in one order, and the memory that it leads to.
//!
//! An entry is a call with its caller and that caller's ticket. The memory of a book is at all times what the calls of its
//! history make of an empty memory, one by one.
#![tactic(auto)]

mod alike;
mod audit;
mod block;
mod book;
mod entry;
mod kept;
pub mod laws;
mod log;
mod owning;
mod request;
mod work;

pub use book::{BLOCK_LIMIT, Book, CALLER_LIMIT};
pub use entry::{CallRef, Entry, EntryRef};
pub use owning::is_owning;
pub use request::{Job, Outcome, Request};
pub use work::{Unserved, Work};
