//! The shared machine: one vector memory that many threads call at once. Each call is answered as one thread would answer
//! it behind a history that begins with all that its caller had seen, and has that caller's answered calls, each once, in
//! order; each such history is a beginning of one history.
//!
//! A caller leaves its call, and whichever caller finds the book free serves all that were left: flat combining (Hendler,
//! Incze, Shavit and Tzafrir, 2010). `begin`, `post`, `post_block`, `poll`, `look`, `meet` and `combine` never wait for another thread.
#![tactic(auto)]

mod answers;
mod caller;
mod calls;
mod fault;
mod own;
mod own_block;
mod pass;
mod shared;

pub use answers::{Combined, Occupied, OccupiedBlock, Polled, Unfinished};
pub use caller::Caller;
pub use fault::MakeFault;
pub use shared::Shared;
