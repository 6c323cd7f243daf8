//! What lies in the slots.

use call_history::{Book, Job, Outcome, Request};

/// The book, with the vectors that a pass works with.
#[derive(Drop)]
pub struct Desk {
    pub book: Book,
    /// The requests taken in a pass.
    pub requests: Vec<Request>,
    /// What became of them, in the same order.
    pub outcomes: Vec<Outcome>,
}

/// What a slot holds.
#[derive(Drop)]
pub enum Slot {
    Nothing,
    /// What a caller asks.
    Asked(Job),
    /// What became of it.
    Told(Outcome),
    /// The desk, while nobody has it. It lies apart, so that a slot is moved by few bytes.
    Kept(Box<Desk>),
}
