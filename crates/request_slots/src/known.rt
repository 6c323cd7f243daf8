//! What seats know. No value of these types is made: they are what contracts and the rule say of a seat. A clause reads an
//! array as a list, of any length.

use call_history::{Entry, Job, Outcome, Request};
use std::convert::Infallible;
use std::marker::Model;
use vector_memory::Bounds;

/// What the caller that has the desk knows of its pass.
pub struct Pass {
    /// The history committed.
    pub line: [Entry; 0],
    /// The history as it was before the commit of this pass.
    pub before: [Entry; 0],
    /// The callers whose words were tried.
    pub tried: [u64; 0],
    /// The requests taken and not yet answered.
    pub taken: [Request; 0],
    /// The requests of the commit.
    pub asked: [Request; 0],
    /// Their outcomes, in the same order.
    pub outcomes: [Outcome; 0],
    pub committed: bool,
}

/// Whether a caller has left a job.
pub enum Phase {
    Idle,
    /// This job, left when it had seen this history.
    Left(Job, [Entry; 0]),
}

/// Where a caller stands: to a contract it is the record `Standing`, which also names the machine.
pub struct CallerStanding {
    never: Infallible,
}

impl Model for CallerStanding {
    ghost use Rattle.request_slots.specs.Standing.{Standing};

    ghost Value = { Standing };

    ghost view = { λ s. elim s.never [ ] };
}

/// What a caller knows.
pub struct Known {
    pub standing: CallerStanding,
    /// What another caller had seen when they met last.
    pub told: [Entry; 0],
    /// What it knows as the caller that has the desk.
    pub pass: Option<Pass>,
}

/// What a seat knows.
pub enum View {
    /// It makes the callers from this number on, of a history whose memory has these bounds.
    Maker(Bounds, u64),
    /// A caller of a history with these bounds, of this number, whose slot is still at home.
    Newcomer(Bounds, u64),
    Caller(Known),
    /// What a caller had seen, split off for another.
    Bare([Entry; 0]),
    /// What is left of a view that was joined to another.
    Spent,
}
