//! The words and slots by which callers hand requests to whichever of them has the desk, as in flat combining (Hendler,
//! Incze, Shavit and Tzafrir, 2010). Between any two steps of any threads the table keeps the one rule of
//! `specs/Lawful.antt`: there is one history, and each caller has seen a beginning of it.
//!
//! One word is the lock, one the length of the history, and each caller has a word and a slot of its own: `places` says which,
//! and what the words say. One slot has the desk.
//!
//! A pass is `step_lock`, `passes_by` or `step_take` once for each caller, `step_commit`, `step_answer` for each request taken
//! and `step_unlock`. A caller that asks takes `step_post`, and `step_collect` until it is told.
#![tactic(auto)]

mod arrival;
mod batch;
mod desk;
mod hand;
mod known;
mod places;
mod plays;
mod seat;
mod slots;
mod steps;

pub use desk::Desk;
pub use known::{CallerStanding, Known, Pass, Phase};
pub use seat::Seat;
pub use slots::Slots;
