//! Batches: the jobs of several callers, served in waves.
//!
//! A job, which is a call or a block of calls, joins the first wave in which it reads the target of no earlier job. So the jobs of a
//! wave see the memory at the wave's beginning, and like calls may run as one kernel run over joined operands (Blelloch, Vector Models
//! for Data-Parallel Computing, 1990). A block takes its turn as one and is never joined.
#![tactic(auto)]

mod alike;
mod alone;
mod block_plan;
mod clash;
mod emptying;
mod joining;
pub mod laws;
mod made;
mod made_turns;
mod over;
mod plan;
mod planning;
mod ran;
mod roll;
mod running;
mod singly;
mod targets;
mod turn;
mod wave;

pub use call_history::{Job, Outcome, Request};
pub use clash::clashes;
pub use plan::BATCH_LIMIT;
pub use planning::waves;
pub use ran::Ran;
pub use running::run_batch;
