//! The shared machine for programs in C, and in whatever else speaks C's calling convention. `embed/include/cvl.h` declares the
//! exports. Each is one call of a port, and says of it what that says; a caller that is not open is answered by a number.
#![tactic(auto)]

mod answer;
mod beginning;
mod caller;
mod closing;
mod handle;
mod nothing;
mod open_box;
mod opening;
mod posting;
mod preparing;
mod replies;
mod serving;
mod setting;
mod statuses;

pub use answer::Answer;
pub use caller::{Caller, CallerLine};
pub use closing::Closed;
pub use handle::Handle;
pub use serving::Served;
