//! A caller together with its machine, as one value: what a program in another language holds. Nobody can bring a caller to a
//! machine that is not its own, and no call waits for another thread, so each call of the machine stands here without a
//! condition. A port keeps the last reply that it took, and the calls that were prepared to be left again and again.
#![tactic(auto)]

mod answers;
mod beginning;
mod calls;
mod closing;
mod copying;
mod fault;
mod last;
mod lines;
mod opening;
mod port;
mod posting;
mod preparing;
mod setting;

pub use answers::Told;
pub use closing::Closing;
pub use fault::PostFault;
pub use last::Last;
pub use opening::open;
pub use port::Port;
