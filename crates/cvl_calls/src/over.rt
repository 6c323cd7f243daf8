//! Calls on integers whose result may be written over an operand that lies at the target, which takes no memory: item by item, and
//! scans of all items. Each has a step of its own.

mod alike;
mod held;
mod one;
mod said;
mod two;

pub use alike::step_alike;
pub(crate) use one::{Change, change_step};
pub(crate) use two::map_step;
