//! The steps of a seat, one or two a file. Each is one step on one word, and plain reads and writes of the slots in hand.

mod answer;
mod collect;
mod commit;
mod enter;
mod lock;
mod look;
mod post;
mod take;
mod unlock;
