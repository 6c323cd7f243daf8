//! The calls of a machine, one or two a file.

mod begin;
mod call;
mod call_block;
mod combine;
mod look;
mod poll;
mod post;
pub(crate) mod wait;
