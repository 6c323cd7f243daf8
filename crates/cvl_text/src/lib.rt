//! The texts of the vector machine: what a call is and how it reads from the words of a line, what a reply is and how
//! it is written.
//!
//! A call is judged as a word, a target and arguments, so that reading, faults and steps are stated once and not once
//! for each call word.
#![tactic(auto)]

mod arguments;
mod call;
mod fault;
mod fixed;
mod item;
mod items;
pub mod laws;
mod named;
mod names;
mod number;
mod parts;
mod reading;
mod reply;
mod text;
mod truth;
mod word;
mod words;
mod writing;

pub use call::{Call, SegmentedIndex};
pub use fault::{Fault, ReadFault};
pub use named::{call_of_ask, call_of_one, call_of_two};
pub use names::NamesRead;
pub use parts::{call_word, names_read, read_the_same, reads, target};
pub use reply::Reply;
pub use text::next_word;
pub use word::{
    AskWord, B1, B2, Cmp, Kind, OneWord, ScanB, ScanZ, ThreeWord, TwoWord, Word, Z1, Z2,
};
pub use writing::write_value;
