//! Why a line of a script is bad, or a text no call: the first word that is wrong, what is wrong with it, and that in words
//! for people. The grammar itself is `cvl_text`'s.
#![tactic(auto)]

mod arguments;
mod block;
mod call;
mod hint;
mod kind;
mod line;
mod message;
mod nearest;
mod number;
mod place;
mod reason;
mod table;
mod text;
mod word;

pub use call::why_no_call;
pub use kind::Kind;
pub use line::why_bad;
pub use place::Place;
pub use reason::{Reason, Why};
pub use text::append_reason;
