//! Named vectors in one memory: distinct names in the order in which they came, each with a value, within a room.
//! A name's value is replaced in place, and a refused store changes nothing.
#![tactic(auto)]

mod block;
mod bounds;
mod edition;
mod entries;
pub mod laws;
mod memory;
mod name;
mod name_text;
mod notes;
mod short_name;
mod value;

pub use bounds::Bounds;
pub use edition::{Edition, ITEM_LIMIT, LARGE_ITEM_LIMIT};
pub use entries::Entries;
pub use memory::{CHANGE_LIMIT, Memory, NAME_LIMIT, ROOM_LIMIT, StoreFault, is_lawful_room};
pub use name::Name;
pub use name_text::NameText;
pub use segment_desc::OutOfMemory;
pub use short_name::ShortName;
pub use value::Value;
