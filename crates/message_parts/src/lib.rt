//! The parts of messages and how they are written and read: numbers, names, lists, files, tokens, places, access lists
//! and what travels of an object.
#![tactic(auto)]

mod list;
mod name;
mod number;
mod object;
mod part;
mod place;
mod request;
mod token;
mod word;

pub use name::{bytes_at, write_bytes};
pub use number::{number_at, push_number, whole_at};
pub use object::{pieces_at, write_pieces};
pub use part::{Part, Stopped, items_at, long_at, short_at, write_items, write_long, write_short};
pub use place::bits_at;
