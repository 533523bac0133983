//! Messages, and what they are made of, as JSON: the names of members are those of the fields, a case that holds
//! something is an object with one member, and bytes are a text with one letter for each (ISO 8859-1).
#![tactic(auto)]

mod calls;
mod line;
mod messages;
mod objects;
mod parts;

pub use line::{Line, ToJson};
