//! A list of tokens, with ids that are new; what is noted of each granted token.
//!
//! The table of the tokens that a file server has granted.
//!
//! What a file server notes of the tokens that it has granted: by which want, whether the token is in use, and whether
//! it was asked back.
#![tactic(auto)]

mod file_tokens;
mod laws;
mod masks;
mod note_laws;
mod notes;
mod parts;
mod places;
mod shelf;
mod table;

pub use laws::{next_tokens_law, one_number_law};
pub use note_laws::marks_law;
pub use notes::{Note, Notes};
pub use table::{TokenTable, names_file};
