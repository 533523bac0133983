//! The journal of a run as JSON Lines, exactly as a definition says: first a line with the tree at the start, the
//! roster in it and the first epochs, and then a line for each step. The names of members are those of the fields.
#![tactic(auto)]

mod line;
mod steps;
mod text;
mod trees;

pub use text::{NotWritten, print_journal, write_journal};
