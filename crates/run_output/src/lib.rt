//! What a run lost, and its output: of a journal, as text and as JSON. The journal's calls aren't copied.
#![tactic(auto)]

mod follow;
mod print;
mod told;

pub use print::{lost, print_json, print_text};
