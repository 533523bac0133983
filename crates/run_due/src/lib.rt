//! What is due in a step: a host or a server that owes an answer isn't silent, what is due is done, and nothing is done
//! early; and the calls that a host begins are those of its lines. These laws pin the rules on what must be done, on
//! which no other law rests.
#![tactic(auto)]

mod laws;

pub use laws::{calls_are_of_lines, silence_is_refused, what_is_due_is_done};
