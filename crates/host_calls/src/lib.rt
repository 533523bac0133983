//! What a host makes of a call, as far as it sees under the tokens that it holds, and how it answers one itself
//! (Kazar et al., "DEcorum File System Architectural Overview", 1990).
#![tactic(auto)]

mod answering;
mod looking;

pub use answering::{Open, answer, end_use, mark_used};
pub use looking::{Question, Start, Verdict, in_place, root_of, start_of, walked};
