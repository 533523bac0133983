//! What a host asks servers: for the tokens that its open call lacks, to decide a call, and for its tokens again after
//! they restarted; and how it goes on with the call (Kazar et al., "DEcorum File System Architectural Overview", 1990;
//! the protocol is this project's own).
#![tactic(auto)]

mod asking;
mod claiming;
mod going;
mod repeating;

pub use claiming::claim;
pub use going::{begin_call, go_on};
pub use repeating::repeat_all;
